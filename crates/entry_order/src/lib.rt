// Entries in the order in which a run takes them: grouped by module, and parted into user-defined and dynamic ones (include_statements.rs).
#![tactic(auto)]

ghost use Rattle.std.specs.Prelude.{◌≡◌, ℕ, ◌+◌, ◌*◌, ◌<◌, ◌≤◌, List, [], ◌∷◌, ◌++◌, length, get_or, take, drop};
ghost use Rattle.facts.specs.graph_tables_crate.Tables.{header_in};
ghost use Rattle.facts.specs.graph_crate.Check.{graph_in};
ghost use Rattle.facts.specs.graph_crate.Loaded.{Loaded};
ghost use Rattle.facts.specs.graph_access_crate.Words.{tabulate};
ghost use Rattle.entry_order.specs.Order.{those, grouped, module_of_entry, user_entries, dynamic_entries};
ghost use Rattle.entry_order.specs.Kinds.{of_kind};
ghost use Rattle.entry_order.specs.Chains.{Chained, Entries, of_module};
ghost use Rattle.entry_order.specs.Plan.{Untouched, live_at, dead_at, cycled_at, words_at, plan_size};

use facts::graph_access_crate::entries;
use facts::graph_format_crate::Header;
use facts::index_crate::{EntryIdx, ModuleIdx};

// Sets the first `count` words of a chain to 0.
fn clear(chain: &mut [usize], count: usize)
    requires { count ≤ length chain.old }
    ensures { (i : ℕ) → i < count → get_or chain.new i 0 ≡ 0 }
{
    chain[..count].fill(0);
}

// Chains the first `count` entries of a list by module.
pub fn link(numbers: &[u32], tables: &[usize], list: &[usize], count: usize, chain: &mut [usize])
    requires loaded { Loaded numbers.now tables.now }
    requires entries { Entries (graph_in numbers.now) list.now count × ((header_in numbers.now).modules + count ≤ length chain.old) }
    ensures { Chained (graph_in numbers.now) list.now count chain.new }
{
    let h = facts::graph_crate::header_of(numbers);
    let modules = h.modules;
    clear(chain, modules);
    for i in (0..count).rev() {
        let owner = entries::entry_module(numbers, tables, EntryIdx(list[i]));
        let u = owner.0;
        chain[modules + i] = chain[u];
        chain[u] = i + 1;
    }
}

// Writes the entries of module u behind the first n of a row. Gives how many there are then.
pub fn append_module(
    numbers: &[u32],
    list: &[usize],
    count: usize,
    chain: &[usize],
    u: ModuleIdx,
    out: &mut [u32],
    n: usize,
) -> usize
    requires in_bounds { 7 ≤ length numbers.now }
    requires chained { Chained (graph_in numbers.now) list.now count chain.now × Entries (graph_in numbers.now) list.now count }
    requires u_bound { (u.0 < (header_in numbers.now).modules) × ((header_in numbers.now).entries ≤ 1024) × (n + length (of_module (graph_in numbers.now) list.now count u.0) ≤ length out.old) }
    ensures { (result ≡ n + length (of_module (graph_in numbers.now) list.now count u.0)) × (out.new ≡ take n out.old ++ (of_module (graph_in numbers.now) list.now count u.0 ++ drop result out.old)) }
{
    let h = facts::graph_crate::header_of(numbers);
    let modules = h.modules;
    let first = u.0;
    let mut at = chain[first];
    let mut k = n;
    while at > 0 {
        out[k] = facts::narrow(list[at - 1]);
        k += 1;
        at = chain[modules + at - 1];
    }
    k
}

// Groups the first `count` entries of a list by module, into the first of a row.
pub fn group(
    numbers: &[u32],
    tables: &[usize],
    list: &[usize],
    count: usize,
    chain: &mut [usize],
    out: &mut [u32],
)
    requires loaded { Loaded numbers.now tables.now }
    requires entries { Entries (graph_in numbers.now) list.now count × ((header_in numbers.now).modules + count ≤ length chain.old) × (count ≤ length out.old) }
    ensures { out.new ≡ grouped (module_of_entry (graph_in numbers.now)) (take count list.now) ++ drop count out.old }
{
    link(numbers, tables, list, count, chain);
    let mut n: usize = 0;
    for i in 0..count {
        let m = entries::entry_module(numbers, tables, EntryIdx(list[i]));
        let u = m.0;
        if chain[u] == i + 1 {
            n = append_module(numbers, list, count, chain, m, out, n);
        }
    }
}

// Copies the user-defined entries of a list, or the dynamic ones, into the plan from word `at` on. Gives the word behind them.
fn copy_kind(
    numbers: &[u32],
    tables: &[usize],
    list: &[u32],
    count: usize,
    dynamic: bool,
    plan: &mut [usize],
    at: usize,
) -> usize
    requires loaded { Loaded numbers.now tables.now }
    requires entries { Entries (graph_in numbers.now) list.now count × (at + length (those (of_kind (graph_in numbers.now) dynamic) (take count list.now)) ≤ length plan.old) }
    ensures { (result ≡ at + length (those (of_kind (graph_in numbers.now) dynamic) (take count list.now))) × (plan.new ≡ take at plan.old ++ (those (of_kind (graph_in numbers.now) dynamic) (take count list.now) ++ drop result plan.old)) }
{
    let mut to = at;
    for i in 0..count {
        let e = facts::rows_crate::wide(list[i]);
        let is_dynamic = entries::entry_kind(numbers, tables, EntryIdx(e)) == 2;
        if is_dynamic == dynamic {
            plan[to] = e;
            to += 1;
        }
    }
    to
}

// Sets the first `count` words of a plan to 0, 1, 2 and so on.
fn number(plan: &mut [usize], count: usize)
    requires { count ≤ length plan.old }
    ensures { plan.new ≡ tabulate (λ e. e) 0 count ++ drop count plan.old }
{
    for e in 0..count {
        plan[e] = e;
    }
}

// Puts the entries into the plan's first words: the user-defined ones, grouped, and behind them the dynamic ones, grouped. Gives how many
// user-defined ones there are.
pub fn split_entries(
    numbers: &[u32],
    tables: &[usize],
    chain: &mut [usize],
    list: &mut [u32],
    plan: &mut [usize],
) -> usize
    requires loaded { Loaded numbers.now tables.now }
    requires numbers_in_bounds { ((header_in numbers.now).modules + (header_in numbers.now).entries ≤ length chain.old) × ((header_in numbers.now).entries ≤ length list.old) × ((header_in numbers.now).entries ≤ length plan.old) }
    ensures value { (result ≡ length (user_entries (graph_in numbers.now))) × (result ≤ (header_in numbers.now).entries) × (take (header_in numbers.now).entries plan.new ≡ user_entries (graph_in numbers.now) ++ dynamic_entries (graph_in numbers.now)) }
    ensures untouched { Untouched 0 (header_in numbers.now).entries plan.old plan.new × Entries (graph_in numbers.now) plan.new (header_in numbers.now).entries }
{
    let h = facts::graph_crate::header_of(numbers);
    let count = h.entries;
    number(plan, count);
    group(numbers, tables, plan, count, chain, list);
    let users = copy_kind(numbers, tables, list, count, false, plan, 0);
    copy_kind(numbers, tables, list, count, true, plan, users);
    users
}

// Where in the plan the live modules begin.
pub fn live_at(h: Header) -> usize
    requires { plan_size h < 18446744073709551616 }
    ensures { result ≡ live_at h }
{
    h.entries
}

// Where in the plan the dead entries begin.
pub fn dead_at(h: Header) -> usize
    requires { plan_size h < 18446744073709551616 }
    ensures { result ≡ dead_at h }
{
    h.entries + h.modules
}

// Where in the plan the modules on a cycle begin.
pub fn cycled_at(h: Header) -> usize
    requires { plan_size h < 18446744073709551616 }
    ensures { result ≡ cycled_at h }
{
    2 * h.entries + h.modules
}

// Where in the plan the words of helpers begin.
pub fn words_at(h: Header) -> usize
    requires { plan_size h < 18446744073709551616 }
    ensures { result ≡ words_at h }
{
    2 * h.entries + 2 * h.modules
}
