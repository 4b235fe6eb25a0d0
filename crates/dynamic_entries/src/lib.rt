// The order in which entries are taken (dynamic_entries.rs, `sort_dynamic_entries_by_topological_order`).
#![tactic(auto)]

ghost use Rattle.std.specs.Prelude.{◌≡◌, ◌+◌, ◌*◌, ◌-◌, ◌<◌, ◌≤◌, Bool, ◌||◌, List, ◌++◌, eqb, length, get_or, take, drop};
ghost use Rattle.determine_side_effects.specs.graph_tables_crate.Tables.{header_in};
ghost use Rattle.determine_side_effects.specs.graph_crate.Check.{graph_in};
ghost use Rattle.determine_side_effects.specs.graph_crate.Loaded.{Loaded};
ghost use Rattle.entry_order.specs.Order.{those, module_of_entry, user_entries, dynamic_entries};
ghost use Rattle.entry_order.specs.Chains.{Chained};
ghost use Rattle.entry_order.specs.Plan.{Untouched};
ghost use Rattle.entry_graph.specs.Memory.{Stored};
ghost use Rattle.dynamic_entries.specs.Sorted.{goes_first, by_completion, completion, sorted_entries};
ghost use Rattle.dynamic_entries.specs.Tries.{Planned, Unlived};
ghost use Rattle.dynamic_entries.specs.Parts.{Cleared, Parted, Cycled, Outside, Completed, Holds, Orders};

use determine_side_effects::graph_access_crate::entries;
use determine_side_effects::index_crate::{EntryIdx, ModuleIdx};
use entry_graph::Built;

// Whether the dynamic entries are sorted; or a module has more successors than there is room for.
#[derive(Clone, Copy)]
pub enum Ordered {
    Done,
    Full,
}

// Whether the entries of module m go first: it is on a cycle, whose words begin at `at`, or it is no node of the ordering graph.
fn goes_first(plan: &[usize], at: usize, outs: &[usize], m: usize) -> bool
    requires { (at + m < length plan.now) × (m < length outs.now) }
    ensures { result ≡ (eqb (get_or plan.now (at + m) 0) 1 || eqb (get_or outs.now m 0) 0) }
{
    if plan[at + m] == 1 {
        return true;
    }
    outs[m] == 0
}

// Writes the dynamic entries that go first into a row. Gives how many there are.
fn take_first(
    numbers: &[u32],
    tables: &[usize],
    plan: &[usize],
    users: usize,
    outs: &[usize],
    list: &mut [u32],
) -> usize
    requires loaded { Loaded numbers.now tables.now }
    requires parted { Parted (graph_in numbers.now) plan.now users × Cycled (graph_in numbers.now) plan.now × Outside (graph_in numbers.now) outs.now × ((header_in numbers.now).entries ≤ length list.old) }
    ensures { (result ≡ length (those (λ e. goes_first (graph_in numbers.now) (module_of_entry (graph_in numbers.now) e)) (dynamic_entries (graph_in numbers.now)))) × (list.new ≡ those (λ e. goes_first (graph_in numbers.now) (module_of_entry (graph_in numbers.now) e)) (dynamic_entries (graph_in numbers.now)) ++ drop result list.old) }
{
    let h = determine_side_effects::graph_crate::header_of(numbers);
    let count = h.entries;
    let at = entry_order::cycled_at(h);
    let mut n: usize = 0;
    for i in users..count {
        let e = plan[i];
        let m = entries::entry_module(numbers, tables, EntryIdx(e));
        if goes_first(plan, at, outs, m.0) {
            list[n] = determine_side_effects::facts_crate::narrow(e);
            n += 1;
        }
    }
    n
}

// Writes the dynamic entries of the nodes that are on no cycle behind the first n of a row, from the node that was completed last on. Gives
// how many there are then.
fn take_by_completion(
    numbers: &[u32],
    plan: &[usize],
    users: usize,
    order: &[usize],
    found: usize,
    chain: &[usize],
    list: &mut [u32],
    n: usize,
) -> usize
    requires in_bounds { (7 ≤ length numbers.now) × ((header_in numbers.now).entries ≤ 1024) }
    requires parted { Parted (graph_in numbers.now) plan.now users × Cycled (graph_in numbers.now) plan.now × Completed (graph_in numbers.now) order.now found }
    requires chained { Chained (graph_in numbers.now) (drop users plan.now) ((header_in numbers.now).entries - users) chain.now × (n + length (by_completion (graph_in numbers.now) (dynamic_entries (graph_in numbers.now)) (completion (graph_in numbers.now))) ≤ length list.old) }
    ensures { (result ≡ n + length (by_completion (graph_in numbers.now) (dynamic_entries (graph_in numbers.now)) (completion (graph_in numbers.now)))) × (list.new ≡ take n list.old ++ (by_completion (graph_in numbers.now) (dynamic_entries (graph_in numbers.now)) (completion (graph_in numbers.now)) ++ drop result list.old)) }
{
    let h = determine_side_effects::graph_crate::header_of(numbers);
    let count = h.entries;
    let at = entry_order::cycled_at(h);
    let mut total = n;
    for k in (0..found).rev() {
        let m = order[k];
        if plan[at + m] != 1 {
            total = entry_order::append_module(
                numbers,
                &plan[users..],
                count - users,
                chain,
                ModuleIdx(m),
                list,
                total,
            );
        }
    }
    total
}

// Copies the first `count` numbers of a row into the plan, from word `users` on.
fn copy_back(list: &[u32], count: usize, plan: &mut [usize], users: usize)
    requires { (count ≤ length list.now) × (users + count ≤ length plan.old) }
    ensures { plan.new ≡ take users plan.old ++ (take count list.now ++ drop (users + count) plan.old) }
{
    for i in 0..count {
        plan[users + i] = determine_side_effects::rows_crate::wide(list[i]);
    }
}

// Sorts the dynamic entries of the plan, which holds the words of the cycles.
fn sort_entries(
    numbers: &[u32],
    tables: &[usize],
    users: usize,
    outs: &[usize],
    order: &[usize],
    found: usize,
    chain: &mut [usize],
    list: &mut [u32],
    plan: &mut [usize],
)
    requires loaded { Loaded numbers.now tables.now }
    requires parted { Parted (graph_in numbers.now) plan.old users × Cycled (graph_in numbers.now) plan.old × Outside (graph_in numbers.now) outs.now × Completed (graph_in numbers.now) order.now found }
    requires numbers_in_bounds { ((header_in numbers.now).modules + (header_in numbers.now).entries ≤ length chain.old) × ((header_in numbers.now).entries ≤ length list.old) × (length (sorted_entries (graph_in numbers.now)) ≡ length (dynamic_entries (graph_in numbers.now))) }
    ensures { Planned (graph_in numbers.now) plan.new users × Untouched users (header_in numbers.now).entries plan.old plan.new }
{
    let h = determine_side_effects::graph_crate::header_of(numbers);
    let count = h.entries - users;
    entry_order::link(numbers, tables, &plan[users..], count, chain);
    let n = take_first(numbers, tables, plan, users, outs, list);
    take_by_completion(numbers, plan, users, order, found, chain, list, n);
    copy_back(list, count, plan, users);
}

// Finds the cycles of the ordering graph, sets their words, and sorts the dynamic entries.
fn sort_by_graph(
    numbers: &[u32],
    tables: &[usize],
    users: usize,
    cap: usize,
    nodes: &[usize],
    n: usize,
    outs: &[usize],
    succs: &[u16],
    edges: &[u8],
    order: &mut [usize],
    chain: &mut [usize],
    list: &mut [u32],
    plan: &mut [usize],
)
    requires loaded { Loaded numbers.now tables.now }
    requires parted { Parted (graph_in numbers.now) plan.old users × Cleared (graph_in numbers.now) plan.old × Holds (graph_in numbers.now) cap nodes.now n outs.now succs.now edges.now }
    requires numbers_in_bounds { ((header_in numbers.now).modules ≤ length order.old) × ((header_in numbers.now).modules + (header_in numbers.now).entries ≤ length chain.old) × ((header_in numbers.now).entries ≤ length list.old) }
    ensures { Planned (graph_in numbers.now) plan.new users × Unlived (graph_in numbers.now) plan.new }
{
    let h = determine_side_effects::graph_crate::header_of(numbers);
    let at = entry_order::cycled_at(h);
    let found = cycles::find_cycles(
        h.modules, cap, nodes, n, outs, succs, edges, order, plan, at,
    );
    sort_entries(
        numbers, tables, users, outs, order, found, chain, list, plan,
    );
}

// Builds the ordering graph in lent rows, with room for `cap` successors of each module, and sorts the dynamic entries by it.
pub fn order_in(
    numbers: &[u32],
    tables: &[usize],
    users: usize,
    cap: usize,
    visited: &mut [u8],
    nodes: &mut [usize],
    outs: &mut [usize],
    succs: &mut [u16],
    edges: &mut [u8],
    order: &mut [usize],
    chain: &mut [usize],
    list: &mut [u32],
    plan: &mut [usize],
) -> Ordered
    requires loaded { Loaded numbers.now tables.now }
    requires parted { Parted (graph_in numbers.now) plan.old users × Cleared (graph_in numbers.now) plan.old }
    requires stored { Stored (header_in numbers.now).modules cap nodes.old 0 outs.old succs.old edges.old × ((header_in numbers.now).modules ≤ 8 * length visited.old) }
    requires numbers_in_bounds { ((header_in numbers.now).modules ≤ length order.old) × ((header_in numbers.now).modules + (header_in numbers.now).entries ≤ length chain.old) × ((header_in numbers.now).entries ≤ length list.old) }
    ensures { Orders (graph_in numbers.now) cap users plan.old plan.new result }
{
    let h = determine_side_effects::graph_crate::header_of(numbers);
    let count = h.entries - users;
    match entry_graph::entry_graph(
        numbers,
        tables,
        cap,
        &plan[users..],
        count,
        order,
        chain,
        visited,
        nodes,
        outs,
        succs,
        edges,
    ) {
        Built::Full => Ordered::Full,
        Built::Nodes(n) => {
            sort_by_graph(
                numbers, tables, users, cap, nodes, n, outs, succs, edges, order, chain, list, plan,
            );
            Ordered::Done
        }
    }
}
