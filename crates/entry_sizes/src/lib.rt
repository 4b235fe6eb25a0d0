// Parting and sorting the entries of a graph, with rows by its size.
// Up to 128 modules there is room for all of them as successors of each. Above, there is room for 16 at first; where a module has more, the ordering
// graph is built again with room for 1,024.
#![tactic(auto)]

ghost use Rattle.std.specs.Prelude.{◌≡◌, ℕ, ◌+◌, ◌*◌, ◌<◌, ◌≤◌, ◌&&◌, leb, length, get_or};
ghost use Rattle.determine_side_effects.specs.graph_tables_crate.Tables.{header_in};
ghost use Rattle.determine_side_effects.specs.graph_crate.Check.{graph_in};
ghost use Rattle.determine_side_effects.specs.graph_crate.Loaded.{Loaded};
ghost use Rattle.entry_order.specs.Plan.{plan_size};
ghost use Rattle.dynamic_entries.specs.Tries.{Planned, Unlived};
ghost use Rattle.dynamic_entries.specs.Parts.{Cleared, Parted, Orders};

use determine_side_effects::graph_format_crate::Header;
use dynamic_entries::{Ordered, order_in};

// Sorts the dynamic entries of a graph of at most M modules and entries, with rows for them: V bytes for a bit each, C successors for each, S for all,
// E bytes for an edge from each to each, and a chain of K words.
fn order_with<
    const C: usize,
    const M: usize,
    const V: usize,
    const S: usize,
    const E: usize,
    const K: usize,
>(numbers: &[u32], tables: &[usize], users: usize, plan: &mut [usize]) -> Ordered
    requires loaded { Loaded numbers.now tables.now }
    requires numbers_bound { ((header_in numbers.now).modules ≤ M) × ((header_in numbers.now).entries ≤ M) }
    requires room { (0 < C) × (C ≤ 1024) × (M ≤ 1024) × (M ≤ 8 * V) × (M * C ≤ S) × (M * M ≤ 8 * E) × (M + M ≤ K) }
    requires few { (V < 4294967296) × (S < 4294967296) × (E < 4294967296) × (K < 4294967296) }
    requires parted { Parted (graph_in numbers.now) plan.old users × Cleared (graph_in numbers.now) plan.old }
    ensures { Orders (graph_in numbers.now) C users plan.old plan.new result }
{
    let mut visited = [0u8; V];
    let mut nodes = [0usize; M];
    let mut outs = [0usize; M];
    let mut succs = [0u16; S];
    let mut edges = [0u8; E];
    let mut order = [0usize; M];
    let mut chain = [0usize; K];
    let mut list = [0u32; M];
    order_in(
        numbers,
        tables,
        users,
        C,
        &mut visited,
        &mut nodes,
        &mut outs,
        &mut succs,
        &mut edges,
        &mut order,
        &mut chain,
        &mut list,
        plan,
    )
}

// Parts the entries of a graph of at most M modules and entries, with a chain of K words.
fn split_with<const M: usize, const K: usize>(
    numbers: &[u32],
    tables: &[usize],
    plan: &mut [usize],
) -> usize
    requires loaded { Loaded numbers.now tables.now }
    requires numbers_bound { ((header_in numbers.now).modules ≤ M) × ((header_in numbers.now).entries ≤ M) }
    requires room { (M + M ≤ K) × (K < 4294967296) }
    requires cleared { Cleared (graph_in numbers.now) plan.old }
    ensures { Parted (graph_in numbers.now) plan.new result × Cleared (graph_in numbers.now) plan.new }
{
    let mut chain = [0usize; K];
    let mut list = [0u32; M];
    entry_order::split_entries(numbers, tables, &mut chain, &mut list, plan)
}

// Whether a graph has at most `limit` modules and as many entries.
fn is_within(h: Header, limit: usize) -> bool
    ensures { result ≡ (leb h.modules limit && leb h.entries limit) }
{
    if h.modules > limit {
        return false;
    }
    h.entries <= limit
}

// Puts the entries of a small graph into the plan. Gives how many user-defined ones there are.
fn order_few(numbers: &[u32], tables: &[usize], h: Header, plan: &mut [usize]) -> usize
    requires loaded { Loaded numbers.now tables.now }
    requires h_value { (h ≡ header_in numbers.now) × ((header_in numbers.now).modules ≤ 16) × ((header_in numbers.now).entries ≤ 16) }
    requires cleared { Cleared (graph_in numbers.now) plan.old }
    ensures { Planned (graph_in numbers.now) plan.new result × Unlived (graph_in numbers.now) plan.new }
{
    let users = split_with::<16, 32>(numbers, tables, plan);
    if users == h.entries {
        return users;
    }
    order_with::<16, 16, 2, 256, 32, 32>(numbers, tables, users, plan);
    users
}

// The same for a larger graph, with rows by its size. `again` is 0 (`frames::apart`).
fn order_larger(
    numbers: &[u32],
    tables: &[usize],
    h: Header,
    plan: &mut [usize],
    again: usize,
) -> usize
    requires loaded { Loaded numbers.now tables.now }
    requires h_value { (h ≡ header_in numbers.now) × Cleared (graph_in numbers.now) plan.old }
    ensures { Planned (graph_in numbers.now) plan.new result × Unlived (graph_in numbers.now) plan.new }
{
    if again > 0 {
        return order_larger(numbers, tables, h, plan, again - 1);
    }
    let users = split_with::<1024, 2048>(numbers, tables, plan);
    if users == h.entries {
        return users;
    }
    if is_within(h, 128) {
        order_with::<128, 128, 16, 16384, 2048, 256>(numbers, tables, users, plan);
        return users;
    }
    match order_with::<16, 1024, 128, 16384, 131072, 2048>(numbers, tables, users, plan) {
        Ordered::Done => users,
        Ordered::Full => {
            order_with::<1024, 1024, 128, 1048576, 131072, 2048>(numbers, tables, users, plan);
            users
        }
    }
}

// Puts the entries into the plan in the order in which they are taken, and says which modules are on a cycle. The plan is cleared. Gives how
// many user-defined entries there are.
pub fn order_entries(numbers: &[u32], tables: &[usize], plan: &mut [usize]) -> usize
    requires loaded { Loaded numbers.now tables.now }
    requires numbers_in_bounds { (plan_size (header_in numbers.now) ≤ length plan.old) × (length plan.old < 4294967296) × ((i : ℕ) → get_or plan.old i 0 ≡ 0) }
    ensures { Planned (graph_in numbers.now) plan.new result × Unlived (graph_in numbers.now) plan.new }
{
    let h = determine_side_effects::graph_crate::header_of(numbers);
    if is_within(h, 16) {
        return order_few(numbers, tables, h, plan);
    }
    order_larger(numbers, tables, h, plan, frames::apart(numbers))
}
