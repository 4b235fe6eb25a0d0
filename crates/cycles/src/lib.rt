// Strongly connected components of the graph of dynamic entries: the order in which its nodes are completed, and which are on a cycle
// (dynamic_entries.rs takes petgraph's `tarjan_scc`).
#![tactic(auto)]

ghost use Rattle.std.specs.Prelude.{◌≡◌, ℕ, ◌+◌, ◌*◌, ◌<◌, ◌≤◌, true, false, length, get_or, take};
ghost use Rattle.bit_row.specs.Row.{bit_at};
ghost use Rattle.entry_graph.specs.Memory.{succs_in, Stored};
ghost use Rattle.cycles.specs.Search.{none, walk, finished};
ghost use Rattle.cycles.specs.Cycles.{groups};
ghost use Rattle.cycles.specs.Memory.{last_first, Found};
ghost use Rattle.cycles.specs.Walked.{search_of, Forward, preds_in, NextSource, Room, Walked, Marked};

// A 16-bit number in a word.
fn wide(x: u16) -> usize
    ensures { result ≡ x }
{
    x as usize
}

// The walk from t, at most `fuel` deep: a node is marked when it is entered, and put into `order` when it is completed. Gives how many
// nodes are completed then. It calls itself; `fuel` is at first the number of modules, so it goes no more than 1,024 deep.
fn complete(
    modules: usize,
    cap: usize,
    outs: &[usize],
    succs: &[u16],
    t: usize,
    fuel: usize,
    seen: &mut [u8],
    order: &mut [usize],
    count: usize,
) -> usize
    requires forward { Forward modules cap outs.now succs.now × (t < modules) }
    requires room { Room modules seen.old order.old count }
    ensures { Walked (walk (succs_in modules cap outs.now succs.now) fuel t (search_of seen.old order.old count)) modules seen.old count seen.new order.new result }
{
    if fuel == 0 {
        return count;
    }
    if bit_row::test(seen, t) {
        return count;
    }
    bit_row::set(seen, t);
    let size = outs[t];
    let mut c = count;
    for k in 0..size.saturating_sub(1) {
        let u = wide(succs[t * cap + k]);
        c = complete(modules, cap, outs, succs, u, fuel - 1, seen, order, c);
    }
    order[c] = t;
    c + 1
}

// The walks from all the nodes, in turn.
fn complete_all(
    modules: usize,
    cap: usize,
    nodes: &[usize],
    n: usize,
    outs: &[usize],
    succs: &[u16],
    seen: &mut [u8],
    order: &mut [usize],
) -> usize
    requires forward { Forward modules cap outs.now succs.now × (modules ≤ length order.old) }
    requires modules_bound { (modules ≤ 8 * length seen.old) × ((j : ℕ) → bit_at seen.old j ≡ false) }
    requires n_le_modules { (n ≤ modules) × (n ≤ length nodes.now) × ((i : ℕ) → i < n → get_or nodes.now i 0 < modules) }
    ensures { (result ≤ modules) × (last_first result order.new ≡ finished (succs_in modules cap outs.now succs.now) modules (take n nodes.now)) }
{
    let mut c: usize = 0;
    for i in 0..n {
        c = complete(modules, cap, outs, succs, nodes[i], modules, seen, order, c);
    }
    c
}

// How many bits from bit i on are clear, so far as one byte tells: 0 if bit i is set.
fn gap(edges: &[u8], i: usize) -> usize
    requires { (i < 1048576) × (i < 8 * length edges.now) }
    ensures { (result ≤ 8) × ((k : ℕ) → k < result → bit_at edges.now (i + k) ≡ false) × (result ≡ 0 → bit_at edges.now i ≡ true) }
{
    let at = i / 8;
    if edges[at] == 0 {
        return 8 - i % 8;
    }
    if bit_row::test(edges, i) {
        return 0;
    }
    1
}

// The first node from `from` on with an edge to t, or `modules`.
fn next_source(modules: usize, edges: &[u8], t: usize, from: usize) -> usize
    requires { (modules ≤ 1024) × (modules * modules ≤ 8 * length edges.now) × (t < modules) × (from ≤ modules) }
    ensures { NextSource modules edges.now t from result }
{
    let mut u = from;
    while u < modules {
        let clear = gap(edges, t * modules + u);
        if clear == 0 {
            return u;
        }
        u += clear;
    }
    modules
}

// The walk from t over the edges the other way round, at most `fuel` deep, into `group`. It calls itself as `complete` does.
fn collect(
    modules: usize,
    edges: &[u8],
    t: usize,
    fuel: usize,
    seen: &mut [u8],
    group: &mut [usize],
    count: usize,
) -> usize
    requires modules_bound { (modules ≤ 1024) × (modules * modules ≤ 8 * length edges.now) × (t < modules) }
    requires room { Room modules seen.old group.old count }
    ensures { Walked (walk (preds_in modules edges.now) fuel t (search_of seen.old group.old count)) modules seen.old count seen.new group.new result }
{
    if fuel == 0 {
        return count;
    }
    if bit_row::test(seen, t) {
        return count;
    }
    bit_row::set(seen, t);
    let mut c = count;
    let mut u = next_source(modules, edges, t, 0);
    while u < modules {
        c = collect(modules, edges, u, fuel - 1, seen, group, c);
        u = next_source(modules, edges, t, u + 1);
    }
    group[c] = t;
    c + 1
}

// Sets the words of the first `size` nodes of a group.
fn mark_group(modules: usize, group: &[usize], size: usize, plan: &mut [usize], at: usize)
    requires size_bound { (size ≤ 1024) × (size ≤ length group.now) × ((i : ℕ) → i < size → get_or group.now i 0 < modules) }
    requires modules_in_bounds { (at + modules ≤ length plan.old) × (length plan.old < 4294967296) }
    ensures { Marked (last_first size group.now) modules at plan.old plan.new }
{
    for i in 0..size {
        let m = group[i];
        plan[at + m] = 1;
    }
}

// From the last completed down: what a node's walk over reversed edges newly enters is a group, and one of more than one is marked.
fn mark_cycles(
    modules: usize,
    edges: &[u8],
    order: &[usize],
    count: usize,
    seen: &mut [u8],
    group: &mut [usize],
    plan: &mut [usize],
    at: usize,
)
    requires modules_bound { (modules ≤ 1024) × (modules * modules ≤ 8 * length edges.now) }
    requires modules_bound_2 { (modules ≤ 8 * length seen.old) × ((j : ℕ) → bit_at seen.old j ≡ false) × (modules ≤ length group.old) }
    requires count_le_modules { (count ≤ modules) × (count ≤ length order.now) × ((i : ℕ) → i < count → get_or order.now i 0 < modules) }
    requires modules_in_bounds { (at + modules ≤ length plan.old) × (length plan.old < 4294967296) }
    ensures { Marked (groups (preds_in modules edges.now) modules (last_first count order.now) none) modules at plan.old plan.new }
{
    for k in (0..count).rev() {
        let size = collect(modules, edges, order[k], modules, seen, group, 0);
        if size > 1 {
            mark_group(modules, group, size, plan, at);
        }
    }
}

// Fills `order` with the nodes as they are completed, and sets the words of the modules on a cycle, from `at` on. They are 0 at first. Gives how
// many nodes were completed.
pub fn find_cycles(
    modules: usize,
    cap: usize,
    nodes: &[usize],
    n: usize,
    outs: &[usize],
    succs: &[u16],
    edges: &[u8],
    order: &mut [usize],
    plan: &mut [usize],
    at: usize,
) -> usize
    requires stored { Stored modules cap nodes.now n outs.now succs.now edges.now }
    requires modules_in_bounds { (modules ≤ length order.old) × (at + modules ≤ length plan.old) × (length plan.old < 4294967296) × ((m : ℕ) → m < modules → get_or plan.old (at + m) 0 ≡ 0) }
    ensures { Found (succs_in modules cap outs.now succs.now) modules (take n nodes.now) at plan.old order.new plan.new result }
{
    let mut seen = [0u8; 128];
    let count = complete_all(modules, cap, nodes, n, outs, succs, &mut seen, order);
    let mut entered = [0u8; 128];
    let mut group = [0usize; 1024];
    mark_cycles(
        modules,
        edges,
        order,
        count,
        &mut entered,
        &mut group,
        plan,
        at,
    );
    count
}
