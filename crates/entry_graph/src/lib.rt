// The graph by which dynamic entries are ordered (dynamic_entries.rs, `construct_dynamic_entry_graph`).
#![tactic(auto)]

ghost use Rattle.std.specs.Prelude.{◌≡◌, ℕ, ◌+◌, ◌*◌, ◌<◌, ◌≤◌, false, ◌||◌, List, [], eqb, length, get_or, take};
ghost use Rattle.bit_row.specs.Row.{bit_at};
ghost use Rattle.graph_access.specs.graph_tables_crate.Tables.{header_in};
ghost use Rattle.graph_access.specs.graph_crate.Check.{graph_in};
ghost use Rattle.graph_access.specs.graph_crate.Loaded.{Loaded};
ghost use Rattle.graph_access.specs.Names.{import_records};
ghost use Rattle.graph_access.specs.Words.{module_of};
ghost use Rattle.entry_graph.specs.Ordering.{no_ordering, construct, add_edge, from_entries};
ghost use Rattle.entry_graph.specs.Memory.{ordering_in, Stored, Builds};
ghost use Rattle.entry_graph.specs.Steps.{Put, Holds, records_of, Bounded, Asks, behind_edge, Takes, TakesRecords};

use graph_access::index_crate::{EntryIdx, ImportRecordIdx, ModuleIdx};
use graph_access::{entries, modules};

// How many nodes the graph has; or a module has more successors than there is room for.
#[derive(Clone, Copy)]
pub enum Built {
    Nodes(usize),
    Full,
}

// What an import record asks for: nothing; a walk from a module under the present root; an edge to a module.
#[derive(Clone, Copy)]
enum Import {
    Unresolved,
    SameRoot(ModuleIdx),
    Edge(ModuleIdx),
}

// What is left of an import record when its edge is added: a walk under a root from a module, or nothing. Both have the number of nodes.
#[derive(Clone, Copy)]
enum Step {
    Walk(ModuleIdx, ModuleIdx, usize),
    Stay(usize),
    Overfull,
}

// How far the import records of a module were taken: up to a record, with a walk under a root from a module left, or all. Both have the number of nodes.
#[derive(Clone, Copy)]
enum Taken {
    UpTo(usize, ModuleIdx, ModuleIdx, usize),
    All(usize),
    Overfull,
}

// A module's number in 16 bits.
fn narrow(x: usize) -> u16
    requires { x < 65536 }
    ensures { result ≡ x }
{
    x as u16
}

// Where a column of a row stands in a table with rows of one width.
fn cell(width: usize, row: usize, column: usize) -> usize
    requires { (width ≤ 1024) × (row < 1024) × (column < 1024) }
    ensures { result ≡ row * width + column }
{
    row * width + column
}

// Makes module m a node, unless it is one. Gives how many nodes there are.
fn put_node(m: usize, n: usize, nodes: &mut [usize], outs: &mut [usize]) -> usize
    requires { (m < length outs.old) × (get_or outs.old m 0 ≡ 0 → n < length nodes.old) }
    ensures { Put m n nodes.old outs.old nodes.new outs.new result }
{
    if outs[m] > 0 {
        return n;
    }
    nodes[n] = m;
    outs[m] = 1;
    n + 1
}

// Adds an edge, unless it is there.
fn add_edge(
    modules: usize,
    cap: usize,
    from: usize,
    to: usize,
    n: usize,
    nodes: &mut [usize],
    outs: &mut [usize],
    succs: &mut [u16],
    edges: &mut [u8],
) -> Built
    requires stored { Stored modules cap nodes.old n outs.old succs.old edges.old }
    requires from_lt_modules { (from < modules) × (to < modules) }
    ensures { (v : List ℕ) → Holds modules cap (add_edge from to (ordering_in modules cap v nodes.old n outs.old succs.old)) v nodes.new outs.new succs.new edges.new result }
{
    let first = put_node(from, n, nodes, outs);
    let both = put_node(to, first, nodes, outs);
    let bit = cell(modules, to, from);
    if bit_row::test(edges, bit) {
        return Built::Nodes(both);
    }
    let count = outs[from] - 1;
    if count == cap {
        return Built::Full;
    }
    let at = cell(cap, from, count);
    succs[at] = narrow(to);
    outs[from] = count + 2;
    bit_row::set(edges, bit);
    Built::Nodes(both)
}

// How many import records of a module are walked: none of an external one.
fn record_count(numbers: &[u32], tables: &[usize], m: ModuleIdx) -> usize
    requires loaded { Loaded numbers.now tables.now }
    requires m_bound { m.0 < (header_in numbers.now).modules }
    ensures { result ≡ length (records_of (graph_in numbers.now) m.0) }
{
    if modules::is_normal(numbers, tables, m) {
        return modules::import_record_count(numbers, tables, m);
    }
    0
}

// What import record k of module m asks for. A dynamic import of the present root itself makes no edge.
fn read_record(
    numbers: &[u32],
    tables: &[usize],
    root: ModuleIdx,
    m: ModuleIdx,
    k: ImportRecordIdx,
) -> Import
    requires loaded { Loaded numbers.now tables.now }
    requires m_bound { (m.0 < (header_in numbers.now).modules) × (k.0 < length (import_records (module_of (graph_in numbers.now) m.0))) }
    ensures { Asks (header_in numbers.now).modules root.0 (get_or (import_records (module_of (graph_in numbers.now) m.0)) k.0 []) result }
{
    let target = modules::import_record_target(numbers, tables, m, k);
    if target == 0 {
        return Import::Unresolved;
    }
    let t = target - 1;
    if modules::import_record_kind(numbers, tables, m, k) != 2 {
        return Import::SameRoot(ModuleIdx(t));
    }
    if root.0 == t {
        return Import::SameRoot(ModuleIdx(t));
    }
    Import::Edge(ModuleIdx(t))
}

// The walk behind an edge to module t, which was seen before or not.
fn behind_edge(built: Built, seen: bool, t: ModuleIdx) -> Step
    ensures { result ≡ behind_edge built seen t }
{
    match built {
        Built::Nodes(n) => {
            if seen {
                return Step::Stay(n);
            }
            Step::Walk(t, t, n)
        }
        Built::Full => Step::Overfull,
    }
}

// Adds the edge that an import record asks for, if it does. Says which walk is left.
fn take_import(
    numbers: &[u32],
    cap: usize,
    root: ModuleIdx,
    import: Import,
    n: usize,
    nodes: &mut [usize],
    outs: &mut [usize],
    succs: &mut [u16],
    edges: &mut [u8],
) -> Step
    requires in_bounds { 7 ≤ length numbers.now }
    requires stored { Stored (header_in numbers.now).modules cap nodes.old n outs.old succs.old edges.old }
    requires root_bound { (root.0 < (header_in numbers.now).modules) × Bounded (header_in numbers.now).modules import }
    ensures { Takes (header_in numbers.now).modules cap root.0 import nodes.old n outs.old succs.old nodes.new outs.new succs.new edges.new result }
{
    match import {
        Import::Unresolved => Step::Stay(n),
        Import::SameRoot(t) => Step::Walk(root, t, n),
        Import::Edge(t) => {
            let h = graph_access::graph_crate::header_of(numbers);
            let u = t.0;
            let seen = outs[u] > 0;
            let built = add_edge(h.modules, cap, root.0, u, n, nodes, outs, succs, edges);
            behind_edge(built, seen, t)
        }
    }
}

// Whether the walk ends at module m: it is as deep as it may be, or m was visited.
fn is_over(fuel: usize, visited: &[u8], m: ModuleIdx) -> bool
    requires { m.0 < 8 * length visited.now }
    ensures { result ≡ (eqb fuel 0 || bit_at visited.now m.0) }
{
    if fuel == 0 {
        return true;
    }
    bit_row::test(visited, m.0)
}

// Takes the import records of module m from record k on, up to the first behind which a walk is left from a module that is not visited. `fuel` is how
// deep that walk may go.
fn take_records(
    numbers: &[u32],
    tables: &[usize],
    fuel: usize,
    cap: usize,
    root: ModuleIdx,
    m: ModuleIdx,
    k: usize,
    n: usize,
    visited: &[u8],
    nodes: &mut [usize],
    outs: &mut [usize],
    succs: &mut [u16],
    edges: &mut [u8],
) -> Taken
    requires loaded { Loaded numbers.now tables.now }
    requires stored { Stored (header_in numbers.now).modules cap nodes.old n outs.old succs.old edges.old }
    requires root_bound { (root.0 < (header_in numbers.now).modules) × (m.0 < (header_in numbers.now).modules) × ((header_in numbers.now).modules ≤ 8 * length visited.now) }
    ensures { TakesRecords (graph_in numbers.now) (header_in numbers.now).modules cap fuel root.0 m.0 k visited.now nodes.old n outs.old succs.old nodes.new outs.new succs.new edges.new result }
{
    let size = record_count(numbers, tables, m);
    let mut c = n;
    for i in k..size {
        let import = read_record(numbers, tables, root, m, ImportRecordIdx(i));
        match take_import(numbers, cap, root, import, c, nodes, outs, succs, edges) {
            Step::Walk(r, t, d) => {
                c = d;
                if !is_over(fuel, visited, t) {
                    return Taken::UpTo(i + 1, r, t, d);
                }
            }
            Step::Stay(d) => {
                c = d;
            }
            Step::Overfull => {
                return Taken::Overfull;
            }
        }
    }
    Taken::All(c)
}

// The walk from module `first`, which is not visited and is its own root. It keeps its own stack, so that the machine's does not grow with the graph:
// frame d is a walk that waits for the one behind it, with the import record at which it goes on in `records`, and 1,024 times its module plus its
// root in `walks`. There are never more frames than modules, since each has visited one more.
fn construct_dynamic_entry_graph(
    numbers: &[u32],
    tables: &[usize],
    cap: usize,
    first: ModuleIdx,
    n: usize,
    records: &mut [usize],
    walks: &mut [usize],
    visited: &mut [u8],
    nodes: &mut [usize],
    outs: &mut [usize],
    succs: &mut [u16],
    edges: &mut [u8],
) -> Built
    requires loaded { Loaded numbers.now tables.now }
    requires stored { Stored (header_in numbers.now).modules cap nodes.old n outs.old succs.old edges.old }
    requires numbers_in_bounds { ((header_in numbers.now).modules ≤ length records.old) × ((header_in numbers.now).modules ≤ length walks.old) }
    requires first_bound { (first.0 < (header_in numbers.now).modules) × ((header_in numbers.now).modules ≤ 8 * length visited.old) × (bit_at visited.old first.0 ≡ false) }
    ensures { Holds (header_in numbers.now).modules cap (construct (graph_in numbers.now) (header_in numbers.now).modules first.0 first.0 (ordering_in (header_in numbers.now).modules cap visited.old nodes.old n outs.old succs.old)) visited.new nodes.new outs.new succs.new edges.new result }
{
    let h = graph_access::graph_crate::header_of(numbers);
    bit_row::set(visited, first.0);
    let mut root = first.0;
    let mut m = first.0;
    let mut k: usize = 0;
    let mut c = n;
    let mut depth: usize = 0;
    loop {
        match take_records(
            numbers,
            tables,
            h.modules - 1 - depth,
            cap,
            ModuleIdx(root),
            ModuleIdx(m),
            k,
            c,
            visited,
            nodes,
            outs,
            succs,
            edges,
        ) {
            Taken::UpTo(i, r, t, d) => {
                bit_row::set(visited, t.0);
                records[depth] = i;
                walks[depth] = 1024 * m + root;
                depth += 1;
                root = r.0;
                m = t.0;
                k = 0;
                c = d;
            }
            Taken::All(d) => {
                if depth == 0 {
                    return Built::Nodes(d);
                }
                depth -= 1;
                k = records[depth];
                m = walks[depth] / 1024;
                root = walks[depth] % 1024;
                c = d;
            }
            Taken::Overfull => {
                return Built::Full;
            }
        }
    }
}

// The graph of the first `count` entries of a list. The rows hold no graph yet; `records` and `walks` are the walk's stack.
pub fn entry_graph(
    numbers: &[u32],
    tables: &[usize],
    cap: usize,
    list: &[usize],
    count: usize,
    records: &mut [usize],
    walks: &mut [usize],
    visited: &mut [u8],
    nodes: &mut [usize],
    outs: &mut [usize],
    succs: &mut [u16],
    edges: &mut [u8],
) -> Built
    requires loaded { Loaded numbers.now tables.now }
    requires count_in_bounds { (count ≤ length list.now) × ((i : ℕ) → i < count → get_or list.now i 0 < (header_in numbers.now).entries) }
    requires numbers_in_bounds { ((header_in numbers.now).modules ≤ length records.old) × ((header_in numbers.now).modules ≤ length walks.old) }
    requires stored { Stored (header_in numbers.now).modules cap nodes.old 0 outs.old succs.old edges.old × ((header_in numbers.now).modules ≤ 8 * length visited.old) }
    ensures { Builds (header_in numbers.now).modules cap (from_entries (graph_in numbers.now) (take count list.now) no_ordering) nodes.new outs.new succs.new edges.new result }
{
    let bytes = visited.len();
    let mut n: usize = 0;
    for i in 0..count {
        let m = entries::entry_module(numbers, tables, EntryIdx(list[i]));
        bit_row::clear(visited, bytes);
        match construct_dynamic_entry_graph(
            numbers, tables, cap, m, n, records, walks, visited, nodes, outs, succs, edges,
        ) {
            Built::Nodes(d) => {
                n = d;
            }
            Built::Full => {
                return Built::Full;
            }
        }
    }
    Built::Nodes(n)
}
