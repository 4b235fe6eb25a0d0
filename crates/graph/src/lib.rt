// The check of a graph, and its tables.
#![tactic(auto)]

ghost use Rattle.std.specs.Prelude.{◌≡◌, ℕ, ◌+◌, ◌*◌, ◌<◌, ◌≤◌, List, [], ◌∷◌, Bool, true, false, length, get_or, drop};
ghost use Rattle.graph_entries.specs.rows_crate.Walk.{walk_of, cells, no_item};
ghost use Rattle.graph_entries.specs.graph_format_crate.Format.{header_rules};
ghost use Rattle.graph_entries.specs.graph_tables_crate.Tables.{end_of, header_in, modules_read, modules_in, symbols_read, symbols_in};
ghost use Rattle.graph_entries.specs.graph_tables_crate.Places.{ModuleTable, SymbolTable, StatementTable, EntryTable};
ghost use Rattle.graph.specs.Check.{graph_at, tail_walk, body_walk, graph_in, each, runtime_normal, owns_namespace, root_is_root, later_rules, check_of, answer_of, OnceRead, OnceAccepted, HeaderRead};
ghost use Rattle.graph.specs.Loaded.{Places, Loaded};
ghost use Rattle.graph_entries.specs.tables_crate.Layout.{start_of, Laid, Kept, module_places, symbol_places, first_statements, statement_places, entry_places, at_modules, at_symbols, at_first_statements, at_verdicts};

// The crates below, for the crates above, which list this one alone.
pub use graph_entries as graph_entries_crate;
use graph_entries::graph_format_crate::Header;
use graph_entries::refusal_crate::Refusal;
use graph_entries::tables_crate::{
    LARGE_PLACES, LARGEST_PLACES, MIDDLE_PLACES, MODULES, SMALL_PLACES, SYMBOLS, Size,
};
pub use graph_entries::{
    graph_format_crate, graph_tables_crate, refusal_crate, rows_crate, tables_crate,
};

// A limit of a number that may be any.
const ANY: usize = 4294967296;

// The header's counts of statements, entries and helpers.
fn last_counts(numbers: &[u32], at: usize) -> Result<usize, Refusal>
    ensures { result ≡ walk_of (cells (drop 4 header_rules) numbers.now at) }
{
    let a = graph_entries::rows_crate::counter(numbers, at, 16384, 1, ANY)?;
    let b = graph_entries::rows_crate::counter(numbers, a, 1024, 0, ANY)?;
    graph_entries::rows_crate::counter(numbers, b, 32, 0, ANY)
}

// The header's seven numbers.
pub fn header(numbers: &[u32]) -> Result<usize, Refusal>
    ensures { result ≡ walk_of (cells header_rules numbers.now 0) }
{
    let a = graph_entries::rows_crate::row(numbers, 0, 2, 256, ANY, 0)?;
    let b = graph_entries::rows_crate::counter(numbers, a, 1024, 1, ANY)?;
    let c = graph_entries::rows_crate::counter(numbers, b, 16384, 1, ANY)?;
    last_counts(numbers, c)
}

// The header's numbers, by name.
pub fn header_of(numbers: &[u32]) -> Header
    requires { 7 ≤ length numbers.now }
    ensures { result ≡ header_in numbers.now }
{
    Header {
        options: graph_entries::rows_crate::wide(numbers[0]),
        runtime: graph_entries::rows_crate::wide(numbers[1]),
        modules: graph_entries::rows_crate::wide(numbers[2]),
        symbols: graph_entries::rows_crate::wide(numbers[3]),
        statements: graph_entries::rows_crate::wide(numbers[4]),
        entries: graph_entries::rows_crate::wide(numbers[5]),
        helpers: graph_entries::rows_crate::wide(numbers[6]),
    }
}

// Whether the runtime module is a normal one.
fn runtime_normal(numbers: &[u32], h: Header, modules: &[usize]) -> bool
    requires module_table { ModuleTable numbers.now modules.now }
    requires h_value { h ≡ header_in numbers.now }
    ensures { result ≡ runtime_normal (graph_in numbers.now) }
{
    if h.runtime < h.modules {
        return graph_entries::graph_tables_crate::module_number(numbers, modules, h.runtime, 0)
            == 1;
    }
    false
}

// Whether module m owns its namespace, if it has one.
fn owns_namespace(numbers: &[u32], modules: &[usize], symbols: &[usize], m: usize) -> bool
    requires module_table { ModuleTable numbers.now modules.now }
    requires symbol_table { SymbolTable numbers.now symbols.now }
    requires m_bound { m < (header_in numbers.now).modules }
    ensures { result ≡ owns_namespace (symbols_in numbers.now) m (get_or (modules_in numbers.now) m no_item) }
{
    let namespace = graph_entries::graph_tables_crate::module_number(numbers, modules, m, 7);
    if namespace == 0 {
        return true;
    }
    graph_entries::graph_tables_crate::symbol_number(numbers, symbols, namespace - 1, 0) == m
}

// Whether the root of symbol s is its own root.
fn root_is_root(numbers: &[u32], symbols: &[usize], s: usize) -> bool
    requires symbol_table { SymbolTable numbers.now symbols.now }
    requires s_bound { s < (header_in numbers.now).symbols }
    ensures { result ≡ root_is_root (symbols_in numbers.now) s (get_or (symbols_in numbers.now) s no_item) }
{
    let root = graph_entries::graph_tables_crate::symbol_number(numbers, symbols, s, 2);
    graph_entries::graph_tables_crate::symbol_number(numbers, symbols, root, 2) == root
}

// Every module's namespace is its own, or the first that is not.
fn namespaces(
    numbers: &[u32],
    modules: &[usize],
    symbols: &[usize],
    count: usize,
) -> Result<usize, Refusal>
    requires module_table { ModuleTable numbers.now modules.now }
    requires symbol_table { SymbolTable numbers.now symbols.now }
    requires count_value { count ≡ (header_in numbers.now).modules }
    ensures { result ≡ walk_of (each (owns_namespace (symbols_in numbers.now)) 7 0 (modules_in numbers.now)) }
{
    for m in 0..count {
        if !owns_namespace(numbers, modules, symbols, m) {
            return Err(Refusal::OutOfRange(modules[m] + 7));
        }
    }
    Ok(0)
}

// Every symbol's root is its own root, or the first that is not.
fn roots(numbers: &[u32], symbols: &[usize], count: usize) -> Result<usize, Refusal>
    requires symbol_table { SymbolTable numbers.now symbols.now }
    requires count_value { count ≡ (header_in numbers.now).symbols }
    ensures { result ≡ walk_of (each (root_is_root (symbols_in numbers.now)) 2 0 (symbols_in numbers.now)) }
{
    for s in 0..count {
        if !root_is_root(numbers, symbols, s) {
            return Err(Refusal::OutOfRange(symbols[s] + 2));
        }
    }
    Ok(0)
}

// The rules that read a later number.
fn later(numbers: &[u32], h: Header, modules: &[usize], symbols: &[usize]) -> Result<usize, Refusal>
    requires module_table { ModuleTable numbers.now modules.now }
    requires symbol_table { SymbolTable numbers.now symbols.now }
    requires h_value { h ≡ header_in numbers.now }
    ensures { result ≡ walk_of (later_rules (graph_in numbers.now)) }
{
    if runtime_normal(numbers, h, modules) {
        namespaces(numbers, modules, symbols, h.modules)?;
        return roots(numbers, symbols, h.symbols);
    }
    Err(Refusal::OutOfRange(1))
}

// Reads the statements and the entries from `at` on, and fills their sections.
fn tail(numbers: &[u32], h: Header, at: usize, tables: &mut [usize]) -> Result<usize, Refusal>
    requires laid { Laid h at_verdicts tables.old × ModuleTable numbers.now (module_places tables.old) }
    requires h_value { (h ≡ header_in numbers.now) × (at ≡ end_of (symbols_read numbers.now)) }
    ensures { (result ≡ tail_walk numbers.now at) × OnceRead result (StatementTable numbers.now (first_statements tables.new) (statement_places tables.new) × EntryTable numbers.now (entry_places tables.new)) × Kept (start_of h at_first_statements) tables.old tables.new }
{
    let q = graph_entries::graph_tables_crate::statements(numbers, at, h, tables)?;
    graph_entries::entries(numbers, q, h, tables)
}

// Reads the symbols, the statements and the entries from `at` on, and fills their sections.
fn body(numbers: &[u32], h: Header, at: usize, tables: &mut [usize]) -> Result<usize, Refusal>
    requires laid { Laid h at_verdicts tables.old × ModuleTable numbers.now (module_places tables.old) }
    requires h_value { (h ≡ header_in numbers.now) × (at ≡ end_of (modules_read numbers.now)) × (h.symbols < 4294967296) }
    ensures { (result ≡ body_walk numbers.now at) × OnceRead result (SymbolTable numbers.now (symbol_places tables.new) × StatementTable numbers.now (first_statements tables.new) (statement_places tables.new) × EntryTable numbers.now (entry_places tables.new)) × Kept (start_of h at_symbols) tables.old tables.new }
{
    let q = graph_entries::graph_tables_crate::symbols(numbers, at, h, tables)?;
    tail(numbers, h, q, tables)
}

// Reads all parts of the graph behind the header, and fills the five sections of places.
fn parts(numbers: &[u32], h: Header, tables: &mut [usize]) -> Result<usize, Refusal>
    requires h_value { (h ≡ header_in numbers.now) × (h.modules < 4294967296) × (h.symbols < 4294967296) × (h.statements < 4294967296) }
    requires laid { Laid h at_verdicts tables.old }
    ensures { (result ≡ walk_of (graph_at h numbers.now 7)) × OnceRead result (Places numbers.now tables.new) × Kept (start_of h at_modules) tables.old tables.new }
{
    let a = graph_entries::rows_crate::plain_rows(numbers, 7, h.helpers, 1, h.symbols, 0, 0)?;
    let b = graph_entries::graph_tables_crate::modules(numbers, a, h, tables)?;
    body(numbers, h, b, tables)
}

// Lays the tables out, checks the numbers behind their header, and fills the five sections of places.
pub fn load(numbers: &[u32], h: Header, tables: &mut [usize]) -> Result<(), Refusal>
    requires header_read { HeaderRead numbers.now h }
    requires at_verdicts_in_bounds { (start_of h at_verdicts ≤ length tables.old) × (length tables.old < 4294967296) }
    ensures { (result ≡ answer_of (check_of numbers.now)) × OnceAccepted result (Loaded numbers.now tables.new) }
{
    graph_entries::tables_crate::lay_out(tables, h);
    let q = parts(numbers, h, tables)?;
    later(
        numbers,
        h,
        graph_entries::tables_crate::section(tables, MODULES),
        graph_entries::tables_crate::section(tables, SYMBOLS),
    )?;
    if q < numbers.len() {
        return Err(Refusal::WrongLength(q));
    }
    Ok(())
}

// The check with tables of N words.
fn check_with<const N: usize>(numbers: &[u32], h: Header) -> Result<(), Refusal>
    requires header_read { HeaderRead numbers.now h }
    requires room { (start_of h at_verdicts ≤ N) × (N < 4294967296) }
    ensures { result ≡ answer_of (check_of numbers.now) }
{
    let mut tables = [0usize; N];
    load(numbers, h, &mut tables)
}

// The check with tables for a larger graph, by its size. `again` is 0 (`frames::apart`).
fn check_larger(numbers: &[u32], h: Header, again: usize) -> Result<(), Refusal>
    requires { HeaderRead numbers.now h }
    ensures { result ≡ answer_of (check_of numbers.now) }
{
    if again > 0 {
        return check_larger(numbers, h, again - 1);
    }
    if graph_entries::tables_crate::fits(h, Size::Middle) {
        return check_with::<MIDDLE_PLACES>(numbers, h);
    }
    if graph_entries::tables_crate::fits(h, Size::Large) {
        return check_with::<LARGE_PLACES>(numbers, h);
    }
    check_with::<LARGEST_PLACES>(numbers, h)
}

// Whether the numbers are a graph, or the first fault.
pub fn check(numbers: &[u32]) -> Result<(), Refusal>
    ensures { result ≡ answer_of (check_of numbers.now) }
{
    header(numbers)?;
    let h = header_of(numbers);
    if graph_entries::tables_crate::fits(h, Size::Small) {
        return check_with::<SMALL_PLACES>(numbers, h);
    }
    check_larger(numbers, h, frames::apart(numbers))
}
