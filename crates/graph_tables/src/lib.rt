// The parts of a graph, each read from the left, and the tables of their places.
#![tactic(auto)]

ghost use Rattle.std.specs.Prelude.{◌≡◌, ℕ, ◌+◌, ◌*◌, ◌<◌, ◌≤◌, List, [], ◌∷◌, length, get_or, drop};
ghost use Rattle.tables.specs.rows_crate.Walk.{walk_of, many, no_item};
ghost use Rattle.tables.specs.graph_format_crate.Format.{modules_at, import_records_of, symbol_at, symbols_at, statement_at, statements_at, following};
ghost use Rattle.graph_tables.specs.Tables.{header_in, modules_in, symbols_in};
ghost use Rattle.graph_tables.specs.Places.{Filled, StatementsFilled, ModuleTable, SymbolTable};
ghost use Rattle.tables.specs.Layout.{start_of, Laid, Kept, module_places, first_statements, statement_places, at_modules, at_symbols, at_first_statements, at_verdicts};

// The crates below, for the crates above, which list this one alone.
pub use tables as tables_crate;
use tables::graph_format_crate::{Header, Left};
use tables::refusal_crate::Refusal;
pub use tables::{graph_format_crate, refusal_crate, rows_crate};
use tables::{FIRST_STATEMENT_OF, MODULES, STATEMENTS, SYMBOLS};

// Number i of the twelve leading numbers of module m.
pub fn module_number(numbers: &[u32], module_at: &[usize], m: usize, i: usize) -> usize
    requires module_table { ModuleTable numbers.now module_at.now }
    requires m_bound { (m < (header_in numbers.now).modules) × (i < 12) }
    ensures { result ≡ get_or (get_or (modules_in numbers.now) m no_item).head i 0 }
{
    let p = module_at[m];
    tables::rows_crate::wide(numbers[p + i])
}

// How many import records module m has.
pub fn import_record_count(numbers: &[u32], module_at: &[usize], m: usize) -> usize
    requires module_table { ModuleTable numbers.now module_at.now }
    requires m_bound { m < (header_in numbers.now).modules }
    ensures { result ≡ length (import_records_of (get_or (modules_in numbers.now) m no_item)) }
{
    let p = module_at[m];
    tables::rows_crate::wide(numbers[p + 12])
}

// Column `column` of import record k of module m: 0 target+1, 1 kind, 2 bits.
pub fn import_record_number(
    numbers: &[u32],
    module_at: &[usize],
    m: usize,
    k: usize,
    column: usize,
) -> usize
    requires module_table { ModuleTable numbers.now module_at.now }
    requires m_bound { (m < (header_in numbers.now).modules) × (k < length (import_records_of (get_or (modules_in numbers.now) m no_item))) × (column < 3) }
    ensures { result ≡ get_or (get_or (import_records_of (get_or (modules_in numbers.now) m no_item)) k []) column 0 }
{
    let p = module_at[m];
    tables::rows_crate::wide(numbers[p + 13 + 3 * k + column])
}

// Reads the modules from `at` on, and fills their section.
pub fn modules(
    numbers: &[u32],
    at: usize,
    h: Header,
    tables: &mut [usize],
) -> Result<usize, Refusal>
    requires laid { Laid h at_verdicts tables.old }
    requires symbols_bound { (h.symbols < 4294967296) × (h.modules < 4294967296) × (h.statements < 4294967296) }
    ensures { (result ≡ walk_of (modules_at h numbers.now at)) × Filled (modules_at h numbers.now at) (start_of h at_modules) tables.new × Kept (start_of h at_modules) tables.old tables.new }
{
    let base = tables[MODULES];
    let mut q = at;
    let mut left = h.statements;
    for k in 0..h.modules {
        let rest = Left {
            statements: left,
            modules: h.modules - k,
        };
        let next = tables::graph_format_crate::module(numbers, q, h, rest)?;
        tables[base + k] = q;
        left = left - tables::rows_crate::wide(numbers[q + 9]);
        q = next;
    }
    Ok(q)
}

// A symbol.
fn symbol(numbers: &[u32], module_at: &[usize], at: usize, h: Header) -> Result<usize, Refusal>
    requires module_table { ModuleTable numbers.now module_at.now }
    requires h_value { (h ≡ header_in numbers.now) × (h.symbols < 4294967296) }
    ensures { result ≡ walk_of (symbol_at h (modules_in numbers.now) numbers.now 0 at) }
{
    let a = tables::graph_format_crate::symbol_head(numbers, at, h)?;
    let owner = tables::rows_crate::wide(numbers[at]);
    let count = module_number(numbers, module_at, owner, 9);
    tables::graph_format_crate::symbol_lists(numbers, a, h, count)
}

// Reads the symbols from `at` on, and fills their section.
pub fn symbols(
    numbers: &[u32],
    at: usize,
    h: Header,
    tables: &mut [usize],
) -> Result<usize, Refusal>
    requires laid { Laid h at_verdicts tables.old × ModuleTable numbers.now (module_places tables.old) }
    requires h_value { (h ≡ header_in numbers.now) × (h.symbols < 4294967296) }
    ensures { (result ≡ walk_of (symbols_at h (modules_in numbers.now) numbers.now at)) × Filled (symbols_at h (modules_in numbers.now) numbers.now at) (start_of h at_symbols) tables.new × Kept (start_of h at_symbols) tables.old tables.new }
{
    let base = tables[SYMBOLS];
    let mut q = at;
    for k in 0..h.symbols {
        let next = symbol(numbers, tables::section(tables, MODULES), q, h)?;
        tables[base + k] = q;
        q = next;
    }
    Ok(q)
}

// Number i of the six leading numbers of symbol s.
pub fn symbol_number(numbers: &[u32], symbol_at: &[usize], s: usize, i: usize) -> usize
    requires symbol_table { SymbolTable numbers.now symbol_at.now }
    requires s_bound { (s < (header_in numbers.now).symbols) × (i < 6) }
    ensures { result ≡ get_or (get_or (symbols_in numbers.now) s no_item).head i 0 }
{
    let p = symbol_at[s];
    tables::rows_crate::wide(numbers[p + i])
}

// Reads the `count` statements of a module of `imports` import records from `at` on, and writes their places from word `first` on.
fn module_statements(
    numbers: &[u32],
    at: usize,
    h: Header,
    count: usize,
    imports: usize,
    first: usize,
    tables: &mut [usize],
) -> Result<usize, Refusal>
    requires { first + count ≤ length tables.old }
    ensures { (result ≡ walk_of (many (statement_at h imports numbers.now) following count 0 at)) × Filled (many (statement_at h imports numbers.now) following count 0 at) first tables.new × Kept first tables.old tables.new }
{
    let mut q = at;
    for k in 0..count {
        let next = tables::graph_format_crate::statement(numbers, q, h, imports)?;
        tables[first + k] = q;
        q = next;
    }
    Ok(q)
}

// Reads the statements of all modules from `at` on, and fills both sections: each module's first statement, and the statements' places.
pub fn statements(
    numbers: &[u32],
    at: usize,
    h: Header,
    tables: &mut [usize],
) -> Result<usize, Refusal>
    requires laid { Laid h at_verdicts tables.old × ModuleTable numbers.now (module_places tables.old) }
    requires h_value { h ≡ header_in numbers.now }
    ensures { (result ≡ walk_of (statements_at h (modules_in numbers.now) numbers.now at)) × StatementsFilled (modules_in numbers.now) (statements_at h (modules_in numbers.now) numbers.now at) (first_statements tables.new) (statement_places tables.new) × Kept (start_of h at_first_statements) tables.old tables.new }
{
    let firsts = tables[FIRST_STATEMENT_OF];
    let places = tables[STATEMENTS];
    let mut q = at;
    let mut first: usize = 0;
    for m in 0..h.modules {
        let count = module_number(numbers, tables::section(tables, MODULES), m, 9);
        let imports = import_record_count(numbers, tables::section(tables, MODULES), m);
        let next = module_statements(numbers, q, h, count, imports, places + first, tables)?;
        tables[firsts + m] = first;
        q = next;
        first += count;
    }
    Ok(q)
}
