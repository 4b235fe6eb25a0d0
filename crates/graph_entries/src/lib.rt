// The entries of a graph and their related statements, and the table of the entries' places.
#![tactic(auto)]

ghost use Rattle.std.specs.Prelude.{◌≡◌, ℕ, ◌+◌, ◌*◌, ◌<◌, ◌≤◌, List, [], ◌∷◌, length, get_or};
ghost use Rattle.graph_tables.specs.rows_crate.Walk.{walk_of, many, list, firsts, no_item};
ghost use Rattle.graph_tables.specs.graph_format_crate.Format.{import_records_of, related_module_at, related_import_record_at, related_at, entry_at, entries_at};
ghost use Rattle.graph_tables.specs.Tables.{header_in, modules_in};
ghost use Rattle.graph_tables.specs.Places.{Filled, ModuleTable};
ghost use Rattle.graph_tables.specs.tables_crate.Layout.{start_of, Laid, Kept, module_places, at_entries, at_verdicts};

// The crates below, for the crates above, which list this one alone.
pub use graph_tables as graph_tables_crate;
use graph_tables::graph_format_crate::Header;
use graph_tables::refusal_crate::Refusal;
use graph_tables::tables_crate::{ENTRIES, MODULES};
pub use graph_tables::{graph_format_crate, refusal_crate, rows_crate, tables_crate};

// The module of a related statement, which is a normal one.
fn related_module(
    numbers: &[u32],
    modules: &[usize],
    at: usize,
    h: Header,
) -> Result<usize, Refusal>
    requires module_table { ModuleTable numbers.now modules.now }
    requires h_value { h ≡ header_in numbers.now }
    ensures { result ≡ walk_of (related_module_at h (modules_in numbers.now) numbers.now at) }
{
    let q = graph_tables::rows_crate::within(numbers, at, 0, h.modules)?;
    let m = graph_tables::rows_crate::wide(numbers[at]);
    let kind = graph_tables::module_number(numbers, modules, m, 0);
    if kind == 1 {
        Ok(q)
    } else {
        Err(Refusal::OutOfRange(at))
    }
}

// An import record of module m, which is a resolved one.
fn related_import_record(
    numbers: &[u32],
    modules: &[usize],
    at: usize,
    m: usize,
) -> Result<usize, Refusal>
    requires module_table { ModuleTable numbers.now modules.now }
    requires m_bound { m < (header_in numbers.now).modules }
    ensures { result ≡ walk_of (related_import_record_at (import_records_of (get_or (modules_in numbers.now) m no_item)) numbers.now at) }
{
    let count = graph_tables::import_record_count(numbers, modules, m);
    let q = graph_tables::rows_crate::within(numbers, at, 0, count)?;
    let k = graph_tables::rows_crate::wide(numbers[at]);
    let target = graph_tables::import_record_number(numbers, modules, m, k, 0);
    if target == 0 {
        Err(Refusal::OutOfRange(at))
    } else {
        Ok(q)
    }
}

// A related statement.
fn related(numbers: &[u32], modules: &[usize], at: usize, h: Header) -> Result<usize, Refusal>
    requires module_table { ModuleTable numbers.now modules.now }
    requires h_value { h ≡ header_in numbers.now }
    ensures { result ≡ walk_of (related_at h (modules_in numbers.now) numbers.now [] at) }
{
    let q = related_module(numbers, modules, at, h)?;
    let m = graph_tables::rows_crate::wide(numbers[at]);
    let count = graph_tables::module_number(numbers, modules, m, 9);
    let s = graph_tables::rows_crate::within(numbers, q, 0, count)?;
    let u = related_import_record(numbers, modules, s, m)?;
    graph_tables::rows_crate::within(numbers, u, 0, 2)
}

// `count` related statements.
fn related_rows(
    numbers: &[u32],
    modules: &[usize],
    at: usize,
    count: usize,
    h: Header,
) -> Result<usize, Refusal>
    requires module_table { ModuleTable numbers.now modules.now }
    requires h_value { h ≡ header_in numbers.now }
    ensures { result ≡ walk_of (many (related_at h (modules_in numbers.now) numbers.now) firsts count [] at) }
{
    let mut q = at;
    for _k in 0..count {
        q = related(numbers, modules, q, h)?;
    }
    Ok(q)
}

// A list of related statements.
fn related_list(numbers: &[u32], modules: &[usize], at: usize, h: Header) -> Result<usize, Refusal>
    requires module_table { ModuleTable numbers.now modules.now }
    requires h_value { h ≡ header_in numbers.now }
    ensures { result ≡ walk_of (list (record { counts = 16385; row = related_at h (modules_in numbers.now) numbers.now }) numbers.now at) }
{
    let q = graph_tables::rows_crate::counter(numbers, at, 16384, 0, 16385)?;
    let count = graph_tables::rows_crate::wide(numbers[at]);
    related_rows(numbers, modules, q, count, h)
}

// An entry.
fn entry(numbers: &[u32], modules: &[usize], at: usize, h: Header) -> Result<usize, Refusal>
    requires module_table { ModuleTable numbers.now modules.now }
    requires h_value { h ≡ header_in numbers.now }
    ensures { result ≡ walk_of (entry_at h (modules_in numbers.now) numbers.now 0 at) }
{
    let q = graph_tables::rows_crate::row(numbers, at, 2, h.modules, 3, 0)?;
    related_list(numbers, modules, q, h)
}

// Reads the entries from `at` on, and fills their section.
pub fn entries(
    numbers: &[u32],
    at: usize,
    h: Header,
    tables: &mut [usize],
) -> Result<usize, Refusal>
    requires laid { Laid h at_verdicts tables.old × ModuleTable numbers.now (module_places tables.old) }
    requires h_value { h ≡ header_in numbers.now }
    ensures { (result ≡ walk_of (entries_at h (modules_in numbers.now) numbers.now at)) × Filled (entries_at h (modules_in numbers.now) numbers.now at) (start_of h at_entries) tables.new × Kept (start_of h at_entries) tables.old tables.new }
{
    let base = tables[ENTRIES];
    let mut q = at;
    for k in 0..h.entries {
        let next = entry(
            numbers,
            graph_tables::tables_crate::section(tables, MODULES),
            q,
            h,
        )?;
        tables[base + k] = q;
        q = next;
    }
    Ok(q)
}
