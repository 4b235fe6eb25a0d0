// Statements of an accepted graph, their import records and their references.
ghost use Rattle.std.specs.Prelude.{◌≡◌, ℕ, ◌+◌, ◌<◌, ◌≤◌, List, [], length, get_or};
ghost use Rattle.graph.specs.graph_tables_crate.Tables.{header_in, first_of};
ghost use Rattle.graph.specs.Check.{graph_in};
ghost use Rattle.graph.specs.Loaded.{Loaded};
ghost use Rattle.graph_access.specs.Names.{import_records, statement_bits, statement_import_records, references, only};
ghost use Rattle.graph_access.specs.Words.{module_of, statement_list, statement_of};
ghost use Rattle.graph_access.specs.References.{reference_width, ReferencesAt};

use graph::tables_crate::{FIRST_STATEMENT_OF, STATEMENTS};
use index::{ImportRecordIdx, ModuleIdx, StmtIdx};

// Bits of a statement.
pub const SIDE_EFFECT: usize = 0;

pub const UNKNOWN_SIDE_EFFECT: usize = 1;

pub const FORCE: usize = 2;

pub const REEXPORT_DYNAMIC_EXPORTS: usize = 3;

pub const DECLARES: usize = 4;

// The place of a statement.
fn place(numbers: &[u32], tables: &[usize], m: ModuleIdx, i: StmtIdx) -> usize
    requires loaded { Loaded numbers.now tables.now }
    requires m_bound { (m.0 < (header_in numbers.now).modules) × (i.0 < length (statement_list (graph_in numbers.now) m.0)) }
    ensures { result ≡ (statement_of (graph_in numbers.now) m.0 i.0).place }
{
    let firsts = graph::tables_crate::section(tables, FIRST_STATEMENT_OF);
    let places = graph::tables_crate::section(tables, STATEMENTS);
    let a = m.0;
    let first = firsts[a];
    places[first + i.0]
}

// The number of a statement among those of all modules.
pub fn number_of(numbers: &[u32], tables: &[usize], m: ModuleIdx, i: StmtIdx) -> usize
    requires loaded { Loaded numbers.now tables.now }
    requires m_bound { (m.0 < (header_in numbers.now).modules) × (i.0 < length (statement_list (graph_in numbers.now) m.0)) }
    ensures { result ≡ first_of (graph_in numbers.now).modules m.0 + i.0 }
{
    let firsts = graph::tables_crate::section(tables, FIRST_STATEMENT_OF);
    let a = m.0;
    firsts[a] + i.0
}

// Its bits.
#[tactic(auto, using(crate::proofs::StatementParts::bits_there, crate::proofs::StatementParts::bits_are))]
pub fn bits(numbers: &[u32], tables: &[usize], m: ModuleIdx, i: StmtIdx) -> usize
    requires loaded { Loaded numbers.now tables.now }
    requires m_bound { (m.0 < (header_in numbers.now).modules) × (i.0 < length (statement_list (graph_in numbers.now) m.0)) }
    ensures { result ≡ statement_bits (statement_of (graph_in numbers.now) m.0 i.0) }
{
    let p = place(numbers, tables, m, i);
    graph::rows_crate::wide(numbers[p])
}

// How many import records it has.
pub fn import_record_count(numbers: &[u32], tables: &[usize], m: ModuleIdx, i: StmtIdx) -> usize
    requires loaded { Loaded numbers.now tables.now }
    requires m_bound { (m.0 < (header_in numbers.now).modules) × (i.0 < length (statement_list (graph_in numbers.now) m.0)) }
    ensures { (result ≡ length (statement_import_records (statement_of (graph_in numbers.now) m.0 i.0))) × (result ≤ 16384) }
{
    let p = place(numbers, tables, m, i);
    graph::rows_crate::wide(numbers[p + 1])
}

// Import record k of it, as one of its module.
pub fn import_record(
    numbers: &[u32],
    tables: &[usize],
    m: ModuleIdx,
    i: StmtIdx,
    k: usize,
) -> ImportRecordIdx
    requires loaded { Loaded numbers.now tables.now }
    requires m_bound { (m.0 < (header_in numbers.now).modules) × (i.0 < length (statement_list (graph_in numbers.now) m.0)) × (k < length (statement_import_records (statement_of (graph_in numbers.now) m.0 i.0))) }
    ensures { (result.0 ≡ only (get_or (statement_import_records (statement_of (graph_in numbers.now) m.0 i.0)) k [])) × (result.0 < length (import_records (module_of (graph_in numbers.now) m.0))) }
{
    let p = place(numbers, tables, m, i);
    ImportRecordIdx(graph::rows_crate::wide(numbers[p + 2 + k]))
}

// How many references it has.
pub fn reference_count(numbers: &[u32], tables: &[usize], m: ModuleIdx, i: StmtIdx) -> usize
    requires loaded { Loaded numbers.now tables.now }
    requires m_bound { (m.0 < (header_in numbers.now).modules) × (i.0 < length (statement_list (graph_in numbers.now) m.0)) }
    ensures { (result ≡ length (references (statement_of (graph_in numbers.now) m.0 i.0))) × (result ≤ 16384) }
{
    let p = place(numbers, tables, m, i);
    let imports = graph::rows_crate::wide(numbers[p + 1]);
    graph::rows_crate::wide(numbers[p + 2 + imports])
}

// The place of its first reference; each further one is a reference's width behind the one before it.
pub fn first_reference(numbers: &[u32], tables: &[usize], m: ModuleIdx, i: StmtIdx) -> usize
    requires loaded { Loaded numbers.now tables.now }
    requires m_bound { (m.0 < (header_in numbers.now).modules) × (i.0 < length (statement_list (graph_in numbers.now) m.0)) }
    ensures { ReferencesAt numbers.now result (references (statement_of (graph_in numbers.now) m.0 i.0)) }
{
    let p = place(numbers, tables, m, i);
    let imports = graph::rows_crate::wide(numbers[p + 1]);
    p + 3 + imports
}

// How many numbers the reference at p has.
#[tactic(auto, using(crate::proofs::ReadReferences::width_0, crate::proofs::ReadReferences::width_1, crate::proofs::ReadReferences::width_2, crate::proofs::ReadReferences::width_other, crate::proofs::ReadReferences::kind_inside, crate::proofs::ReadReferences::count_inside))]
pub fn reference_width(numbers: &[u32], p: usize) -> usize
    requires { p + reference_width numbers.now p ≤ length numbers.now }
    ensures { result ≡ reference_width numbers.now p }
{
    let kind = numbers[p];
    if kind == 0 {
        return 2;
    }
    if kind == 1 {
        return 1;
    }
    if kind == 2 {
        return 4 + graph::rows_crate::wide(numbers[p + 3]);
    }
    5
}
