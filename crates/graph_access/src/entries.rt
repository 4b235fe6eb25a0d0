// Entries of an accepted graph and their related statements.
ghost use Rattle.std.specs.Prelude.{◌≡◌, ℕ, ◌+◌, ◌*◌, ◌<◌, ◌≤◌, List, [], length, get_or};
ghost use Rattle.graph.specs.graph_tables_crate.Tables.{header_in};
ghost use Rattle.graph.specs.Check.{graph_in};
ghost use Rattle.graph.specs.Loaded.{Loaded};
ghost use Rattle.graph_access.specs.Names.{entry_module, entry_kind, related};
ghost use Rattle.graph_access.specs.Related.{RelatedIs};
ghost use Rattle.graph_access.specs.Words.{entry_of};

use graph::tables_crate::ENTRIES;
use index::{EntryIdx, ImportRecordIdx, ModuleIdx, StmtIdx};

// A statement that is related to an entry: where it stands, its import record, and 1 if it can't be reached.
#[derive(Clone, Copy)]
pub struct RelatedStmt {
    pub module: ModuleIdx,
    pub statement: StmtIdx,
    pub import_record: ImportRecordIdx,
    pub unreachable: usize,
}

// Number i of the two leading numbers of an entry.
#[tactic(auto, using(crate::proofs::OfEntries::number_inside, crate::proofs::OfEntries::number_same), unfolding(crate::specs::Words::entry_of, graph::specs::Check::graph_in))]
fn number(numbers: &[u32], tables: &[usize], e: EntryIdx, i: usize) -> usize
    requires loaded { Loaded numbers.now tables.now }
    requires e_bound { (e.0 < (header_in numbers.now).entries) × (i < 2) }
    ensures { result ≡ get_or (entry_of (graph_in numbers.now) e.0).head i 0 }
{
    let places = graph::tables_crate::section(tables, ENTRIES);
    let a = e.0;
    let p = places[a];
    graph::rows_crate::wide(numbers[p + i])
}

// Its module.
#[tactic(auto, using(crate::proofs::Indexes::entry_module_below), unfolding(crate::specs::Names::entry_module))]
pub fn entry_module(numbers: &[u32], tables: &[usize], e: EntryIdx) -> ModuleIdx
    requires loaded { Loaded numbers.now tables.now }
    requires e_bound { e.0 < (header_in numbers.now).entries }
    ensures { (result.0 ≡ entry_module (entry_of (graph_in numbers.now) e.0)) × (result.0 < (header_in numbers.now).modules) }
{
    ModuleIdx(number(numbers, tables, e, 0))
}

// Its kind: 0 UserDefined, 1 EmittedUserDefined, 2 DynamicImport.
#[tactic(auto, using(crate::proofs::Indexes::entry_kind_below), unfolding(crate::specs::Names::entry_kind))]
pub fn entry_kind(numbers: &[u32], tables: &[usize], e: EntryIdx) -> usize
    requires loaded { Loaded numbers.now tables.now }
    requires e_bound { e.0 < (header_in numbers.now).entries }
    ensures { (result ≡ entry_kind (entry_of (graph_in numbers.now) e.0)) × (result < 3) }
{
    number(numbers, tables, e, 1)
}

// How many related statements it has.
#[tactic(auto, using(crate::proofs::OfEntries::count_inside, crate::proofs::OfEntries::count_same), unfolding(crate::specs::Names::related, crate::specs::Words::entry_of, graph::specs::Check::graph_in))]
pub fn related_count(numbers: &[u32], tables: &[usize], e: EntryIdx) -> usize
    requires loaded { Loaded numbers.now tables.now }
    requires e_bound { e.0 < (header_in numbers.now).entries }
    ensures { result ≡ length (related (entry_of (graph_in numbers.now) e.0)) }
{
    let places = graph::tables_crate::section(tables, ENTRIES);
    let a = e.0;
    let p = places[a];
    graph::rows_crate::wide(numbers[p + 2])
}

// Number `column` of related statement k: module, statement, import record, unreachable.
pub fn related_number(
    numbers: &[u32],
    tables: &[usize],
    e: EntryIdx,
    k: usize,
    column: usize,
) -> usize
    requires loaded { Loaded numbers.now tables.now }
    requires e_bound { (e.0 < (header_in numbers.now).entries) × (k < length (related (entry_of (graph_in numbers.now) e.0))) × (column < 4) }
    ensures { result ≡ get_or (get_or (related (entry_of (graph_in numbers.now) e.0)) k []) column 0 }
{
    let places = graph::tables_crate::section(tables, ENTRIES);
    let a = e.0;
    let p = places[a];
    graph::rows_crate::wide(numbers[p + 3 + 4 * k + column])
}

// Related statement k.
#[tactic(auto, using(crate::proofs::Indexes::related_here), unfolding(crate::specs::Names::related_module, crate::specs::Names::related_statement, crate::specs::Names::related_import_record, crate::specs::Names::unreachable))]
pub fn related_statement(numbers: &[u32], tables: &[usize], e: EntryIdx, k: usize) -> RelatedStmt
    requires loaded { Loaded numbers.now tables.now }
    requires e_bound { (e.0 < (header_in numbers.now).entries) × (k < length (related (entry_of (graph_in numbers.now) e.0))) }
    ensures { RelatedIs (graph_in numbers.now) (get_or (related (entry_of (graph_in numbers.now) e.0)) k []) result }
{
    let module = ModuleIdx(related_number(numbers, tables, e, k, 0));
    let statement = StmtIdx(related_number(numbers, tables, e, k, 1));
    let import_record = ImportRecordIdx(related_number(numbers, tables, e, k, 2));
    RelatedStmt {
        module,
        statement,
        import_record,
        unreachable: related_number(numbers, tables, e, k, 3),
    }
}
