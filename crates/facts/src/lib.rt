// What can be kept: facts, their numbers and their marks.
#![tactic(auto)]

ghost use Rattle.std.specs.Prelude.{◌≡◌, ℕ, ◌+◌, ◌*◌, ◌<◌, ◌≤◌, length};
ghost use Rattle.graph_access.specs.graph_tables_crate.Tables.{header_in};
ghost use Rattle.graph_access.specs.graph_crate.Check.{graph_in};
ghost use Rattle.graph_access.specs.Words.{flag as flag_of};
ghost use Rattle.facts.specs.Facts.{kind_of, first_part, second_part, fact_of, Good, mark_of, mark_count};
ghost use Rattle.graph_access.specs.graph_crate.Loaded.{Loaded};

// The crates below, for the crates above, which list this one alone.
pub use graph_access as graph_access_crate;
use graph_access::index_crate::{ModuleIdx, StmtIdx, SymbolIdx};
use graph_access::statements;
pub use graph_access::{
    graph_crate, graph_entries_crate, graph_format_crate, graph_tables_crate, index_crate,
    refusal_crate, rows_crate, tables_crate,
};

// Why a symbol is used: Normal 1, EntryExport 2, ReExportDynamicExports 4, JsonDefaultExportSelfReference 8,
// SimulatedFacadeChunk 16, added up.
#[derive(Clone, Copy)]
pub struct Reason {
    pub bits: usize,
}

// A work item of the Rust, or one of the three further kinds that our record names.
#[derive(Clone, Copy)]
pub enum Fact {
    Module(ModuleIdx),
    Statement(ModuleIdx, StmtIdx),
    Use(SymbolIdx, Reason),
    CheckedUse(SymbolIdx, Reason),
    Forward(SymbolIdx),
    Bailout(ModuleIdx),
}

// Bit k of a number.
#[tactic(auto, unfolding(graph_access::specs::Words::flag))]
pub fn flag(x: usize, k: usize) -> bool
    requires { k < 32 }
    ensures { result ≡ flag_of k x }
{
    (x >> k) % 2 == 1
}

// The same number in 32 bits.
pub fn narrow(x: usize) -> u32
    requires { x < 4294967296 }
    ensures { result ≡ x }
{
    x as u32
}

// A fact's kind.
pub fn kind_of(fact: Fact) -> usize
    ensures { result ≡ kind_of fact }
{
    match fact {
        Fact::Module(_) => 1,
        Fact::Statement(_, _) => 2,
        Fact::Use(_, _) => 3,
        Fact::CheckedUse(_, _) => 4,
        Fact::Forward(_) => 5,
        Fact::Bailout(_) => 6,
    }
}

// A fact's first part.
pub fn first_part(fact: Fact) -> usize
    ensures { result ≡ first_part fact }
{
    match fact {
        Fact::Module(m) => m.0,
        Fact::Statement(m, _) => m.0,
        Fact::Use(s, _) => s.0,
        Fact::CheckedUse(s, _) => s.0,
        Fact::Forward(s) => s.0,
        Fact::Bailout(m) => m.0,
    }
}

// A fact's second part.
pub fn second_part(fact: Fact) -> usize
    ensures { result ≡ second_part fact }
{
    match fact {
        Fact::Module(_) => 0,
        Fact::Statement(_, i) => i.0,
        Fact::Use(_, x) => x.bits,
        Fact::CheckedUse(_, x) => x.bits,
        Fact::Forward(_) => 0,
        Fact::Bailout(_) => 0,
    }
}

// The fact of a kind and two parts.
#[tactic(auto, unfolding(crate::specs::Facts::fact_of))]
pub fn fact_of(kind: usize, a: usize, b: usize) -> Fact
    ensures { result ≡ fact_of kind a b }
{
    if kind == 1 {
        return Fact::Module(ModuleIdx(a));
    }
    if kind == 2 {
        return Fact::Statement(ModuleIdx(a), StmtIdx(b));
    }
    if kind == 3 {
        return Fact::Use(SymbolIdx(a), Reason { bits: b });
    }
    if kind == 4 {
        return Fact::CheckedUse(SymbolIdx(a), Reason { bits: b });
    }
    if kind == 5 {
        return Fact::Forward(SymbolIdx(a));
    }
    Fact::Bailout(ModuleIdx(a))
}

// How many marks there are.
#[tactic(auto, using(graph_access::proofs::StatementNumbers::small))]
pub fn mark_count(numbers: &[u32], tables: &[usize]) -> usize
    requires { Loaded numbers.now tables.now }
    ensures { result ≡ mark_count (graph_in numbers.now) }
{
    let h = graph_access::graph_crate::header_of(numbers);
    2 * h.modules + h.statements + 63 * h.symbols
}

// The number of a fact's mark.
#[tactic(auto, using(graph_access::proofs::StatementNumbers::small))]
pub fn mark_of(numbers: &[u32], tables: &[usize], fact: Fact) -> usize
    requires loaded { Loaded numbers.now tables.now }
    requires good { Good (graph_in numbers.now) fact }
    ensures { (result ≡ mark_of (graph_in numbers.now) fact) × (result < mark_count (graph_in numbers.now)) }
{
    let h = graph_access::graph_crate::header_of(numbers);
    match fact {
        Fact::Module(m) => m.0,
        Fact::Bailout(m) => h.modules + m.0,
        Fact::Statement(m, i) => 2 * h.modules + statements::number_of(numbers, tables, m, i),
        Fact::Forward(s) => 2 * h.modules + h.statements + s.0,
        Fact::Use(s, x) => 2 * h.modules + h.statements + h.symbols + (31 * s.0 + x.bits - 1),
        Fact::CheckedUse(s, x) => 2 * h.modules
            + h.statements
            + 32 * h.symbols
            + (31 * s.0 + x.bits - 1),
    }
}
