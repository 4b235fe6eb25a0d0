// Symbols of an accepted graph: their leading numbers and lists by name.
ghost use Rattle.std.specs.Prelude.{◌≡◌, ℕ, ◌+◌, ◌<◌, ◌≤◌, List, [], length, get_or};
ghost use Rattle.graph.specs.graph_tables_crate.Tables.{header_in};
ghost use Rattle.graph.specs.Check.{graph_in};
ghost use Rattle.graph.specs.Loaded.{Loaded};
ghost use Rattle.graph_access.specs.Names.{owner as owner_of, symbol_name, alias_namespace, alias_name, constant_bits, export_chain, declaring_statements, written_property_statements, only};
ghost use Rattle.graph_access.specs.Words.{symbol_of, root_of, statement_list};

use crate::lists;
use graph::tables_crate::SYMBOLS;
use index::{ModuleIdx, StmtIdx, SymbolIdx};

// Bits of a symbol as a constant.
pub const KNOWN: usize = 0;

pub const SAFE: usize = 1;

pub const COMMONJS: usize = 2;

// Number i of the six leading numbers of a symbol.
#[tactic(auto, using(graph::proofs::tables_crate::Sections::inside), unfolding(crate::specs::Words::symbol_of, graph::specs::Check::graph_in))]
fn number(numbers: &[u32], tables: &[usize], s: SymbolIdx, i: usize) -> usize
    requires loaded { Loaded numbers.now tables.now }
    requires s_bound { (s.0 < (header_in numbers.now).symbols) × (i < 6) }
    ensures { result ≡ get_or (symbol_of (graph_in numbers.now) s.0).head i 0 }
{
    graph::graph_tables_crate::symbol_number(
        numbers,
        graph::tables_crate::section(tables, SYMBOLS),
        s.0,
        i,
    )
}

// How many elements list j of a symbol has.
#[tactic(auto, using(graph::proofs::tables_crate::Sections::inside, crate::proofs::Indexes::symbol_list_few), unfolding(crate::specs::Words::symbol_of, graph::specs::Check::graph_in))]
fn list_length(numbers: &[u32], tables: &[usize], s: SymbolIdx, j: usize) -> usize
    requires loaded { Loaded numbers.now tables.now }
    requires s_bound { (s.0 < (header_in numbers.now).symbols) × (j < 3) }
    ensures { (result ≡ length (get_or (symbol_of (graph_in numbers.now) s.0).rows j [])) × (result ≤ 16384) }
{
    lists::symbol_list_length(
        numbers,
        graph::tables_crate::section(tables, SYMBOLS),
        s.0,
        j,
    )
}

// Element k of list j of a symbol.
#[tactic(auto, using(graph::proofs::tables_crate::Sections::inside), unfolding(crate::specs::Words::symbol_of, graph::specs::Check::graph_in))]
fn list_number(numbers: &[u32], tables: &[usize], s: SymbolIdx, j: usize, k: usize) -> usize
    requires loaded { Loaded numbers.now tables.now }
    requires s_bound { (s.0 < (header_in numbers.now).symbols) × (j < 3) × (k < length (get_or (symbol_of (graph_in numbers.now) s.0).rows j [])) }
    ensures { result ≡ get_or (get_or (get_or (symbol_of (graph_in numbers.now) s.0).rows j []) k []) 0 0 }
{
    lists::symbol_list_number(
        numbers,
        graph::tables_crate::section(tables, SYMBOLS),
        s.0,
        j,
        k,
    )
}

// The module that owns it.
#[tactic(auto, using(crate::proofs::Indexes::owner_below), unfolding(crate::specs::Names::owner))]
pub fn owner(numbers: &[u32], tables: &[usize], s: SymbolIdx) -> ModuleIdx
    requires loaded { Loaded numbers.now tables.now }
    requires s_bound { s.0 < (header_in numbers.now).symbols }
    ensures { (result.0 ≡ owner_of (symbol_of (graph_in numbers.now) s.0)) × (result.0 < (header_in numbers.now).modules) }
{
    ModuleIdx(number(numbers, tables, s, 0))
}

// Its name.
#[tactic(auto, unfolding(crate::specs::Names::symbol_name))]
pub fn name(numbers: &[u32], tables: &[usize], s: SymbolIdx) -> usize
    requires loaded { Loaded numbers.now tables.now }
    requires s_bound { s.0 < (header_in numbers.now).symbols }
    ensures { result ≡ symbol_name (symbol_of (graph_in numbers.now) s.0) }
{
    number(numbers, tables, s, 1)
}

// Its canonical symbol: the one place where roots are followed (L9).
#[tactic(auto, using(crate::proofs::Indexes::root_below), unfolding(crate::specs::Words::root_of, crate::specs::Words::symbol_of))]
pub fn root(numbers: &[u32], tables: &[usize], s: SymbolIdx) -> SymbolIdx
    requires loaded { Loaded numbers.now tables.now }
    requires s_bound { s.0 < (header_in numbers.now).symbols }
    ensures { (result.0 ≡ root_of (graph_in numbers.now).symbols s.0) × (result.0 < (header_in numbers.now).symbols) }
{
    SymbolIdx(number(numbers, tables, s, 2))
}

// 1 more than its alias namespace, or 0.
#[tactic(auto, using(crate::proofs::Indexes::alias_below), unfolding(crate::specs::Names::alias_namespace))]
pub fn alias_namespace(numbers: &[u32], tables: &[usize], s: SymbolIdx) -> usize
    requires loaded { Loaded numbers.now tables.now }
    requires s_bound { s.0 < (header_in numbers.now).symbols }
    ensures { (result ≡ alias_namespace (symbol_of (graph_in numbers.now) s.0)) × (result ≤ (header_in numbers.now).symbols) }
{
    number(numbers, tables, s, 3)
}

// Its alias name.
#[tactic(auto, unfolding(crate::specs::Names::alias_name))]
pub fn alias_name(numbers: &[u32], tables: &[usize], s: SymbolIdx) -> usize
    requires loaded { Loaded numbers.now tables.now }
    requires s_bound { s.0 < (header_in numbers.now).symbols }
    ensures { result ≡ alias_name (symbol_of (graph_in numbers.now) s.0) }
{
    number(numbers, tables, s, 4)
}

// Its bits as a constant.
#[tactic(auto, unfolding(crate::specs::Names::constant_bits))]
pub fn constant_bits(numbers: &[u32], tables: &[usize], s: SymbolIdx) -> usize
    requires loaded { Loaded numbers.now tables.now }
    requires s_bound { s.0 < (header_in numbers.now).symbols }
    ensures { result ≡ constant_bits (symbol_of (graph_in numbers.now) s.0) }
{
    number(numbers, tables, s, 5)
}

// How many symbols its export chain has.
#[tactic(auto, unfolding(crate::specs::Names::export_chain))]
pub fn export_chain_count(numbers: &[u32], tables: &[usize], s: SymbolIdx) -> usize
    requires loaded { Loaded numbers.now tables.now }
    requires s_bound { s.0 < (header_in numbers.now).symbols }
    ensures { (result ≡ length (export_chain (symbol_of (graph_in numbers.now) s.0))) × (result ≤ 16384) }
{
    list_length(numbers, tables, s, 0)
}

// Symbol k of its export chain.
#[tactic(auto, using(crate::proofs::Indexes::chain_below), unfolding(crate::specs::Names::export_chain, crate::specs::Names::only))]
pub fn export_chain(numbers: &[u32], tables: &[usize], s: SymbolIdx, k: usize) -> SymbolIdx
    requires loaded { Loaded numbers.now tables.now }
    requires s_bound { (s.0 < (header_in numbers.now).symbols) × (k < length (export_chain (symbol_of (graph_in numbers.now) s.0))) }
    ensures { (result.0 ≡ only (get_or (export_chain (symbol_of (graph_in numbers.now) s.0)) k [])) × (result.0 < (header_in numbers.now).symbols) }
{
    SymbolIdx(list_number(numbers, tables, s, 0, k))
}

// How many statements declare it.
#[tactic(auto, unfolding(crate::specs::Names::declaring_statements))]
pub fn declaring_count(numbers: &[u32], tables: &[usize], s: SymbolIdx) -> usize
    requires loaded { Loaded numbers.now tables.now }
    requires s_bound { s.0 < (header_in numbers.now).symbols }
    ensures { (result ≡ length (declaring_statements (symbol_of (graph_in numbers.now) s.0))) × (result ≤ 16384) }
{
    list_length(numbers, tables, s, 1)
}

// Declaring statement k, one of its owner.
#[tactic(auto, using(crate::proofs::Indexes::declared_below), unfolding(crate::specs::Names::declaring_statements, crate::specs::Names::only))]
pub fn declaring(numbers: &[u32], tables: &[usize], s: SymbolIdx, k: usize) -> StmtIdx
    requires loaded { Loaded numbers.now tables.now }
    requires s_bound { (s.0 < (header_in numbers.now).symbols) × (k < length (declaring_statements (symbol_of (graph_in numbers.now) s.0))) }
    ensures { (result.0 ≡ only (get_or (declaring_statements (symbol_of (graph_in numbers.now) s.0)) k [])) × (result.0 < length (statement_list (graph_in numbers.now) (owner_of (symbol_of (graph_in numbers.now) s.0)))) }
{
    StmtIdx(list_number(numbers, tables, s, 1, k))
}

// How many statements write a property of it.
#[tactic(auto, unfolding(crate::specs::Names::written_property_statements))]
pub fn written_count(numbers: &[u32], tables: &[usize], s: SymbolIdx) -> usize
    requires loaded { Loaded numbers.now tables.now }
    requires s_bound { s.0 < (header_in numbers.now).symbols }
    ensures { (result ≡ length (written_property_statements (symbol_of (graph_in numbers.now) s.0))) × (result ≤ 16384) }
{
    list_length(numbers, tables, s, 2)
}

// Statement k of those that write a property of it, one of its owner.
#[tactic(auto, using(crate::proofs::Indexes::written_below), unfolding(crate::specs::Names::written_property_statements, crate::specs::Names::only))]
pub fn written(numbers: &[u32], tables: &[usize], s: SymbolIdx, k: usize) -> StmtIdx
    requires loaded { Loaded numbers.now tables.now }
    requires s_bound { (s.0 < (header_in numbers.now).symbols) × (k < length (written_property_statements (symbol_of (graph_in numbers.now) s.0))) }
    ensures { (result.0 ≡ only (get_or (written_property_statements (symbol_of (graph_in numbers.now) s.0)) k [])) × (result.0 < length (statement_list (graph_in numbers.now) (owner_of (symbol_of (graph_in numbers.now) s.0)))) }
{
    StmtIdx(list_number(numbers, tables, s, 2, k))
}
