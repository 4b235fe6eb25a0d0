// Modules of an accepted graph: their leading numbers and lists by name.
ghost use Rattle.std.specs.Prelude.{◌≡◌, ℕ, ◌+◌, ◌<◌, ◌≤◌, List, [], length, get_or};
ghost use Rattle.graph.specs.graph_tables_crate.Tables.{header_in};
ghost use Rattle.graph.specs.Check.{graph_in};
ghost use Rattle.graph.specs.Loaded.{Loaded};
ghost use Rattle.graph_access.specs.Lists.{module_widths};
ghost use Rattle.graph_access.specs.Names.{effects as effects_of, exports as exports_of, module_type as module_type_of, flags as flags_of, wrap as wrap_of, wrapper as wrapper_of, namespace as namespace_of, reexport_count as reexport_count_of, scan_effects as scan_effects_of, scan_statement_count as scan_statement_count_of, import_records, dependencies, named_imports, own_exports, entry_references, common_js_export_symbols, resolved_exports, common_js_namespaces, enum_members, module_helpers, only, import_record_target, import_record_kind, import_record_bits, export_name, export_symbol, export_from_common_js, namespace_symbol, namespace_module, enum_name, enum_member, helper_number, helper_statement as helper_statement_of};
ghost use Rattle.graph_access.specs.Words.{module_of, statement_list, normal};

use crate::lists;
use graph::tables_crate::MODULES;
use index::{ImportRecordIdx, ModuleIdx, StmtIdx, SymbolIdx};

// Bits of a module's flags.
pub const EVAL: usize = 0;

pub const SAFELY_TREESHAKE_COMMONJS: usize = 1;

pub const IS_CJS_REEXPORT: usize = 2;

pub const DYNAMIC_EXPORTS: usize = 3;

pub const DYNAMIC_IMPORTS_USE_NO_EXPORT: usize = 4;

pub const RELAXED: usize = 5;

// Bits of an import record.
pub const IS_EXPORT_STAR: usize = 0;

pub const TOP_LEVEL_PURE_DYNAMIC_IMPORT: usize = 1;

// Number i of the twelve leading numbers of a module.
#[tactic(auto, using(graph::proofs::tables_crate::Sections::inside), unfolding(crate::specs::Words::module_of, graph::specs::Check::graph_in))]
fn number(numbers: &[u32], tables: &[usize], m: ModuleIdx, i: usize) -> usize
    requires loaded { Loaded numbers.now tables.now }
    requires m_bound { (m.0 < (header_in numbers.now).modules) × (i < 12) }
    ensures { result ≡ get_or (module_of (graph_in numbers.now) m.0).head i 0 }
{
    graph::graph_tables_crate::module_number(
        numbers,
        graph::tables_crate::section(tables, MODULES),
        m.0,
        i,
    )
}

// How many rows list j of a module has.
#[tactic(auto, using(graph::proofs::tables_crate::Sections::inside, crate::proofs::Indexes::module_list_few), unfolding(crate::specs::Words::module_of, graph::specs::Check::graph_in))]
fn list_length(numbers: &[u32], tables: &[usize], m: ModuleIdx, j: usize) -> usize
    requires loaded { Loaded numbers.now tables.now }
    requires m_bound { (m.0 < (header_in numbers.now).modules) × (j < 10) }
    ensures { (result ≡ length (get_or (module_of (graph_in numbers.now) m.0).rows j [])) × (result ≤ 16384) }
{
    lists::module_list_length(
        numbers,
        graph::tables_crate::section(tables, MODULES),
        m.0,
        j,
    )
}

// Number `column` of row k of list j of a module.
#[tactic(auto, using(graph::proofs::tables_crate::Sections::inside), unfolding(crate::specs::Words::module_of, graph::specs::Check::graph_in))]
fn list_number(
    numbers: &[u32],
    tables: &[usize],
    m: ModuleIdx,
    j: usize,
    k: usize,
    column: usize,
) -> usize
    requires loaded { Loaded numbers.now tables.now }
    requires m_bound { (m.0 < (header_in numbers.now).modules) × (j < 10) × (k < length (get_or (module_of (graph_in numbers.now) m.0).rows j [])) × (column < get_or module_widths j 0) }
    ensures { result ≡ get_or (get_or (get_or (module_of (graph_in numbers.now) m.0).rows j []) k []) column 0 }
{
    lists::module_list_number(
        numbers,
        graph::tables_crate::section(tables, MODULES),
        m.0,
        j,
        k,
        column,
    )
}

// Whether a module is a normal one.
#[tactic(auto, unfolding(crate::specs::Words::normal, crate::specs::Names::kind))]
pub fn is_normal(numbers: &[u32], tables: &[usize], m: ModuleIdx) -> bool
    requires loaded { Loaded numbers.now tables.now }
    requires m_bound { m.0 < (header_in numbers.now).modules }
    ensures { result ≡ normal (graph_in numbers.now) m.0 }
{
    number(numbers, tables, m, 0) == 1
}

// Its verdict on side effects, as the graph gives it.
#[tactic(auto, using(crate::proofs::Indexes::effects_below), unfolding(crate::specs::Names::effects))]
pub fn effects(numbers: &[u32], tables: &[usize], m: ModuleIdx) -> usize
    requires loaded { Loaded numbers.now tables.now }
    requires m_bound { m.0 < (header_in numbers.now).modules }
    ensures { (result ≡ effects_of (module_of (graph_in numbers.now) m.0)) × (result < 5) }
{
    number(numbers, tables, m, 1)
}

// Its kind of exports: 0 Esm, 1 CommonJs, 2 other.
#[tactic(auto, unfolding(crate::specs::Names::exports))]
pub fn exports(numbers: &[u32], tables: &[usize], m: ModuleIdx) -> usize
    requires loaded { Loaded numbers.now tables.now }
    requires m_bound { m.0 < (header_in numbers.now).modules }
    ensures { result ≡ exports_of (module_of (graph_in numbers.now) m.0) }
{
    number(numbers, tables, m, 2)
}

// Its type: 0 Js, 1 Jsx, 2 Json, 3 other.
#[tactic(auto, unfolding(crate::specs::Names::module_type))]
pub fn module_type(numbers: &[u32], tables: &[usize], m: ModuleIdx) -> usize
    requires loaded { Loaded numbers.now tables.now }
    requires m_bound { m.0 < (header_in numbers.now).modules }
    ensures { result ≡ module_type_of (module_of (graph_in numbers.now) m.0) }
{
    number(numbers, tables, m, 3)
}

// Its flags.
#[tactic(auto, unfolding(crate::specs::Names::flags))]
pub fn flags(numbers: &[u32], tables: &[usize], m: ModuleIdx) -> usize
    requires loaded { Loaded numbers.now tables.now }
    requires m_bound { m.0 < (header_in numbers.now).modules }
    ensures { result ≡ flags_of (module_of (graph_in numbers.now) m.0) }
{
    number(numbers, tables, m, 4)
}

// How it is wrapped: 0 not, 1 Cjs, 2 Esm.
#[tactic(auto, unfolding(crate::specs::Names::wrap))]
pub fn wrap(numbers: &[u32], tables: &[usize], m: ModuleIdx) -> usize
    requires loaded { Loaded numbers.now tables.now }
    requires m_bound { m.0 < (header_in numbers.now).modules }
    ensures { result ≡ wrap_of (module_of (graph_in numbers.now) m.0) }
{
    number(numbers, tables, m, 5)
}

// 1 more than its wrapper, or 0.
#[tactic(auto, using(crate::proofs::Indexes::wrapper_below), unfolding(crate::specs::Names::wrapper))]
pub fn wrapper(numbers: &[u32], tables: &[usize], m: ModuleIdx) -> usize
    requires loaded { Loaded numbers.now tables.now }
    requires m_bound { m.0 < (header_in numbers.now).modules }
    ensures { (result ≡ wrapper_of (module_of (graph_in numbers.now) m.0)) × (result ≤ (header_in numbers.now).symbols) }
{
    number(numbers, tables, m, 6)
}

// 1 more than its namespace, or 0.
#[tactic(auto, using(crate::proofs::Indexes::namespace_below), unfolding(crate::specs::Names::namespace))]
pub fn namespace(numbers: &[u32], tables: &[usize], m: ModuleIdx) -> usize
    requires loaded { Loaded numbers.now tables.now }
    requires m_bound { m.0 < (header_in numbers.now).modules }
    ensures { (result ≡ namespace_of (module_of (graph_in numbers.now) m.0)) × (result ≤ (header_in numbers.now).symbols) }
{
    number(numbers, tables, m, 7)
}

// How many CommonJS modules it re-exports.
#[tactic(auto, unfolding(crate::specs::Names::reexport_count))]
pub fn reexport_count(numbers: &[u32], tables: &[usize], m: ModuleIdx) -> usize
    requires loaded { Loaded numbers.now tables.now }
    requires m_bound { m.0 < (header_in numbers.now).modules }
    ensures { result ≡ reexport_count_of (module_of (graph_in numbers.now) m.0) }
{
    number(numbers, tables, m, 8)
}

// How many statements it has.
pub fn statement_count(numbers: &[u32], tables: &[usize], m: ModuleIdx) -> usize
    requires loaded { Loaded numbers.now tables.now }
    requires m_bound { m.0 < (header_in numbers.now).modules }
    ensures { (result ≡ length (statement_list (graph_in numbers.now) m.0)) × (result ≤ 16384) }
{
    number(numbers, tables, m, 9)
}

// Its verdict at scan time.
#[tactic(auto, using(crate::proofs::Indexes::scan_effects_below), unfolding(crate::specs::Names::scan_effects))]
pub fn scan_effects(numbers: &[u32], tables: &[usize], m: ModuleIdx) -> usize
    requires loaded { Loaded numbers.now tables.now }
    requires m_bound { m.0 < (header_in numbers.now).modules }
    ensures { (result ≡ scan_effects_of (module_of (graph_in numbers.now) m.0)) × (result < 5) }
{
    number(numbers, tables, m, 10)
}

// How many statements it had at scan time.
#[tactic(auto, unfolding(crate::specs::Names::scan_statement_count))]
pub fn scan_statement_count(numbers: &[u32], tables: &[usize], m: ModuleIdx) -> usize
    requires loaded { Loaded numbers.now tables.now }
    requires m_bound { m.0 < (header_in numbers.now).modules }
    ensures { result ≡ scan_statement_count_of (module_of (graph_in numbers.now) m.0) }
{
    number(numbers, tables, m, 11)
}

// How many import records it has.
#[tactic(auto, unfolding(crate::specs::Names::import_records))]
pub fn import_record_count(numbers: &[u32], tables: &[usize], m: ModuleIdx) -> usize
    requires loaded { Loaded numbers.now tables.now }
    requires m_bound { m.0 < (header_in numbers.now).modules }
    ensures { (result ≡ length (import_records (module_of (graph_in numbers.now) m.0))) × (result ≤ 16384) }
{
    list_length(numbers, tables, m, 0)
}

// 1 more than the module that an import record is resolved to, or 0.
#[tactic(auto, using(crate::proofs::Indexes::record_target_below), unfolding(crate::specs::Names::import_records, crate::specs::Lists::module_widths, crate::specs::Names::import_record_target))]
pub fn import_record_target(
    numbers: &[u32],
    tables: &[usize],
    m: ModuleIdx,
    k: ImportRecordIdx,
) -> usize
    requires loaded { Loaded numbers.now tables.now }
    requires m_bound { (m.0 < (header_in numbers.now).modules) × (k.0 < length (import_records (module_of (graph_in numbers.now) m.0))) }
    ensures { (result ≡ import_record_target (get_or (import_records (module_of (graph_in numbers.now) m.0)) k.0 [])) × (result ≤ (header_in numbers.now).modules) }
{
    list_number(numbers, tables, m, 0, k.0, 0)
}

// The kind of an import record: 0 Import, 1 require, 2 DynamicImport.
#[tactic(auto, unfolding(crate::specs::Names::import_records, crate::specs::Lists::module_widths, crate::specs::Names::import_record_kind))]
pub fn import_record_kind(
    numbers: &[u32],
    tables: &[usize],
    m: ModuleIdx,
    k: ImportRecordIdx,
) -> usize
    requires loaded { Loaded numbers.now tables.now }
    requires m_bound { (m.0 < (header_in numbers.now).modules) × (k.0 < length (import_records (module_of (graph_in numbers.now) m.0))) }
    ensures { result ≡ import_record_kind (get_or (import_records (module_of (graph_in numbers.now) m.0)) k.0 []) }
{
    list_number(numbers, tables, m, 0, k.0, 1)
}

// The bits of an import record.
#[tactic(auto, unfolding(crate::specs::Names::import_records, crate::specs::Lists::module_widths, crate::specs::Names::import_record_bits))]
pub fn import_record_bits(
    numbers: &[u32],
    tables: &[usize],
    m: ModuleIdx,
    k: ImportRecordIdx,
) -> usize
    requires loaded { Loaded numbers.now tables.now }
    requires m_bound { (m.0 < (header_in numbers.now).modules) × (k.0 < length (import_records (module_of (graph_in numbers.now) m.0))) }
    ensures { result ≡ import_record_bits (get_or (import_records (module_of (graph_in numbers.now) m.0)) k.0 []) }
{
    list_number(numbers, tables, m, 0, k.0, 2)
}

// How many dependencies it has.
#[tactic(auto, unfolding(crate::specs::Names::dependencies))]
pub fn dependency_count(numbers: &[u32], tables: &[usize], m: ModuleIdx) -> usize
    requires loaded { Loaded numbers.now tables.now }
    requires m_bound { m.0 < (header_in numbers.now).modules }
    ensures { (result ≡ length (dependencies (module_of (graph_in numbers.now) m.0))) × (result ≤ 16384) }
{
    list_length(numbers, tables, m, 1)
}

// Dependency k.
#[tactic(auto, using(crate::proofs::Indexes::dependency_below), unfolding(crate::specs::Names::dependencies, crate::specs::Lists::module_widths, crate::specs::Names::only))]
pub fn dependency(numbers: &[u32], tables: &[usize], m: ModuleIdx, k: usize) -> ModuleIdx
    requires loaded { Loaded numbers.now tables.now }
    requires m_bound { (m.0 < (header_in numbers.now).modules) × (k < length (dependencies (module_of (graph_in numbers.now) m.0))) }
    ensures { (result.0 ≡ only (get_or (dependencies (module_of (graph_in numbers.now) m.0)) k [])) × (result.0 < (header_in numbers.now).modules) }
{
    ModuleIdx(list_number(numbers, tables, m, 1, k, 0))
}

// How many named imports it has.
#[tactic(auto, unfolding(crate::specs::Names::named_imports))]
pub fn named_import_count(numbers: &[u32], tables: &[usize], m: ModuleIdx) -> usize
    requires loaded { Loaded numbers.now tables.now }
    requires m_bound { m.0 < (header_in numbers.now).modules }
    ensures { (result ≡ length (named_imports (module_of (graph_in numbers.now) m.0))) × (result ≤ 16384) }
{
    list_length(numbers, tables, m, 2)
}

// Named import k.
#[tactic(auto, using(crate::proofs::Indexes::named_import_below), unfolding(crate::specs::Names::named_imports, crate::specs::Lists::module_widths, crate::specs::Names::only))]
pub fn named_import(numbers: &[u32], tables: &[usize], m: ModuleIdx, k: usize) -> SymbolIdx
    requires loaded { Loaded numbers.now tables.now }
    requires m_bound { (m.0 < (header_in numbers.now).modules) × (k < length (named_imports (module_of (graph_in numbers.now) m.0))) }
    ensures { (result.0 ≡ only (get_or (named_imports (module_of (graph_in numbers.now) m.0)) k [])) × (result.0 < (header_in numbers.now).symbols) }
{
    SymbolIdx(list_number(numbers, tables, m, 2, k, 0))
}

// How many exports of its own it has.
#[tactic(auto, unfolding(crate::specs::Names::own_exports))]
pub fn own_export_count(numbers: &[u32], tables: &[usize], m: ModuleIdx) -> usize
    requires loaded { Loaded numbers.now tables.now }
    requires m_bound { m.0 < (header_in numbers.now).modules }
    ensures { (result ≡ length (own_exports (module_of (graph_in numbers.now) m.0))) × (result ≤ 16384) }
{
    list_length(numbers, tables, m, 3)
}

// Own export k.
#[tactic(auto, using(crate::proofs::Indexes::own_export_below), unfolding(crate::specs::Names::own_exports, crate::specs::Lists::module_widths, crate::specs::Names::only))]
pub fn own_export(numbers: &[u32], tables: &[usize], m: ModuleIdx, k: usize) -> SymbolIdx
    requires loaded { Loaded numbers.now tables.now }
    requires m_bound { (m.0 < (header_in numbers.now).modules) × (k < length (own_exports (module_of (graph_in numbers.now) m.0))) }
    ensures { (result.0 ≡ only (get_or (own_exports (module_of (graph_in numbers.now) m.0)) k [])) × (result.0 < (header_in numbers.now).symbols) }
{
    SymbolIdx(list_number(numbers, tables, m, 3, k, 0))
}

// How many CommonJS export symbols (K5) it has.
#[tactic(auto, unfolding(crate::specs::Names::common_js_export_symbols))]
pub fn export_symbol_count(numbers: &[u32], tables: &[usize], m: ModuleIdx) -> usize
    requires loaded { Loaded numbers.now tables.now }
    requires m_bound { m.0 < (header_in numbers.now).modules }
    ensures { (result ≡ length (common_js_export_symbols (module_of (graph_in numbers.now) m.0))) × (result ≤ 16384) }
{
    list_length(numbers, tables, m, 5)
}

// CommonJS export symbol k.
#[tactic(auto, using(crate::proofs::Indexes::export_symbol_below), unfolding(crate::specs::Names::common_js_export_symbols, crate::specs::Lists::module_widths, crate::specs::Names::only))]
pub fn export_symbol(numbers: &[u32], tables: &[usize], m: ModuleIdx, k: usize) -> SymbolIdx
    requires loaded { Loaded numbers.now tables.now }
    requires m_bound { (m.0 < (header_in numbers.now).modules) × (k < length (common_js_export_symbols (module_of (graph_in numbers.now) m.0))) }
    ensures { (result.0 ≡ only (get_or (common_js_export_symbols (module_of (graph_in numbers.now) m.0)) k [])) × (result.0 < (header_in numbers.now).symbols) }
{
    SymbolIdx(list_number(numbers, tables, m, 5, k, 0))
}

// How many resolved exports it has.
#[tactic(auto, unfolding(crate::specs::Names::resolved_exports))]
pub fn resolved_export_count(numbers: &[u32], tables: &[usize], m: ModuleIdx) -> usize
    requires loaded { Loaded numbers.now tables.now }
    requires m_bound { m.0 < (header_in numbers.now).modules }
    ensures { (result ≡ length (resolved_exports (module_of (graph_in numbers.now) m.0))) × (result ≤ 16384) }
{
    list_length(numbers, tables, m, 6)
}

// The name of resolved export k.
#[tactic(auto, unfolding(crate::specs::Names::resolved_exports, crate::specs::Lists::module_widths, crate::specs::Names::export_name))]
pub fn resolved_export_name(numbers: &[u32], tables: &[usize], m: ModuleIdx, k: usize) -> usize
    requires loaded { Loaded numbers.now tables.now }
    requires m_bound { (m.0 < (header_in numbers.now).modules) × (k < length (resolved_exports (module_of (graph_in numbers.now) m.0))) }
    ensures { result ≡ export_name (get_or (resolved_exports (module_of (graph_in numbers.now) m.0)) k []) }
{
    list_number(numbers, tables, m, 6, k, 0)
}

// The symbol of resolved export k.
#[tactic(auto, using(crate::proofs::Indexes::resolved_export_below), unfolding(crate::specs::Names::resolved_exports, crate::specs::Lists::module_widths, crate::specs::Names::export_symbol))]
pub fn resolved_export_symbol(
    numbers: &[u32],
    tables: &[usize],
    m: ModuleIdx,
    k: usize,
) -> SymbolIdx
    requires loaded { Loaded numbers.now tables.now }
    requires m_bound { (m.0 < (header_in numbers.now).modules) × (k < length (resolved_exports (module_of (graph_in numbers.now) m.0))) }
    ensures { (result.0 ≡ export_symbol (get_or (resolved_exports (module_of (graph_in numbers.now) m.0)) k [])) × (result.0 < (header_in numbers.now).symbols) }
{
    SymbolIdx(list_number(numbers, tables, m, 6, k, 1))
}

// How many CommonJS namespaces it lists.
#[tactic(auto, unfolding(crate::specs::Names::common_js_namespaces))]
pub fn commonjs_namespace_count(numbers: &[u32], tables: &[usize], m: ModuleIdx) -> usize
    requires loaded { Loaded numbers.now tables.now }
    requires m_bound { m.0 < (header_in numbers.now).modules }
    ensures { (result ≡ length (common_js_namespaces (module_of (graph_in numbers.now) m.0))) × (result ≤ 16384) }
{
    list_length(numbers, tables, m, 7)
}

// The symbol of CommonJS namespace k.
#[tactic(auto, using(crate::proofs::Indexes::namespace_row_below), unfolding(crate::specs::Names::common_js_namespaces, crate::specs::Lists::module_widths, crate::specs::Names::namespace_symbol))]
pub fn commonjs_namespace_symbol(
    numbers: &[u32],
    tables: &[usize],
    m: ModuleIdx,
    k: usize,
) -> SymbolIdx
    requires loaded { Loaded numbers.now tables.now }
    requires m_bound { (m.0 < (header_in numbers.now).modules) × (k < length (common_js_namespaces (module_of (graph_in numbers.now) m.0))) }
    ensures { (result.0 ≡ namespace_symbol (get_or (common_js_namespaces (module_of (graph_in numbers.now) m.0)) k [])) × (result.0 < (header_in numbers.now).symbols) }
{
    SymbolIdx(list_number(numbers, tables, m, 7, k, 0))
}

// The module of CommonJS namespace k.
pub fn commonjs_namespace_module(
    numbers: &[u32],
    tables: &[usize],
    m: ModuleIdx,
    k: usize,
) -> ModuleIdx
    requires loaded { Loaded numbers.now tables.now }
    requires m_bound { (m.0 < (header_in numbers.now).modules) × (k < length (common_js_namespaces (module_of (graph_in numbers.now) m.0))) }
    ensures { (result.0 ≡ namespace_module (get_or (common_js_namespaces (module_of (graph_in numbers.now) m.0)) k [])) × (result.0 < (header_in numbers.now).modules) }
{
    ModuleIdx(list_number(numbers, tables, m, 7, k, 1))
}

// How many enum members it lists.
#[tactic(auto, unfolding(crate::specs::Names::enum_members))]
pub fn enum_member_count(numbers: &[u32], tables: &[usize], m: ModuleIdx) -> usize
    requires loaded { Loaded numbers.now tables.now }
    requires m_bound { m.0 < (header_in numbers.now).modules }
    ensures { (result ≡ length (enum_members (module_of (graph_in numbers.now) m.0))) × (result ≤ 16384) }
{
    list_length(numbers, tables, m, 8)
}

// The symbol name of enum member k.
#[tactic(auto, unfolding(crate::specs::Names::enum_members, crate::specs::Lists::module_widths, crate::specs::Names::enum_name))]
pub fn enum_name(numbers: &[u32], tables: &[usize], m: ModuleIdx, k: usize) -> usize
    requires loaded { Loaded numbers.now tables.now }
    requires m_bound { (m.0 < (header_in numbers.now).modules) × (k < length (enum_members (module_of (graph_in numbers.now) m.0))) }
    ensures { result ≡ enum_name (get_or (enum_members (module_of (graph_in numbers.now) m.0)) k []) }
{
    list_number(numbers, tables, m, 8, k, 0)
}

// The member of enum member k.
#[tactic(auto, unfolding(crate::specs::Names::enum_members, crate::specs::Lists::module_widths, crate::specs::Names::enum_member))]
pub fn enum_member(numbers: &[u32], tables: &[usize], m: ModuleIdx, k: usize) -> usize
    requires loaded { Loaded numbers.now tables.now }
    requires m_bound { (m.0 < (header_in numbers.now).modules) × (k < length (enum_members (module_of (graph_in numbers.now) m.0))) }
    ensures { result ≡ enum_member (get_or (enum_members (module_of (graph_in numbers.now) m.0)) k []) }
{
    list_number(numbers, tables, m, 8, k, 1)
}

// How many entry references it has.
#[tactic(auto, unfolding(crate::specs::Names::entry_references))]
pub fn entry_reference_count(numbers: &[u32], tables: &[usize], m: ModuleIdx) -> usize
    requires loaded { Loaded numbers.now tables.now }
    requires m_bound { m.0 < (header_in numbers.now).modules }
    ensures { (result ≡ length (entry_references (module_of (graph_in numbers.now) m.0))) × (result ≤ 16384) }
{
    list_length(numbers, tables, m, 4)
}

// Its entry reference k.
#[tactic(auto, using(crate::proofs::Indexes::entry_reference_below), unfolding(crate::specs::Names::entry_references, crate::specs::Lists::module_widths, crate::specs::Names::only))]
pub fn entry_reference(numbers: &[u32], tables: &[usize], m: ModuleIdx, k: usize) -> SymbolIdx
    requires loaded { Loaded numbers.now tables.now }
    requires m_bound { (m.0 < (header_in numbers.now).modules) × (k < length (entry_references (module_of (graph_in numbers.now) m.0))) }
    ensures { (result.0 ≡ only (get_or (entry_references (module_of (graph_in numbers.now) m.0)) k [])) × (result.0 < (header_in numbers.now).symbols) }
{
    SymbolIdx(list_number(numbers, tables, m, 4, k, 0))
}

// Whether its resolved export k is from CommonJS: 0 or 1.
#[tactic(auto, unfolding(crate::specs::Names::resolved_exports, crate::specs::Lists::module_widths, crate::specs::Names::export_from_common_js))]
pub fn resolved_export_from_commonjs(
    numbers: &[u32],
    tables: &[usize],
    m: ModuleIdx,
    k: usize,
) -> usize
    requires loaded { Loaded numbers.now tables.now }
    requires m_bound { (m.0 < (header_in numbers.now).modules) × (k < length (resolved_exports (module_of (graph_in numbers.now) m.0))) }
    ensures { result ≡ export_from_common_js (get_or (resolved_exports (module_of (graph_in numbers.now) m.0)) k []) }
{
    list_number(numbers, tables, m, 6, k, 2)
}

// How many helpers its statements need, one row for each statement that needs one.
#[tactic(auto, unfolding(crate::specs::Names::module_helpers))]
pub fn helper_count(numbers: &[u32], tables: &[usize], m: ModuleIdx) -> usize
    requires loaded { Loaded numbers.now tables.now }
    requires m_bound { m.0 < (header_in numbers.now).modules }
    ensures { (result ≡ length (module_helpers (module_of (graph_in numbers.now) m.0))) × (result ≤ 16384) }
{
    list_length(numbers, tables, m, 9)
}

// The helper of row k.
#[tactic(auto, using(crate::proofs::Indexes::helper_row_below), unfolding(crate::specs::Names::module_helpers, crate::specs::Lists::module_widths, crate::specs::Names::helper_number))]
pub fn helper(numbers: &[u32], tables: &[usize], m: ModuleIdx, k: usize) -> usize
    requires loaded { Loaded numbers.now tables.now }
    requires m_bound { (m.0 < (header_in numbers.now).modules) × (k < length (module_helpers (module_of (graph_in numbers.now) m.0))) }
    ensures { (result ≡ helper_number (get_or (module_helpers (module_of (graph_in numbers.now) m.0)) k [])) × (result < (header_in numbers.now).helpers) }
{
    list_number(numbers, tables, m, 9, k, 0)
}

// The statement of row k.
pub fn helper_statement(numbers: &[u32], tables: &[usize], m: ModuleIdx, k: usize) -> StmtIdx
    requires loaded { Loaded numbers.now tables.now }
    requires m_bound { (m.0 < (header_in numbers.now).modules) × (k < length (module_helpers (module_of (graph_in numbers.now) m.0))) }
    ensures { (result.0 ≡ helper_statement_of (get_or (module_helpers (module_of (graph_in numbers.now) m.0)) k [])) × (result.0 < length (statement_list (graph_in numbers.now) m.0)) }
{
    StmtIdx(list_number(numbers, tables, m, 9, k, 1))
}
