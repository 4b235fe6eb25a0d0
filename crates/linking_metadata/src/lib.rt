// CommonJS namespaces by symbol, and where a symbol leads (linking_metadata.rs).
#![tactic(auto)]

ghost use Rattle.std.specs.Prelude.{◌≡◌, ℕ, ◌+◌, ◌-◌, ◌<◌, ◌≤◌, Bool, length, get_or};
ghost use Rattle.graph_access.specs.tables_crate.Layout.{start_of, Laid, Kept, namespaces_in, at_namespaces, all_sections};
ghost use Rattle.graph_access.specs.graph_tables_crate.Tables.{header_in};
ghost use Rattle.graph_access.specs.graph_crate.Check.{graph_in};
ghost use Rattle.graph_access.specs.graph_crate.Loaded.{Loaded};
ghost use Rattle.linking_metadata.specs.Namespaces.{common_js_of, is_namespace, target_of};
ghost use Rattle.linking_metadata.specs.Tabled.{entered, NamespaceTable, Named};

use graph_access::index_crate::{ModuleIdx, SymbolIdx};
use graph_access::tables_crate::NAMESPACES;
use graph_access::{modules, symbols};

// Whether a symbol is the namespace of its owner.
#[tactic(auto, unfolding(crate::specs::Namespaces::is_namespace))]
pub fn is_namespace(numbers: &[u32], tables: &[usize], s: SymbolIdx) -> bool
    requires loaded { Loaded numbers.now tables.now }
    requires s_bound { s.0 < (header_in numbers.now).symbols }
    ensures { result ≡ is_namespace (graph_in numbers.now) s.0 }
{
    let m = symbols::owner(numbers, tables, s);
    modules::namespace(numbers, tables, m) == s.0 + 1
}

// The alias namespace of the symbol's root if it has one, else the root.
#[tactic(auto, using(crate::proofs::Targets::no_alias, crate::proofs::Targets::some_alias))]
pub fn target_of(numbers: &[u32], tables: &[usize], s: SymbolIdx) -> SymbolIdx
    requires loaded { Loaded numbers.now tables.now }
    requires s_bound { s.0 < (header_in numbers.now).symbols }
    ensures { (result.0 ≡ target_of (graph_in numbers.now) s.0) × (result.0 < (header_in numbers.now).symbols) }
{
    let root = symbols::root(numbers, tables, s);
    let alias = symbols::alias_namespace(numbers, tables, root);
    if alias == 0 {
        return root;
    }
    SymbolIdx(alias - 1)
}

// 1 more than the CommonJS module that a symbol is a namespace of, or 0.
pub fn commonjs_of(numbers: &[u32], tables: &[usize], s: SymbolIdx) -> usize
    requires named { Named numbers.now tables.now }
    requires s_bound { s.0 < (header_in numbers.now).symbols }
    ensures { (result ≡ common_js_of (graph_in numbers.now) s.0) × (result ≤ (header_in numbers.now).modules) }
{
    let namespaces = graph_access::tables_crate::section(tables, NAMESPACES);
    let i = s.0;
    namespaces[i]
}

// Enters the CommonJS namespaces that a module lists and owns.
fn enter_namespaces(numbers: &[u32], tables: &mut [usize], m: ModuleIdx)
    requires loaded { Loaded numbers.now tables.old }
    requires laid { Laid (header_in numbers.now) all_sections tables.old }
    requires m_bound { m.0 < (header_in numbers.now).modules }
    ensures { ((s : ℕ) → s < (header_in numbers.now).symbols → get_or (namespaces_in tables.new) s 0 ≡ entered (graph_in numbers.now) m.0 s (get_or (namespaces_in tables.old) s 0)) × Kept (start_of (header_in numbers.now) at_namespaces) tables.old tables.new }
{
    let base = tables[NAMESPACES];
    let count = modules::commonjs_namespace_count(numbers, tables, m);
    for k in 0..count {
        let s = modules::commonjs_namespace_symbol(numbers, tables, m, k);
        let owner = symbols::owner(numbers, tables, s);
        if owner.0 == m.0 {
            let n = modules::commonjs_namespace_module(numbers, tables, m, k);
            tables[base + s.0] = n.0 + 1;
        }
    }
}

// Fills the section of the CommonJS namespaces: for each symbol 1 more than the module that it is a namespace of, or 0.
pub fn fill_namespaces(numbers: &[u32], tables: &mut [usize])
    requires loaded { Loaded numbers.now tables.old }
    requires laid { Laid (header_in numbers.now) all_sections tables.old }
    ensures { NamespaceTable (graph_in numbers.now) (namespaces_in tables.new) × Kept (start_of (header_in numbers.now) at_namespaces) tables.old tables.new }
{
    let h = graph_access::graph_crate::header_of(numbers);
    graph_access::tables_crate::clear(tables, NAMESPACES);
    for m in 0..h.modules {
        enter_namespaces(numbers, tables, ModuleIdx(m));
    }
}
