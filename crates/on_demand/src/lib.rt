// Bodies whose side effects are included on demand (on_demand.rs).
#![tactic(auto)]

ghost use Rattle.std.specs.Prelude.{◌≡◌, ℕ, ◌+◌, ◌-◌, ◌<◌, ◌≤◌, Bool, true, false, length, get_or};
ghost use Rattle.determine_side_effects.specs.tables_crate.Layout.{start_of, Laid, Kept, on_demand_in, bodies_in, at_on_demand, at_bodies, all_sections};
ghost use Rattle.determine_side_effects.specs.graph_tables_crate.Tables.{header_in};
ghost use Rattle.determine_side_effects.specs.graph_crate.Check.{graph_in};
ghost use Rattle.determine_side_effects.specs.graph_crate.Loaded.{Loaded};
ghost use Rattle.determine_side_effects.specs.graph_access_crate.Words.{statement_list, normal};
ghost use Rattle.determine_side_effects.specs.Effects.{last_verdicts};
ghost use Rattle.determine_side_effects.specs.Tabled.{Settled};
ghost use Rattle.on_demand.specs.Demand.{user_entry, on_demand, gated, has_gated, has_body, body_of};
ghost use Rattle.on_demand.specs.Tabled.{one, keyed, EntriesMarked, DemandTable, KeyTable, Demands, Keyed};

use determine_side_effects::graph_access_crate::modules::EVAL;
use determine_side_effects::graph_access_crate::options::TREESHAKE;
use determine_side_effects::graph_access_crate::statements::SIDE_EFFECT;
use determine_side_effects::graph_access_crate::{entries, modules, statements, symbols};
use determine_side_effects::index_crate::{EntryIdx, ModuleIdx, StmtIdx, SymbolIdx};
use determine_side_effects::tables_crate::{BODY_OF_KEY, ON_DEMAND};

// Whether a module's side effects are included on demand.
pub fn is_on_demand(numbers: &[u32], tables: &[usize], m: ModuleIdx) -> bool
    requires demands { Demands numbers.now tables.now }
    requires m_bound { m.0 < (header_in numbers.now).modules }
    ensures { result ≡ on_demand (graph_in numbers.now) (last_verdicts (graph_in numbers.now)) m.0 }
{
    let demand = determine_side_effects::tables_crate::section(tables, ON_DEMAND);
    let i = m.0;
    demand[i] == 1
}

// 1 more than the module whose body a symbol is a key of, or 0.
pub fn body_of_key(numbers: &[u32], tables: &[usize], s: SymbolIdx) -> usize
    requires keyed { Keyed numbers.now tables.now }
    requires s_bound { s.0 < (header_in numbers.now).symbols }
    ensures { (result ≡ body_of (graph_in numbers.now) (last_verdicts (graph_in numbers.now)) s.0) × (result ≤ (header_in numbers.now).modules) }
{
    let bodies = determine_side_effects::tables_crate::section(tables, BODY_OF_KEY);
    let i = s.0;
    bodies[i]
}

// Marks the modules of user-defined entries with 1 in the section, all others with 0.
fn mark_user_defined_entries(numbers: &[u32], tables: &mut [usize])
    requires loaded { Loaded numbers.now tables.old }
    requires laid { Laid (header_in numbers.now) all_sections tables.old }
    ensures { EntriesMarked (graph_in numbers.now) (on_demand_in tables.new) × Kept (start_of (header_in numbers.now) at_on_demand) tables.old tables.new }
{
    let h = determine_side_effects::graph_crate::header_of(numbers);
    determine_side_effects::tables_crate::clear(tables, ON_DEMAND);
    let base = tables[ON_DEMAND];
    for e in 0..h.entries {
        if entries::entry_kind(numbers, tables, EntryIdx(e)) < 2 {
            let m = entries::entry_module(numbers, tables, EntryIdx(e));
            tables[base + m.0] = 1;
        }
    }
}

// 1 where a module's side effects are included on demand, else 0. `entry`: 1 for the module of a user-defined entry.
fn side_effects_included_on_demand(
    numbers: &[u32],
    tables: &[usize],
    entry: usize,
    m: ModuleIdx,
) -> usize
    requires loaded { Loaded numbers.now tables.now × Settled numbers.now tables.now }
    requires m_bound { (m.0 < (header_in numbers.now).modules) × (entry ≡ one (user_entry (graph_in numbers.now) m.0)) }
    ensures { result ≡ one (on_demand (graph_in numbers.now) (last_verdicts (graph_in numbers.now)) m.0) }
{
    if determine_side_effects::verdict(numbers, tables, m) != 2 {
        return 0;
    }
    if modules::exports(numbers, tables, m) != 0 {
        return 0;
    }
    if determine_side_effects::facts_crate::flag(modules::flags(numbers, tables, m), EVAL) {
        return 0;
    }
    1 - entry
}

// Fills the section of the modules whose side effects are included on demand: 1 for each of them.
pub fn fill_on_demand(numbers: &[u32], tables: &mut [usize])
    requires loaded { Loaded numbers.now tables.old × Settled numbers.now tables.old }
    requires laid { Laid (header_in numbers.now) all_sections tables.old }
    ensures { DemandTable (graph_in numbers.now) (on_demand_in tables.new) × Kept (start_of (header_in numbers.now) at_on_demand) tables.old tables.new }
{
    mark_user_defined_entries(numbers, tables);
    let h = determine_side_effects::graph_crate::header_of(numbers);
    let base = tables[ON_DEMAND];
    for m in 0..h.modules {
        let entry = tables[base + m];
        tables[base + m] = side_effects_included_on_demand(numbers, tables, entry, ModuleIdx(m));
    }
}

// Whether statement i of module m waits for demand.
pub fn is_gated_side_effect_stmt(
    numbers: &[u32],
    tables: &[usize],
    m: ModuleIdx,
    i: StmtIdx,
) -> bool
    requires loaded { Loaded numbers.now tables.now }
    requires m_bound { (m.0 < (header_in numbers.now).modules) × (i.0 < length (statement_list (graph_in numbers.now) m.0)) }
    ensures { result ≡ gated (graph_in numbers.now) m.0 i.0 }
{
    if i.0 == 0 {
        return false;
    }
    if !determine_side_effects::facts_crate::flag(
        statements::bits(numbers, tables, m, i),
        SIDE_EFFECT,
    ) {
        return false;
    }
    if statements::reference_count(numbers, tables, m, i) == 0 {
        return false;
    }
    statements::import_record_count(numbers, tables, m, i) == 0
}

// Whether a module has a statement that waits for demand.
fn has_gated_stmts(numbers: &[u32], tables: &[usize], m: ModuleIdx) -> bool
    requires loaded { Loaded numbers.now tables.now }
    requires m_bound { m.0 < (header_in numbers.now).modules }
    ensures { result ≡ has_gated (graph_in numbers.now) m.0 }
{
    let count = modules::statement_count(numbers, tables, m);
    for i in 0..count {
        if is_gated_side_effect_stmt(numbers, tables, m, StmtIdx(i)) {
            return true;
        }
    }
    false
}

// Whether a module has a body that is included on demand, and a statement that waits for it.
fn has_body(numbers: &[u32], tables: &[usize], m: ModuleIdx) -> bool
    requires loaded { Loaded numbers.now tables.now × Demands numbers.now tables.now }
    requires m_bound { m.0 < (header_in numbers.now).modules }
    ensures { result ≡ has_body (graph_in numbers.now) (last_verdicts (graph_in numbers.now)) m.0 }
{
    if !modules::is_normal(numbers, tables, m) {
        return false;
    }
    if !is_on_demand(numbers, tables, m) {
        return false;
    }
    has_gated_stmts(numbers, tables, m)
}

// Enters the keys of a module's body: the roots of its own exports, and its namespace as it stands.
fn enter_keys(numbers: &[u32], tables: &mut [usize], m: ModuleIdx)
    requires loaded { Loaded numbers.now tables.old }
    requires laid { Laid (header_in numbers.now) all_sections tables.old }
    requires m_bound { (m.0 < (header_in numbers.now).modules) × (normal (graph_in numbers.now) m.0 ≡ true) }
    ensures { ((s : ℕ) → s < (header_in numbers.now).symbols → get_or (bodies_in tables.new) s 0 ≡ keyed (graph_in numbers.now) m.0 s (get_or (bodies_in tables.old) s 0)) × Kept (start_of (header_in numbers.now) at_bodies) tables.old tables.new }
{
    let base = tables[BODY_OF_KEY];
    let count = modules::own_export_count(numbers, tables, m);
    for k in 0..count {
        let own = modules::own_export(numbers, tables, m, k);
        let root = symbols::root(numbers, tables, own);
        tables[base + root.0] = m.0 + 1;
    }
    let namespace = modules::namespace(numbers, tables, m);
    tables[base + (namespace - 1)] = m.0 + 1;
}

// Fills the section of the keys: for each symbol 1 more than the module whose body it is a key of, or 0.
pub fn compute_body_demand_keys(numbers: &[u32], tables: &mut [usize])
    requires { Loaded numbers.now tables.old × Demands numbers.now tables.old }
    ensures { KeyTable (graph_in numbers.now) (bodies_in tables.new) × Kept (start_of (header_in numbers.now) at_bodies) tables.old tables.new }
{
    let h = determine_side_effects::graph_crate::header_of(numbers);
    determine_side_effects::tables_crate::clear(tables, BODY_OF_KEY);
    if !determine_side_effects::facts_crate::flag(h.options, TREESHAKE) {
        return;
    }
    for m in 0..h.modules {
        if has_body(numbers, tables, ModuleIdx(m)) {
            enter_keys(numbers, tables, ModuleIdx(m));
        }
    }
}
