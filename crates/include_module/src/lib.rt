// K2 to K6: what follows from a module (include_module of include_statements.rs).
#![tactic(auto)]

ghost use Rattle.std.specs.Prelude.{◌≡◌, ℕ, ◌+◌, ◌-◌, ◌<◌, ◌≤◌, List, [], ◌∷◌, Bool, true, false, length, get_or, drop};
ghost use Rattle.determine_side_effects.specs.graph_tables_crate.Tables.{header_in};
ghost use Rattle.determine_side_effects.specs.graph_crate.Check.{graph_in};
ghost use Rattle.determine_side_effects.specs.Effects.{last_verdicts};
ghost use Rattle.determine_side_effects.specs.facts_crate.Facts.{Good, statement_fact, use_fact};
ghost use Rattle.determine_side_effects.specs.graph_access_crate.Words.{statement_list, module_of, normal};
ghost use Rattle.determine_side_effects.specs.graph_access_crate.Names.{dependencies, common_js_export_symbols, named_imports};
ghost use Rattle.keep_rules.specs.Rules.{quiet_runtime, effect_bit, swept_shaken, swept_whole, swept as swept_of, sweep_candidate, dependency_candidate, eval_candidates, eval_candidate, export_symbol_candidate, dev_namespace, dev_candidate, module_segments, no_segment};
ghost use Rattle.keep_rules.specs.Prepared.{Prepared, GoodCandidate};

use determine_side_effects::facts_crate::{Fact, Reason};
use determine_side_effects::graph_access_crate::modules::{EVAL, SAFELY_TREESHAKE_COMMONJS};
use determine_side_effects::graph_access_crate::options::{COMMONJS_SHAKING, DEV_MODE, TREESHAKE};
use determine_side_effects::graph_access_crate::statements::{DECLARES, FORCE, SIDE_EFFECT};
use determine_side_effects::graph_access_crate::{modules, statements};
use determine_side_effects::index_crate::{ModuleIdx, StmtIdx};
use keep_rules::Candidate;

// Whether module m is the runtime and has no effects.
pub fn is_quiet_runtime(numbers: &[u32], tables: &[usize], m: ModuleIdx) -> bool
    requires prepared { Prepared numbers.now tables.now }
    requires m_bound { m.0 < (header_in numbers.now).modules }
    ensures { result ≡ quiet_runtime (graph_in numbers.now) (last_verdicts (graph_in numbers.now)) m.0 }
{
    let h = determine_side_effects::graph_crate::header_of(numbers);
    if m.0 != h.runtime {
        return false;
    }
    !determine_side_effects::has_effects(numbers, tables, m)
}

// The bit that counts as the effect of a statement of module m.
fn effect_bit(numbers: &[u32], tables: &[usize], m: ModuleIdx) -> usize
    requires prepared { Prepared numbers.now tables.now }
    requires m_bound { m.0 < (header_in numbers.now).modules }
    ensures { (result ≡ effect_bit (graph_in numbers.now) m.0) × (result < 2) }
{
    if !determine_side_effects::facts_crate::flag(
        modules::flags(numbers, tables, m),
        SAFELY_TREESHAKE_COMMONJS,
    ) {
        return 0;
    }
    if keep_rules::option(numbers, COMMONJS_SHAKING) {
        return 1;
    }
    0
}

// Whether an included module keeps statement i by itself, with tree shaking (`sweep_side_effect_statements`).
fn swept_shaken(numbers: &[u32], tables: &[usize], m: ModuleIdx, i: StmtIdx) -> bool
    requires prepared { Prepared numbers.now tables.now }
    requires m_bound { (m.0 < (header_in numbers.now).modules) × (i.0 < length (statement_list (graph_in numbers.now) m.0)) }
    ensures { result ≡ swept_shaken (graph_in numbers.now) (last_verdicts (graph_in numbers.now)) m.0 i.0 }
{
    let bits = statements::bits(numbers, tables, m, i);
    if determine_side_effects::facts_crate::flag(bits, effect_bit(numbers, tables, m)) {
        if !on_demand::is_on_demand(numbers, tables, m) {
            return true;
        }
        if !on_demand::is_gated_side_effect_stmt(numbers, tables, m, i) {
            return true;
        }
    }
    if !determine_side_effects::facts_crate::flag(modules::flags(numbers, tables, m), EVAL) {
        return false;
    }
    determine_side_effects::facts_crate::flag(bits, DECLARES)
}

// Whether an included module keeps statement i by itself, without tree shaking (`include_statements_without_treeshaking`).
fn swept_whole(numbers: &[u32], tables: &[usize], m: ModuleIdx, i: StmtIdx) -> bool
    requires prepared { Prepared numbers.now tables.now }
    requires m_bound { (m.0 < (header_in numbers.now).modules) × (i.0 < length (statement_list (graph_in numbers.now) m.0)) }
    ensures { result ≡ swept_whole (graph_in numbers.now) m.0 i.0 }
{
    let bits = statements::bits(numbers, tables, m, i);
    if !determine_side_effects::facts_crate::flag(bits, FORCE) {
        return true;
    }
    determine_side_effects::facts_crate::flag(bits, SIDE_EFFECT)
}

// Whether an included module keeps statement i by itself.
fn swept(numbers: &[u32], tables: &[usize], m: ModuleIdx, i: StmtIdx) -> bool
    requires prepared { Prepared numbers.now tables.now }
    requires m_bound { (m.0 < (header_in numbers.now).modules) × (i.0 < length (statement_list (graph_in numbers.now) m.0)) }
    ensures { result ≡ swept_of (graph_in numbers.now) (last_verdicts (graph_in numbers.now)) m.0 i.0 }
{
    if i.0 == 0 {
        return false;
    }
    if keep_rules::option(numbers, TREESHAKE) {
        if determine_side_effects::verdict(numbers, tables, m) != 4 {
            return swept_shaken(numbers, tables, m, i);
        }
    }
    swept_whole(numbers, tables, m, i)
}

// K2, candidate i.
pub fn sweep_candidate(numbers: &[u32], tables: &[usize], m: ModuleIdx, i: StmtIdx) -> Candidate
    requires prepared { Prepared numbers.now tables.now }
    requires m_bound { (m.0 < (header_in numbers.now).modules) × (i.0 < length (statement_list (graph_in numbers.now) m.0)) }
    ensures { (result ≡ sweep_candidate (graph_in numbers.now) (last_verdicts (graph_in numbers.now)) m.0 i.0) × GoodCandidate (graph_in numbers.now) result }
{
    if swept(numbers, tables, m, i) {
        return Candidate::Gives(Fact::Statement(m, i));
    }
    Candidate::Nothing
}

// K3, candidate k (`include_side_effectful_dependencies`).
pub fn dependency_candidate(numbers: &[u32], tables: &[usize], m: ModuleIdx, k: usize) -> Candidate
    requires prepared { Prepared numbers.now tables.now }
    requires m_bound { (m.0 < (header_in numbers.now).modules) × (k < length (dependencies (module_of (graph_in numbers.now) m.0))) }
    ensures { (result ≡ dependency_candidate (graph_in numbers.now) (last_verdicts (graph_in numbers.now)) m.0 k) × GoodCandidate (graph_in numbers.now) result }
{
    let d = modules::dependency(numbers, tables, m, k);
    if !modules::is_normal(numbers, tables, d) {
        return Candidate::Nothing;
    }
    if !keep_rules::option(numbers, TREESHAKE) {
        return Candidate::Gives(Fact::Module(d));
    }
    if determine_side_effects::has_effects(numbers, tables, d) {
        return Candidate::Gives(Fact::Module(d));
    }
    Candidate::Nothing
}

// How many candidates K4 has.
pub fn eval_candidates(numbers: &[u32], tables: &[usize], m: ModuleIdx) -> usize
    requires prepared { Prepared numbers.now tables.now }
    requires m_bound { m.0 < (header_in numbers.now).modules }
    ensures { result ≡ eval_candidates (graph_in numbers.now) m.0 }
{
    if !determine_side_effects::facts_crate::flag(modules::flags(numbers, tables, m), EVAL) {
        return 0;
    }
    if modules::module_type(numbers, tables, m) < 2 {
        return modules::named_import_count(numbers, tables, m);
    }
    0
}

// K4, candidate k.
pub fn eval_candidate(numbers: &[u32], tables: &[usize], m: ModuleIdx, k: usize) -> Candidate
    requires prepared { Prepared numbers.now tables.now }
    requires m_bound { (m.0 < (header_in numbers.now).modules) × (k < length (named_imports (module_of (graph_in numbers.now) m.0))) }
    ensures { (result ≡ eval_candidate (graph_in numbers.now) m.0 k) × GoodCandidate (graph_in numbers.now) result }
{
    let s = modules::named_import(numbers, tables, m, k);
    Candidate::Gives(Fact::CheckedUse(s, Reason { bits: 1 }))
}

// K5, candidate k (`included_commonjs_export_symbol`).
pub fn export_symbol_candidate(
    numbers: &[u32],
    tables: &[usize],
    m: ModuleIdx,
    k: usize,
) -> Candidate
    requires prepared { Prepared numbers.now tables.now }
    requires m_bound { (m.0 < (header_in numbers.now).modules) × (k < length (common_js_export_symbols (module_of (graph_in numbers.now) m.0))) }
    ensures { (result ≡ export_symbol_candidate (graph_in numbers.now) m.0 k) × GoodCandidate (graph_in numbers.now) result }
{
    let s = modules::export_symbol(numbers, tables, m, k);
    Candidate::Gives(Fact::CheckedUse(s, Reason { bits: 1 }))
}

// Whether dev mode keeps the namespace statement of module m.
pub fn dev_namespace(numbers: &[u32], tables: &[usize], m: ModuleIdx) -> bool
    requires prepared { Prepared numbers.now tables.now }
    requires m_bound { m.0 < (header_in numbers.now).modules }
    ensures { result ≡ dev_namespace (graph_in numbers.now) m.0 }
{
    if !keep_rules::option(numbers, DEV_MODE) {
        return false;
    }
    let h = determine_side_effects::graph_crate::header_of(numbers);
    if m.0 == h.runtime {
        return false;
    }
    modules::exports(numbers, tables, m) == 0
}

// K6.
pub fn dev_candidate(numbers: &[u32], tables: &[usize], m: ModuleIdx) -> Candidate
    requires prepared { Prepared numbers.now tables.now }
    requires m_bound { m.0 < (header_in numbers.now).modules }
    requires m_value { normal (graph_in numbers.now) m.0 ≡ true }
    ensures { (result ≡ dev_candidate (graph_in numbers.now) m.0 0) × GoodCandidate (graph_in numbers.now) result }
{
    if dev_namespace(numbers, tables, m) {
        return Candidate::Gives(Fact::Statement(m, StmtIdx(0)));
    }
    Candidate::Nothing
}

// How many candidates segment j of module m has.
pub fn module_candidates(numbers: &[u32], tables: &[usize], m: ModuleIdx, j: usize) -> usize
    requires prepared { Prepared numbers.now tables.now }
    requires m_bound { (m.0 < (header_in numbers.now).modules) × (j < 5) }
    ensures { result ≡ (get_or (module_segments (graph_in numbers.now) (last_verdicts (graph_in numbers.now)) m.0) j no_segment).count }
{
    if j == 0 {
        return modules::statement_count(numbers, tables, m);
    }
    if j == 1 {
        return modules::dependency_count(numbers, tables, m);
    }
    if j == 2 {
        return eval_candidates(numbers, tables, m);
    }
    if j == 3 {
        return modules::export_symbol_count(numbers, tables, m);
    }
    1
}

// What candidate k of segment j of module m gives.
pub fn module_candidate(
    numbers: &[u32],
    tables: &[usize],
    m: ModuleIdx,
    j: usize,
    k: usize,
) -> Candidate
    requires prepared { Prepared numbers.now tables.now }
    requires m_bound { (m.0 < (header_in numbers.now).modules) × (j < 5) × (k < (get_or (module_segments (graph_in numbers.now) (last_verdicts (graph_in numbers.now)) m.0) j no_segment).count) }
    requires m_value { normal (graph_in numbers.now) m.0 ≡ true }
    ensures { (result ≡ (get_or (module_segments (graph_in numbers.now) (last_verdicts (graph_in numbers.now)) m.0) j no_segment).candidate k) × GoodCandidate (graph_in numbers.now) result }
{
    if j == 0 {
        return sweep_candidate(numbers, tables, m, StmtIdx(k));
    }
    if j == 1 {
        return dependency_candidate(numbers, tables, m, k);
    }
    if j == 2 {
        return eval_candidate(numbers, tables, m, k);
    }
    if j == 3 {
        return export_symbol_candidate(numbers, tables, m, k);
    }
    dev_candidate(numbers, tables, m)
}
