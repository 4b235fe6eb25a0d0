// K9 to K14: what follows from a use, checked or not (include_symbol of include_statements.rs).
#![tactic(auto)]

ghost use Rattle.std.specs.Prelude.{◌≡◌, ◌<◌, ◌≤◌, get_or};
ghost use Rattle.determine_side_effects.specs.graph_tables_crate.Tables.{header_in, symbols_in};
ghost use Rattle.determine_side_effects.specs.graph_crate.Check.{graph_in};
ghost use Rattle.determine_side_effects.specs.Effects.{last_verdicts};
ghost use Rattle.determine_side_effects.specs.graph_access_crate.Words.{root_of, module_of};
ghost use Rattle.determine_side_effects.specs.graph_access_crate.Names.{resolved_exports};
ghost use Rattle.keep_rules.specs.Rules.{bailout_candidate, default_alias, checked_candidate, bypassed, demanded, demand_candidates, demand_candidate, export_of, export_candidate, alias_candidate, needs_wrapper, wrapper_candidates, wrapper_candidate, declaration_candidates, declaration_candidate, write_candidates, write_candidate, use_segments, no_segment};
ghost use Rattle.linking_metadata.specs.Namespaces.{target_of};
ghost use Rattle.keep_rules.specs.Prepared.{Prepared, GoodCandidate};

use determine_side_effects::facts_crate::{Fact, Reason};
use determine_side_effects::graph_access_crate::options::{
    INLINE_CONST_SMART, PROPERTY_WRITES_FALSE,
};
use determine_side_effects::graph_access_crate::symbols::{COMMONJS, KNOWN, SAFE};
use determine_side_effects::graph_access_crate::{modules, symbols};
use determine_side_effects::index_crate::{ModuleIdx, StmtIdx, SymbolIdx};
use keep_rules::Candidate;

// The bailout of a module given by 1 more than its index; nothing for 0.
fn bailout_candidate(numbers: &[u32], n: usize) -> Candidate
    requires { n ≤ (header_in numbers.now).modules }
    ensures { (result ≡ bailout_candidate n) × GoodCandidate (graph_in numbers.now) result }
{
    if n == 0 {
        return Candidate::Nothing;
    }
    Candidate::Gives(Fact::Bailout(ModuleIdx(n - 1)))
}

// The bailout by a root that is an alias of "default".
fn default_alias(numbers: &[u32], tables: &[usize], root: SymbolIdx) -> Candidate
    requires prepared { Prepared numbers.now tables.now }
    requires root_bound { root.0 < (header_in numbers.now).symbols }
    ensures { (result ≡ default_alias (graph_in numbers.now) root.0) × GoodCandidate (graph_in numbers.now) result }
{
    let alias = symbols::alias_namespace(numbers, tables, root);
    if alias == 0 {
        return Candidate::Nothing;
    }
    if symbols::alias_name(numbers, tables, root) != 0 {
        return Candidate::Nothing;
    }
    bailout_candidate(
        numbers,
        linking_metadata::commonjs_of(numbers, tables, SymbolIdx(alias - 1)),
    )
}

// K9, candidate k: the use, then the bailouts (`check_cjs_bailout`).
pub fn checked_candidate(
    numbers: &[u32],
    tables: &[usize],
    s: SymbolIdx,
    x: Reason,
    k: usize,
) -> Candidate
    requires prepared { Prepared numbers.now tables.now }
    requires s_bound { (s.0 < (header_in numbers.now).symbols) × (0 < x.bits) × (x.bits < 32) × (k < 4) }
    ensures { (result ≡ checked_candidate (graph_in numbers.now) s.0 x.bits k) × GoodCandidate (graph_in numbers.now) result }
{
    if k == 0 {
        return Candidate::Gives(Fact::Use(s, x));
    }
    let root = symbols::root(numbers, tables, s);
    if k == 1 {
        return bailout_candidate(
            numbers,
            linking_metadata::commonjs_of(numbers, tables, root),
        );
    }
    if k == 2 {
        if linking_metadata::is_namespace(numbers, tables, root) {
            return Candidate::Gives(Fact::Bailout(symbols::owner(numbers, tables, root)));
        }
        return Candidate::Nothing;
    }
    default_alias(numbers, tables, root)
}

// Whether a use is of a constant that is inlined.
pub fn is_bypassed_inlined_constant(
    numbers: &[u32],
    tables: &[usize],
    s: SymbolIdx,
    x: Reason,
) -> bool
    requires prepared { Prepared numbers.now tables.now }
    requires s_bound { s.0 < (header_in numbers.now).symbols }
    ensures { result ≡ bypassed (graph_in numbers.now) s.0 x.bits }
{
    let root = symbols::root(numbers, tables, s);
    let bits = symbols::constant_bits(numbers, tables, root);
    if !determine_side_effects::facts_crate::flag(bits, KNOWN) {
        return false;
    }
    if determine_side_effects::facts_crate::flag(bits, COMMONJS) {
        return false;
    }
    if determine_side_effects::facts_crate::flag(x.bits, 1) {
        return false;
    }
    if !keep_rules::option(numbers, INLINE_CONST_SMART) {
        return true;
    }
    determine_side_effects::facts_crate::flag(bits, SAFE)
}

// K10: 1 more than the module whose body the use demands, or 0.
fn demanded_body(numbers: &[u32], tables: &[usize], s: SymbolIdx, x: Reason) -> usize
    requires prepared { Prepared numbers.now tables.now }
    requires s_bound { s.0 < (header_in numbers.now).symbols }
    ensures { (result ≡ demanded (graph_in numbers.now) (last_verdicts (graph_in numbers.now)) s.0 x.bits) × (result ≤ (header_in numbers.now).modules) }
{
    if determine_side_effects::facts_crate::flag(x.bits, 4) {
        return 0;
    }
    let root = symbols::root(numbers, tables, s);
    on_demand::body_of_key(numbers, tables, root)
}

// How many candidates K10 has.
pub fn demand_candidates(numbers: &[u32], tables: &[usize], s: SymbolIdx, x: Reason) -> usize
    requires prepared { Prepared numbers.now tables.now }
    requires s_bound { s.0 < (header_in numbers.now).symbols }
    ensures { result ≡ demand_candidates (graph_in numbers.now) (demanded (graph_in numbers.now) (last_verdicts (graph_in numbers.now)) s.0 x.bits) }
{
    let body = demanded_body(numbers, tables, s, x);
    if body == 0 {
        return 0;
    }
    modules::statement_count(numbers, tables, ModuleIdx(body - 1))
}

// K10, candidate i (`drain_body_demand_stmts`).
pub fn demand_candidate(
    numbers: &[u32],
    tables: &[usize],
    s: SymbolIdx,
    x: Reason,
    i: StmtIdx,
) -> Candidate
    requires prepared { Prepared numbers.now tables.now }
    requires s_bound { (s.0 < (header_in numbers.now).symbols) × (i.0 < demand_candidates (graph_in numbers.now) (demanded (graph_in numbers.now) (last_verdicts (graph_in numbers.now)) s.0 x.bits)) }
    ensures { (result ≡ demand_candidate (graph_in numbers.now) (demanded (graph_in numbers.now) (last_verdicts (graph_in numbers.now)) s.0 x.bits) i.0) × GoodCandidate (graph_in numbers.now) result }
{
    let body = demanded_body(numbers, tables, s, x);
    let b = ModuleIdx(body - 1);
    if on_demand::is_gated_side_effect_stmt(numbers, tables, b, i) {
        return Candidate::Gives(Fact::Statement(b, i));
    }
    Candidate::Nothing
}

// 1 more than the symbol that module m exports by this name, or 0.
fn export_of(numbers: &[u32], tables: &[usize], m: ModuleIdx, name: usize) -> usize
    requires prepared { Prepared numbers.now tables.now }
    requires m_bound { m.0 < (header_in numbers.now).modules }
    ensures { (result ≡ export_of name (resolved_exports (module_of (graph_in numbers.now) m.0))) × (result ≤ (header_in numbers.now).symbols) }
{
    let count = modules::resolved_export_count(numbers, tables, m);
    for k in 0..count {
        if modules::resolved_export_name(numbers, tables, m, k) == name {
            let symbol = modules::resolved_export_symbol(numbers, tables, m, k);
            return symbol.0 + 1;
        }
    }
    0
}

// The use of the export by this name of the module given by 1 more than its index.
fn export_candidate(numbers: &[u32], tables: &[usize], name: usize, n: usize) -> Candidate
    requires prepared { Prepared numbers.now tables.now }
    requires n_bound { n ≤ (header_in numbers.now).modules }
    ensures { (result ≡ export_candidate (graph_in numbers.now) name n) × GoodCandidate (graph_in numbers.now) result }
{
    if n == 0 {
        return Candidate::Nothing;
    }
    let m = ModuleIdx(n - 1);
    if !modules::is_normal(numbers, tables, m) {
        return Candidate::Nothing;
    }
    if name == 0 {
        return Candidate::Nothing;
    }
    let export = export_of(numbers, tables, m, name);
    if export == 0 {
        return Candidate::Nothing;
    }
    Candidate::Gives(Fact::Use(SymbolIdx(export - 1), Reason { bits: 1 }))
}

// K11 (`follow_cjs_namespace_alias`).
pub fn alias_candidate(numbers: &[u32], tables: &[usize], s: SymbolIdx) -> Candidate
    requires prepared { Prepared numbers.now tables.now }
    requires s_bound { s.0 < (header_in numbers.now).symbols }
    ensures { (result ≡ alias_candidate (graph_in numbers.now) (root_of (graph_in numbers.now).symbols s.0) 0) × GoodCandidate (graph_in numbers.now) result }
{
    let root = symbols::root(numbers, tables, s);
    let alias = symbols::alias_namespace(numbers, tables, root);
    if alias == 0 {
        return Candidate::Nothing;
    }
    let name = symbols::alias_name(numbers, tables, root);
    export_candidate(
        numbers,
        tables,
        name,
        linking_metadata::commonjs_of(numbers, tables, SymbolIdx(alias - 1)),
    )
}

// Whether using a target needs its owner's wrapper.
fn needs_wrapper(numbers: &[u32], tables: &[usize], t: SymbolIdx) -> bool
    requires prepared { Prepared numbers.now tables.now }
    requires t_bound { t.0 < (header_in numbers.now).symbols }
    ensures { result ≡ needs_wrapper (graph_in numbers.now) t.0 }
{
    let o = symbols::owner(numbers, tables, t);
    if !modules::is_normal(numbers, tables, o) {
        return false;
    }
    if modules::wrap(numbers, tables, o) != 2 {
        return false;
    }
    let wrapper = modules::wrapper(numbers, tables, o);
    if wrapper == 0 {
        return false;
    }
    wrapper != t.0 + 1
}

// How many candidates K12 has.
pub fn wrapper_candidates(numbers: &[u32], tables: &[usize], s: SymbolIdx) -> usize
    requires prepared { Prepared numbers.now tables.now }
    requires s_bound { s.0 < (header_in numbers.now).symbols }
    ensures { result ≡ wrapper_candidates (graph_in numbers.now) s.0 (target_of (graph_in numbers.now) s.0) }
{
    let t = linking_metadata::target_of(numbers, tables, s);
    if needs_wrapper(numbers, tables, t) {
        return 1 + keep_rules::forward_count(numbers, tables, s);
    }
    0
}

// K12, candidate k (`demand_esm_initialization`).
pub fn wrapper_candidate(numbers: &[u32], tables: &[usize], s: SymbolIdx, k: usize) -> Candidate
    requires prepared { Prepared numbers.now tables.now }
    requires s_bound { (s.0 < (header_in numbers.now).symbols) × (k < wrapper_candidates (graph_in numbers.now) s.0 (target_of (graph_in numbers.now) s.0)) }
    ensures { (result ≡ wrapper_candidate (graph_in numbers.now) s.0 (target_of (graph_in numbers.now) s.0) k) × GoodCandidate (graph_in numbers.now) result }
{
    if k == 0 {
        let t = linking_metadata::target_of(numbers, tables, s);
        let o = symbols::owner(numbers, tables, t);
        let wrapper = modules::wrapper(numbers, tables, o);
        return Candidate::Gives(Fact::Use(SymbolIdx(wrapper - 1), Reason { bits: 1 }));
    }
    keep_rules::forward_candidate(numbers, tables, s, k - 1)
}

// How many candidates K13 has.
pub fn declaration_candidates(numbers: &[u32], tables: &[usize], s: SymbolIdx) -> usize
    requires prepared { Prepared numbers.now tables.now }
    requires s_bound { s.0 < (header_in numbers.now).symbols }
    ensures { result ≡ declaration_candidates (graph_in numbers.now) (target_of (graph_in numbers.now) s.0) }
{
    let t = linking_metadata::target_of(numbers, tables, s);
    let o = symbols::owner(numbers, tables, t);
    if modules::is_normal(numbers, tables, o) {
        return symbols::declaring_count(numbers, tables, t) + 1;
    }
    0
}

// K13, candidate k.
pub fn declaration_candidate(
    numbers: &[u32],
    tables: &[usize],
    s: SymbolIdx,
    x: Reason,
    k: usize,
) -> Candidate
    requires prepared { Prepared numbers.now tables.now }
    requires s_bound { (s.0 < (header_in numbers.now).symbols) × (k < declaration_candidates (graph_in numbers.now) (target_of (graph_in numbers.now) s.0)) }
    ensures { (result ≡ declaration_candidate (graph_in numbers.now) (target_of (graph_in numbers.now) s.0) x.bits k) × GoodCandidate (graph_in numbers.now) result }
{
    let t = linking_metadata::target_of(numbers, tables, s);
    let o = symbols::owner(numbers, tables, t);
    if k < symbols::declaring_count(numbers, tables, t) {
        let i = symbols::declaring(numbers, tables, t, k);
        return Candidate::Gives(Fact::Statement(o, i));
    }
    if linking_metadata::is_namespace(numbers, tables, t) {
        if determine_side_effects::facts_crate::flag(x.bits, 4) {
            return Candidate::Nothing;
        }
    }
    Candidate::Gives(Fact::Module(o))
}

// How many candidates K14 has.
pub fn write_candidates(numbers: &[u32], tables: &[usize], s: SymbolIdx) -> usize
    requires prepared { Prepared numbers.now tables.now }
    requires s_bound { s.0 < (header_in numbers.now).symbols }
    ensures { result ≡ write_candidates (graph_in numbers.now) s.0 }
{
    if !keep_rules::option(numbers, PROPERTY_WRITES_FALSE) {
        return 0;
    }
    let o = symbols::owner(numbers, tables, s);
    if modules::is_normal(numbers, tables, o) {
        return symbols::written_count(numbers, tables, s);
    }
    0
}

// K14, candidate k (`include_property_write_referencing_stmts`).
pub fn write_candidate(numbers: &[u32], tables: &[usize], s: SymbolIdx, k: usize) -> Candidate
    requires prepared { Prepared numbers.now tables.now }
    requires s_bound { (s.0 < (header_in numbers.now).symbols) × (k < write_candidates (graph_in numbers.now) s.0) }
    ensures { (result ≡ write_candidate (graph_in numbers.now) s.0 k) × GoodCandidate (graph_in numbers.now) result }
{
    let o = symbols::owner(numbers, tables, s);
    let i = symbols::written(numbers, tables, s, k);
    Candidate::Gives(Fact::Statement(o, i))
}

// How many candidates segment j of a use has.
pub fn use_candidates(numbers: &[u32], tables: &[usize], s: SymbolIdx, x: Reason, j: usize) -> usize
    requires prepared { Prepared numbers.now tables.now }
    requires s_bound { (s.0 < (header_in numbers.now).symbols) × (j < 5) }
    ensures { result ≡ (get_or (use_segments (graph_in numbers.now) (last_verdicts (graph_in numbers.now)) s.0 x.bits) j no_segment).count }
{
    if j == 0 {
        return demand_candidates(numbers, tables, s, x);
    }
    if j == 1 {
        return 1;
    }
    if j == 2 {
        return wrapper_candidates(numbers, tables, s);
    }
    if j == 3 {
        return declaration_candidates(numbers, tables, s);
    }
    write_candidates(numbers, tables, s)
}

// What candidate k of segment j of a use gives.
pub fn use_candidate(
    numbers: &[u32],
    tables: &[usize],
    s: SymbolIdx,
    x: Reason,
    j: usize,
    k: usize,
) -> Candidate
    requires prepared { Prepared numbers.now tables.now }
    requires s_bound { (s.0 < (header_in numbers.now).symbols) × (j < 5) × (k < (get_or (use_segments (graph_in numbers.now) (last_verdicts (graph_in numbers.now)) s.0 x.bits) j no_segment).count) }
    ensures { (result ≡ (get_or (use_segments (graph_in numbers.now) (last_verdicts (graph_in numbers.now)) s.0 x.bits) j no_segment).candidate k) × GoodCandidate (graph_in numbers.now) result }
{
    if j == 0 {
        return demand_candidate(numbers, tables, s, x, StmtIdx(k));
    }
    if j == 1 {
        return alias_candidate(numbers, tables, s);
    }
    if j == 2 {
        return wrapper_candidate(numbers, tables, s, k);
    }
    if j == 3 {
        return declaration_candidate(numbers, tables, s, x, k);
    }
    write_candidate(numbers, tables, s, k)
}
