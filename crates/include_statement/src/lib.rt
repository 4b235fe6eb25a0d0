// K7 and K8: what follows from a statement (include_statement of include_statements.rs).
#![tactic(auto)]

ghost use Rattle.std.specs.Prelude.{◌≡◌, ℕ, ◌+◌, ◌-◌, ◌<◌, ◌≤◌, List, [], ◌∷◌, Bool, true, false, length, get_or, drop, ◌&&◌, eqb};
ghost use Rattle.determine_side_effects.specs.graph_tables_crate.Tables.{header_in};
ghost use Rattle.determine_side_effects.specs.graph_crate.Check.{graph_in};
ghost use Rattle.determine_side_effects.specs.Effects.{last_verdicts};
ghost use Rattle.determine_side_effects.specs.facts_crate.Facts.{Good, statement_fact, use_fact};
ghost use Rattle.determine_side_effects.specs.graph_access_crate.Words.{statement_list, statement_of, module_of, normal};
ghost use Rattle.determine_side_effects.specs.graph_access_crate.Words.{some};
ghost use Rattle.determine_side_effects.specs.graph_access_crate.Names.{import_records, import_record_target, statement_import_records, references, enum_name, enum_member, enum_members};
ghost use Rattle.determine_side_effects.specs.graph_access_crate.References.{ReferenceAt};
ghost use Rattle.keep_rules.specs.Rules.{import_record_of, bails_out, import_record_candidate, reason_of, inlined, plain_candidate, resolved_candidate, reference_candidates, reference_candidate, forwards};
ghost use Rattle.keep_rules.specs.Prepared.{Prepared, GoodCandidate};
ghost use Rattle.include_statement.specs.Here.{Here};

use determine_side_effects::facts_crate::{Fact, Reason};
use determine_side_effects::graph_access_crate::modules::{
    IS_CJS_REEXPORT, TOP_LEVEL_PURE_DYNAMIC_IMPORT,
};
use determine_side_effects::graph_access_crate::statements::REEXPORT_DYNAMIC_EXPORTS;
use determine_side_effects::graph_access_crate::{modules, statements, symbols};
use determine_side_effects::index_crate::{ImportRecordIdx, ModuleIdx, StmtIdx, SymbolIdx};
use keep_rules::Candidate;

// Whether import record e of module m, which is resolved to module t, bails out that module.
fn bails_out(
    numbers: &[u32],
    tables: &[usize],
    m: ModuleIdx,
    e: ImportRecordIdx,
    t: ModuleIdx,
) -> bool
    requires prepared { Prepared numbers.now tables.now }
    requires m_bound { (m.0 < (header_in numbers.now).modules) × (t.0 < (header_in numbers.now).modules) × (e.0 < length (import_records (module_of (graph_in numbers.now) m.0))) × (import_record_target (get_or (import_records (module_of (graph_in numbers.now) m.0)) e.0 []) ≡ t.0 + 1) }
    ensures { result ≡ bails_out (graph_in numbers.now) (last_verdicts (graph_in numbers.now)) m.0 (get_or (import_records (module_of (graph_in numbers.now) m.0)) e.0 []) }
{
    if !modules::is_normal(numbers, tables, t) {
        return false;
    }
    if modules::exports(numbers, tables, t) != 1 {
        return false;
    }
    if modules::import_record_kind(numbers, tables, m, e) == 0 {
        return false;
    }
    if determine_side_effects::facts_crate::flag(
        modules::import_record_bits(numbers, tables, m, e),
        TOP_LEVEL_PURE_DYNAMIC_IMPORT,
    ) {
        if !determine_side_effects::has_effects(numbers, tables, t) {
            return false;
        }
    }
    if !determine_side_effects::facts_crate::flag(
        modules::flags(numbers, tables, m),
        IS_CJS_REEXPORT,
    ) {
        return true;
    }
    modules::reexport_count(numbers, tables, m) > 1
}

// K7, candidate k (`scan_import_records_for_cjs_bailout`).
pub fn import_record_candidate(
    numbers: &[u32],
    tables: &[usize],
    m: ModuleIdx,
    i: StmtIdx,
    k: usize,
) -> Candidate
    requires prepared { Prepared numbers.now tables.now }
    requires m_bound { (m.0 < (header_in numbers.now).modules) × (i.0 < length (statement_list (graph_in numbers.now) m.0)) × (k < length (statement_import_records (statement_of (graph_in numbers.now) m.0 i.0))) }
    ensures { (result ≡ import_record_candidate (graph_in numbers.now) (last_verdicts (graph_in numbers.now)) m.0 i.0 k) × GoodCandidate (graph_in numbers.now) result }
{
    let e = statements::import_record(numbers, tables, m, i, k);
    let target = modules::import_record_target(numbers, tables, m, e);
    if target == 0 {
        return Candidate::Nothing;
    }
    let t = ModuleIdx(target - 1);
    if bails_out(numbers, tables, m, e, t) {
        return Candidate::Gives(Fact::Bailout(t));
    }
    Candidate::Nothing
}

// The reason of the uses that the references of statement i give.
fn include_kind(numbers: &[u32], tables: &[usize], m: ModuleIdx, i: StmtIdx) -> Reason
    requires prepared { Prepared numbers.now tables.now }
    requires m_bound { (m.0 < (header_in numbers.now).modules) × (i.0 < length (statement_list (graph_in numbers.now) m.0)) }
    ensures { (result.bits ≡ reason_of (graph_in numbers.now) m.0 i.0) × (0 < result.bits) × (result.bits < 32) }
{
    let bits = statements::bits(numbers, tables, m, i);
    let json = modules::module_type(numbers, tables, m) == 2;
    if determine_side_effects::facts_crate::flag(bits, REEXPORT_DYNAMIC_EXPORTS) {
        if json {
            return Reason { bits: 12 };
        }
        return Reason { bits: 4 };
    }
    if json {
        return Reason { bits: 9 };
    }
    Reason { bits: 1 }
}

// Whether an enum of module m by this name has this member.
fn enum_member(numbers: &[u32], tables: &[usize], m: ModuleIdx, name: usize, member: usize) -> bool
    requires prepared { Prepared numbers.now tables.now }
    requires m_bound { m.0 < (header_in numbers.now).modules }
    ensures { result ≡ some (λ e. eqb (enum_name e) name && eqb (enum_member e) member) (enum_members (module_of (graph_in numbers.now) m.0)) }
{
    let count = modules::enum_member_count(numbers, tables, m);
    for k in 0..count {
        if modules::enum_name(numbers, tables, m, k) == name {
            if modules::enum_member(numbers, tables, m, k) == member {
                return true;
            }
        }
    }
    false
}

// Whether the reference of kind 3 that stands at `place`, reference r of statement i, is an enum member that is inlined.
#[tactic(auto, using(crate::proofs::Stands::five_here))]
fn is_inlined_enum_member_access(
    numbers: &[u32],
    tables: &[usize],
    m: ModuleIdx,
    i: StmtIdx,
    r: usize,
    place: usize,
) -> bool
    requires prepared { Prepared numbers.now tables.now }
    requires here { Here numbers.now m.0 i.0 r place }
    requires place_value { get_or numbers.now place 0 ≡ 3 }
    ensures { result ≡ inlined (graph_in numbers.now) (get_or (references (statement_of (graph_in numbers.now) m.0 i.0)) r []) }
{
    let object = SymbolIdx(determine_side_effects::rows_crate::wide(numbers[place + 1]));
    let root = symbols::root(numbers, tables, object);
    let owner = symbols::owner(numbers, tables, root);
    if !modules::is_normal(numbers, tables, owner) {
        return false;
    }
    if numbers[place + 2] != 0 {
        return false;
    }
    if numbers[place + 3] != 1 {
        return false;
    }
    let name = symbols::name(numbers, tables, root);
    enum_member(
        numbers,
        tables,
        owner,
        name,
        determine_side_effects::rows_crate::wide(numbers[place + 4]),
    )
}

// How many candidates the reference that stands at `place`, reference r of statement i, has.
pub fn reference_candidates(
    numbers: &[u32],
    tables: &[usize],
    m: ModuleIdx,
    i: StmtIdx,
    r: usize,
    place: usize,
) -> usize
    requires prepared { Prepared numbers.now tables.now }
    requires here { Here numbers.now m.0 i.0 r place }
    ensures { result ≡ reference_candidates (graph_in numbers.now) (get_or (references (statement_of (graph_in numbers.now) m.0 i.0)) r []) }
{
    let kind = numbers[place];
    if kind == 1 {
        return 0;
    }
    if kind == 2 {
        return determine_side_effects::rows_crate::wide(numbers[place + 3]) + 1;
    }
    if kind == 3 {
        if is_inlined_enum_member_access(numbers, tables, m, i, r, place) {
            return 0;
        }
    }
    let s = determine_side_effects::rows_crate::wide(numbers[place + 1]);
    keep_rules::forward_count(numbers, tables, SymbolIdx(s)) + 1
}

// K8, candidate k of a resolved member.
#[tactic(auto, using(crate::proofs::Stands::parts_here))]
fn resolved_candidate(
    numbers: &[u32],
    tables: &[usize],
    m: ModuleIdx,
    i: StmtIdx,
    r: usize,
    place: usize,
    k: usize,
) -> Candidate
    requires prepared { Prepared numbers.now tables.now }
    requires here { Here numbers.now m.0 i.0 r place }
    requires place_value { (get_or numbers.now place 0 ≡ 2) × (k < reference_candidates (graph_in numbers.now) (get_or (references (statement_of (graph_in numbers.now) m.0 i.0)) r [])) }
    ensures { (result ≡ resolved_candidate (get_or (references (statement_of (graph_in numbers.now) m.0 i.0)) r []) (reason_of (graph_in numbers.now) m.0 i.0) k) × GoodCandidate (graph_in numbers.now) result }
{
    if k < determine_side_effects::rows_crate::wide(numbers[place + 3]) {
        return Candidate::Gives(Fact::Forward(SymbolIdx(determine_side_effects::rows_crate::wide(
            numbers[place + 4 + k],
        ))));
    }
    let x = include_kind(numbers, tables, m, i);
    let s = SymbolIdx(determine_side_effects::rows_crate::wide(numbers[place + 1]));
    if numbers[place + 2] == 1 {
        return Candidate::Gives(Fact::Use(s, x));
    }
    Candidate::Gives(Fact::CheckedUse(s, x))
}

// K8, candidate k of the reference that stands at `place`, reference r of statement i.
pub fn reference_candidate(
    numbers: &[u32],
    tables: &[usize],
    m: ModuleIdx,
    i: StmtIdx,
    r: usize,
    place: usize,
    k: usize,
) -> Candidate
    requires prepared { Prepared numbers.now tables.now }
    requires here { Here numbers.now m.0 i.0 r place }
    requires k_bound { k < reference_candidates (graph_in numbers.now) (get_or (references (statement_of (graph_in numbers.now) m.0 i.0)) r []) }
    ensures { (result ≡ reference_candidate (graph_in numbers.now) (reason_of (graph_in numbers.now) m.0 i.0) (get_or (references (statement_of (graph_in numbers.now) m.0 i.0)) r []) k) × GoodCandidate (graph_in numbers.now) result }
{
    if numbers[place] == 2 {
        return resolved_candidate(numbers, tables, m, i, r, place, k);
    }
    let s = SymbolIdx(determine_side_effects::rows_crate::wide(numbers[place + 1]));
    if k < keep_rules::forward_count(numbers, tables, s) {
        return keep_rules::forward_candidate(numbers, tables, s, k);
    }
    Candidate::Gives(Fact::CheckedUse(s, include_kind(numbers, tables, m, i)))
}
