// What follows from a fact by K2 to K14, as lines behind those of the record (include_statements.rs). Each rule has a loop of its own over its
// candidates, in the record's order, so that a fact's kind and rule are decided once and not for each candidate.
#![tactic(auto)]

ghost use Rattle.std.specs.Prelude.{◌≡◌, ℕ, ◌<◌, true, List, [], ◌∷◌, map, length, get_or, drop};
ghost use Rattle.determine_side_effects.specs.graph_tables_crate.Tables.{header_in};
ghost use Rattle.determine_side_effects.specs.graph_crate.Check.{graph_in};
ghost use Rattle.determine_side_effects.specs.graph_access_crate.Words.{module_of, statement_list, statement_of, normal};
ghost use Rattle.determine_side_effects.specs.graph_access_crate.Names.{dependencies, common_js_export_symbols, statement_import_records, references};
ghost use Rattle.determine_side_effects.specs.Effects.{last_verdicts};
ghost use Rattle.determine_side_effects.specs.facts_crate.Facts.{Good};
ghost use Rattle.determine_side_effects.specs.facts_crate.declared.Fact.TheVariants.{Module, Statement, Use};
ghost use Rattle.linking_metadata.specs.Namespaces.{target_of};
ghost use Rattle.keep_rules.specs.Prepared.{Prepared, GoodCandidate};
ghost use Rattle.keep_rules.specs.Rules.{segment, segments_of, module_segments, use_segments, sweep_candidate, dependency_candidate, eval_candidates, eval_candidate, export_symbol_candidate, import_record_candidate, reason_of, reference_segment, checked_candidate, demanded, demand_candidates, demand_candidate, wrapper_candidates, wrapper_candidate, declaration_candidates, declaration_candidate, write_candidates, write_candidate};
ghost use Rattle.include_statement.specs.Here.{Here};
ghost use Rattle.keep_record.specs.Lines.{adds};
ghost use Rattle.keep_record.specs.Held.{lines_of, Held, Grown};
ghost use Rattle.include_statements.specs.Following.{candidate_lines, lines_by};

use determine_side_effects::facts_crate::{Fact, Reason};
use determine_side_effects::graph_access_crate::{modules, statements};
use determine_side_effects::index_crate::{ModuleIdx, StmtIdx, SymbolIdx};
use keep_record::{Full, Line, Stage};
use keep_rules::Candidate;

// Adds the line that a candidate of a rule gives at line k, if it gives one.
fn give(
    numbers: &[u32],
    tables: &[usize],
    marks: &mut [u8],
    lines: &mut [u32],
    stage: Stage,
    rule: usize,
    candidate: Candidate,
    k: usize,
) -> Result<usize, Full>
    requires prepared { Prepared numbers.now tables.now }
    requires held { Held (graph_in numbers.now) stage.base marks.old lines.old stage.count }
    requires rule_bound { (rule < 15) × GoodCandidate (graph_in numbers.now) candidate × (k < stage.count) }
    ensures { Grown (graph_in numbers.now) stage.base (adds (graph_in numbers.now) stage.base (lines_of stage.count lines.old) (candidate_lines k rule candidate)) marks.new lines.new result }
{
    match candidate {
        Candidate::Nothing => Ok(stage.count),
        Candidate::Gives(fact) => keep_record::add(
            numbers,
            tables,
            marks,
            lines,
            stage,
            Line {
                fact,
                rule,
                because: k + 1,
                and: 0,
            },
        ),
    }
}

// K2 at line k: the statements that the module keeps by itself.
fn sweep_statements(
    numbers: &[u32],
    tables: &[usize],
    marks: &mut [u8],
    lines: &mut [u32],
    stage: Stage,
    m: ModuleIdx,
    k: usize,
) -> Result<usize, Full>
    requires prepared { Prepared numbers.now tables.now }
    requires held { Held (graph_in numbers.now) stage.base marks.old lines.old stage.count }
    requires m_bound { (m.0 < (header_in numbers.now).modules) × (k < stage.count) }
    ensures { Grown (graph_in numbers.now) stage.base (adds (graph_in numbers.now) stage.base (lines_of stage.count lines.old) (lines_by k (segment 2 (length (statement_list (graph_in numbers.now) m.0)) (sweep_candidate (graph_in numbers.now) (last_verdicts (graph_in numbers.now)) m.0) ∷ []))) marks.new lines.new result }
{
    let base = stage.base;
    let count = modules::statement_count(numbers, tables, m);
    let mut total = stage.count;
    for c in 0..count {
        let candidate = include_module::sweep_candidate(numbers, tables, m, StmtIdx(c));
        total = give(
            numbers,
            tables,
            marks,
            lines,
            Stage { base, count: total },
            2,
            candidate,
            k,
        )?;
    }
    Ok(total)
}

// K3 at line k: the dependencies that have effects.
fn include_dependencies(
    numbers: &[u32],
    tables: &[usize],
    marks: &mut [u8],
    lines: &mut [u32],
    stage: Stage,
    m: ModuleIdx,
    k: usize,
) -> Result<usize, Full>
    requires prepared { Prepared numbers.now tables.now }
    requires held { Held (graph_in numbers.now) stage.base marks.old lines.old stage.count }
    requires m_bound { (m.0 < (header_in numbers.now).modules) × (k < stage.count) }
    ensures { Grown (graph_in numbers.now) stage.base (adds (graph_in numbers.now) stage.base (lines_of stage.count lines.old) (lines_by k (segment 3 (length (dependencies (module_of (graph_in numbers.now) m.0))) (dependency_candidate (graph_in numbers.now) (last_verdicts (graph_in numbers.now)) m.0) ∷ []))) marks.new lines.new result }
{
    let base = stage.base;
    let count = modules::dependency_count(numbers, tables, m);
    let mut total = stage.count;
    for c in 0..count {
        let candidate = include_module::dependency_candidate(numbers, tables, m, c);
        total = give(
            numbers,
            tables,
            marks,
            lines,
            Stage { base, count: total },
            3,
            candidate,
            k,
        )?;
    }
    Ok(total)
}

// K4 at line k: the named imports beside eval.
fn include_named_imports(
    numbers: &[u32],
    tables: &[usize],
    marks: &mut [u8],
    lines: &mut [u32],
    stage: Stage,
    m: ModuleIdx,
    k: usize,
) -> Result<usize, Full>
    requires prepared { Prepared numbers.now tables.now }
    requires held { Held (graph_in numbers.now) stage.base marks.old lines.old stage.count }
    requires m_bound { (m.0 < (header_in numbers.now).modules) × (k < stage.count) }
    ensures { Grown (graph_in numbers.now) stage.base (adds (graph_in numbers.now) stage.base (lines_of stage.count lines.old) (lines_by k (segment 4 (eval_candidates (graph_in numbers.now) m.0) (eval_candidate (graph_in numbers.now) m.0) ∷ []))) marks.new lines.new result }
{
    let base = stage.base;
    let count = include_module::eval_candidates(numbers, tables, m);
    let mut total = stage.count;
    for c in 0..count {
        let candidate = include_module::eval_candidate(numbers, tables, m, c);
        total = give(
            numbers,
            tables,
            marks,
            lines,
            Stage { base, count: total },
            4,
            candidate,
            k,
        )?;
    }
    Ok(total)
}

// K5 at line k: the CommonJS export symbols.
fn include_export_symbols(
    numbers: &[u32],
    tables: &[usize],
    marks: &mut [u8],
    lines: &mut [u32],
    stage: Stage,
    m: ModuleIdx,
    k: usize,
) -> Result<usize, Full>
    requires prepared { Prepared numbers.now tables.now }
    requires held { Held (graph_in numbers.now) stage.base marks.old lines.old stage.count }
    requires m_bound { (m.0 < (header_in numbers.now).modules) × (k < stage.count) }
    ensures { Grown (graph_in numbers.now) stage.base (adds (graph_in numbers.now) stage.base (lines_of stage.count lines.old) (lines_by k (segment 5 (length (common_js_export_symbols (module_of (graph_in numbers.now) m.0))) (export_symbol_candidate (graph_in numbers.now) m.0) ∷ []))) marks.new lines.new result }
{
    let base = stage.base;
    let count = modules::export_symbol_count(numbers, tables, m);
    let mut total = stage.count;
    for c in 0..count {
        let candidate = include_module::export_symbol_candidate(numbers, tables, m, c);
        total = give(
            numbers,
            tables,
            marks,
            lines,
            Stage { base, count: total },
            5,
            candidate,
            k,
        )?;
    }
    Ok(total)
}

// K5 and K6 at line k: the CommonJS export symbols, and the namespace statement in dev mode.
fn include_exports(
    numbers: &[u32],
    tables: &[usize],
    marks: &mut [u8],
    lines: &mut [u32],
    stage: Stage,
    m: ModuleIdx,
    k: usize,
) -> Result<usize, Full>
    requires prepared { Prepared numbers.now tables.now }
    requires held { Held (graph_in numbers.now) stage.base marks.old lines.old stage.count }
    requires m_bound { (m.0 < (header_in numbers.now).modules) × (normal (graph_in numbers.now) m.0 ≡ true) × (k < stage.count) }
    ensures { Grown (graph_in numbers.now) stage.base (adds (graph_in numbers.now) stage.base (lines_of stage.count lines.old) (lines_by k (drop 3 (module_segments (graph_in numbers.now) (last_verdicts (graph_in numbers.now)) m.0)))) marks.new lines.new result }
{
    let base = stage.base;
    let n1 = include_export_symbols(numbers, tables, marks, lines, stage, m, k)?;
    give(
        numbers,
        tables,
        marks,
        lines,
        Stage { base, count: n1 },
        6,
        include_module::dev_candidate(numbers, tables, m),
        k,
    )
}

// K3 to K6 at line k.
fn include_imports(
    numbers: &[u32],
    tables: &[usize],
    marks: &mut [u8],
    lines: &mut [u32],
    stage: Stage,
    m: ModuleIdx,
    k: usize,
) -> Result<usize, Full>
    requires prepared { Prepared numbers.now tables.now }
    requires held { Held (graph_in numbers.now) stage.base marks.old lines.old stage.count }
    requires m_bound { (m.0 < (header_in numbers.now).modules) × (normal (graph_in numbers.now) m.0 ≡ true) × (k < stage.count) }
    ensures { Grown (graph_in numbers.now) stage.base (adds (graph_in numbers.now) stage.base (lines_of stage.count lines.old) (lines_by k (drop 1 (module_segments (graph_in numbers.now) (last_verdicts (graph_in numbers.now)) m.0)))) marks.new lines.new result }
{
    let base = stage.base;
    let n1 = include_dependencies(numbers, tables, marks, lines, stage, m, k)?;
    let n2 = include_named_imports(
        numbers,
        tables,
        marks,
        lines,
        Stage { base, count: n1 },
        m,
        k,
    )?;
    include_exports(
        numbers,
        tables,
        marks,
        lines,
        Stage { base, count: n2 },
        m,
        k,
    )
}

// K2 to K6 at line k.
fn follow_module(
    numbers: &[u32],
    tables: &[usize],
    marks: &mut [u8],
    lines: &mut [u32],
    stage: Stage,
    m: ModuleIdx,
    k: usize,
) -> Result<usize, Full>
    requires prepared { Prepared numbers.now tables.now }
    requires held { Held (graph_in numbers.now) stage.base marks.old lines.old stage.count }
    requires m_bound { (m.0 < (header_in numbers.now).modules) × (normal (graph_in numbers.now) m.0 ≡ true) × (k < stage.count) }
    ensures { Grown (graph_in numbers.now) stage.base (adds (graph_in numbers.now) stage.base (lines_of stage.count lines.old) (lines_by k (segments_of (graph_in numbers.now) (last_verdicts (graph_in numbers.now)) (Module m)))) marks.new lines.new result }
{
    if include_module::is_quiet_runtime(numbers, tables, m) {
        return Ok(stage.count);
    }
    let base = stage.base;
    let n1 = sweep_statements(numbers, tables, marks, lines, stage, m, k)?;
    include_imports(
        numbers,
        tables,
        marks,
        lines,
        Stage { base, count: n1 },
        m,
        k,
    )
}

// K7 at line k: the modules that import records bail out.
fn scan_import_records(
    numbers: &[u32],
    tables: &[usize],
    marks: &mut [u8],
    lines: &mut [u32],
    stage: Stage,
    m: ModuleIdx,
    i: StmtIdx,
    k: usize,
) -> Result<usize, Full>
    requires prepared { Prepared numbers.now tables.now }
    requires held { Held (graph_in numbers.now) stage.base marks.old lines.old stage.count }
    requires m_bound { (m.0 < (header_in numbers.now).modules) × (i.0 < length (statement_list (graph_in numbers.now) m.0)) × (k < stage.count) }
    ensures { Grown (graph_in numbers.now) stage.base (adds (graph_in numbers.now) stage.base (lines_of stage.count lines.old) (lines_by k (segment 7 (length (statement_import_records (statement_of (graph_in numbers.now) m.0 i.0))) (import_record_candidate (graph_in numbers.now) (last_verdicts (graph_in numbers.now)) m.0 i.0) ∷ []))) marks.new lines.new result }
{
    let base = stage.base;
    let count = statements::import_record_count(numbers, tables, m, i);
    let mut total = stage.count;
    for c in 0..count {
        let candidate = include_statement::import_record_candidate(numbers, tables, m, i, c);
        total = give(
            numbers,
            tables,
            marks,
            lines,
            Stage { base, count: total },
            7,
            candidate,
            k,
        )?;
    }
    Ok(total)
}

// K8 at line k: what the reference that stands at `place`, reference j of the statement, gives.
fn include_reference(
    numbers: &[u32],
    tables: &[usize],
    marks: &mut [u8],
    lines: &mut [u32],
    stage: Stage,
    m: ModuleIdx,
    i: StmtIdx,
    j: usize,
    place: usize,
    k: usize,
) -> Result<usize, Full>
    requires prepared { Prepared numbers.now tables.now }
    requires held { Held (graph_in numbers.now) stage.base marks.old lines.old stage.count }
    requires here { Here numbers.now m.0 i.0 j place × (k < stage.count) }
    ensures { Grown (graph_in numbers.now) stage.base (adds (graph_in numbers.now) stage.base (lines_of stage.count lines.old) (lines_by k (reference_segment (graph_in numbers.now) (reason_of (graph_in numbers.now) m.0 i.0) (get_or (references (statement_of (graph_in numbers.now) m.0 i.0)) j []) ∷ []))) marks.new lines.new result }
{
    let base = stage.base;
    let count = include_statement::reference_candidates(numbers, tables, m, i, j, place);
    let mut total = stage.count;
    for c in 0..count {
        let candidate = include_statement::reference_candidate(numbers, tables, m, i, j, place, c);
        total = give(
            numbers,
            tables,
            marks,
            lines,
            Stage { base, count: total },
            8,
            candidate,
            k,
        )?;
    }
    Ok(total)
}

// K8 at line k: the references of the statement in their order.
fn include_references(
    numbers: &[u32],
    tables: &[usize],
    marks: &mut [u8],
    lines: &mut [u32],
    stage: Stage,
    m: ModuleIdx,
    i: StmtIdx,
    k: usize,
) -> Result<usize, Full>
    requires prepared { Prepared numbers.now tables.now }
    requires held { Held (graph_in numbers.now) stage.base marks.old lines.old stage.count }
    requires m_bound { (m.0 < (header_in numbers.now).modules) × (i.0 < length (statement_list (graph_in numbers.now) m.0)) × (k < stage.count) }
    ensures { Grown (graph_in numbers.now) stage.base (adds (graph_in numbers.now) stage.base (lines_of stage.count lines.old) (lines_by k (map (reference_segment (graph_in numbers.now) (reason_of (graph_in numbers.now) m.0 i.0)) (references (statement_of (graph_in numbers.now) m.0 i.0))))) marks.new lines.new result }
{
    let base = stage.base;
    let count = statements::reference_count(numbers, tables, m, i);
    let mut place = statements::first_reference(numbers, tables, m, i);
    let mut total = stage.count;
    for r in 0..count {
        total = include_reference(
            numbers,
            tables,
            marks,
            lines,
            Stage { base, count: total },
            m,
            i,
            r,
            place,
            k,
        )?;
        place += statements::reference_width(numbers, place);
    }
    Ok(total)
}

// K7 and K8 at line k.
fn follow_statement(
    numbers: &[u32],
    tables: &[usize],
    marks: &mut [u8],
    lines: &mut [u32],
    stage: Stage,
    m: ModuleIdx,
    i: StmtIdx,
    k: usize,
) -> Result<usize, Full>
    requires prepared { Prepared numbers.now tables.now }
    requires held { Held (graph_in numbers.now) stage.base marks.old lines.old stage.count }
    requires m_bound { (m.0 < (header_in numbers.now).modules) × (i.0 < length (statement_list (graph_in numbers.now) m.0)) × (k < stage.count) }
    ensures { Grown (graph_in numbers.now) stage.base (adds (graph_in numbers.now) stage.base (lines_of stage.count lines.old) (lines_by k (segments_of (graph_in numbers.now) (last_verdicts (graph_in numbers.now)) (Statement m i)))) marks.new lines.new result }
{
    let base = stage.base;
    let n1 = scan_import_records(numbers, tables, marks, lines, stage, m, i, k)?;
    include_references(
        numbers,
        tables,
        marks,
        lines,
        Stage { base, count: n1 },
        m,
        i,
        k,
    )
}

// K9 at line k: the use itself, and the modules that it bails out.
fn follow_checked_use(
    numbers: &[u32],
    tables: &[usize],
    marks: &mut [u8],
    lines: &mut [u32],
    stage: Stage,
    s: SymbolIdx,
    x: Reason,
    k: usize,
) -> Result<usize, Full>
    requires prepared { Prepared numbers.now tables.now }
    requires held { Held (graph_in numbers.now) stage.base marks.old lines.old stage.count }
    requires s_bound { (s.0 < (header_in numbers.now).symbols) × (0 < x.bits) × (x.bits < 32) × (k < stage.count) }
    ensures { Grown (graph_in numbers.now) stage.base (adds (graph_in numbers.now) stage.base (lines_of stage.count lines.old) (lines_by k (segment 9 (4) (checked_candidate (graph_in numbers.now) s.0 x.bits) ∷ []))) marks.new lines.new result }
{
    let base = stage.base;
    let mut total = stage.count;
    for c in 0..4 {
        let candidate = include_symbol::checked_candidate(numbers, tables, s, x, c);
        total = give(
            numbers,
            tables,
            marks,
            lines,
            Stage { base, count: total },
            9,
            candidate,
            k,
        )?;
    }
    Ok(total)
}

// K10 at line k: the gated statements of the body that the use demands.
fn demand_body(
    numbers: &[u32],
    tables: &[usize],
    marks: &mut [u8],
    lines: &mut [u32],
    stage: Stage,
    s: SymbolIdx,
    x: Reason,
    k: usize,
) -> Result<usize, Full>
    requires prepared { Prepared numbers.now tables.now }
    requires held { Held (graph_in numbers.now) stage.base marks.old lines.old stage.count }
    requires s_bound { (s.0 < (header_in numbers.now).symbols) × (k < stage.count) }
    ensures { Grown (graph_in numbers.now) stage.base (adds (graph_in numbers.now) stage.base (lines_of stage.count lines.old) (lines_by k (segment 10 (demand_candidates (graph_in numbers.now) (demanded (graph_in numbers.now) (last_verdicts (graph_in numbers.now)) s.0 x.bits)) (demand_candidate (graph_in numbers.now) (demanded (graph_in numbers.now) (last_verdicts (graph_in numbers.now)) s.0 x.bits)) ∷ []))) marks.new lines.new result }
{
    let base = stage.base;
    let count = include_symbol::demand_candidates(numbers, tables, s, x);
    let mut total = stage.count;
    for c in 0..count {
        let candidate = include_symbol::demand_candidate(numbers, tables, s, x, StmtIdx(c));
        total = give(
            numbers,
            tables,
            marks,
            lines,
            Stage { base, count: total },
            10,
            candidate,
            k,
        )?;
    }
    Ok(total)
}

// K12 at line k: the wrapper of the target's owner, and the forwards.
fn demand_wrapper(
    numbers: &[u32],
    tables: &[usize],
    marks: &mut [u8],
    lines: &mut [u32],
    stage: Stage,
    s: SymbolIdx,
    k: usize,
) -> Result<usize, Full>
    requires prepared { Prepared numbers.now tables.now }
    requires held { Held (graph_in numbers.now) stage.base marks.old lines.old stage.count }
    requires s_bound { (s.0 < (header_in numbers.now).symbols) × (k < stage.count) }
    ensures { Grown (graph_in numbers.now) stage.base (adds (graph_in numbers.now) stage.base (lines_of stage.count lines.old) (lines_by k (segment 12 (wrapper_candidates (graph_in numbers.now) s.0 (target_of (graph_in numbers.now) s.0)) (wrapper_candidate (graph_in numbers.now) s.0 (target_of (graph_in numbers.now) s.0)) ∷ []))) marks.new lines.new result }
{
    let base = stage.base;
    let count = include_symbol::wrapper_candidates(numbers, tables, s);
    let mut total = stage.count;
    for c in 0..count {
        let candidate = include_symbol::wrapper_candidate(numbers, tables, s, c);
        total = give(
            numbers,
            tables,
            marks,
            lines,
            Stage { base, count: total },
            12,
            candidate,
            k,
        )?;
    }
    Ok(total)
}

// K13 at line k: what declares the target, and its owner.
fn include_declarations(
    numbers: &[u32],
    tables: &[usize],
    marks: &mut [u8],
    lines: &mut [u32],
    stage: Stage,
    s: SymbolIdx,
    x: Reason,
    k: usize,
) -> Result<usize, Full>
    requires prepared { Prepared numbers.now tables.now }
    requires held { Held (graph_in numbers.now) stage.base marks.old lines.old stage.count }
    requires s_bound { (s.0 < (header_in numbers.now).symbols) × (k < stage.count) }
    ensures { Grown (graph_in numbers.now) stage.base (adds (graph_in numbers.now) stage.base (lines_of stage.count lines.old) (lines_by k (segment 13 (declaration_candidates (graph_in numbers.now) (target_of (graph_in numbers.now) s.0)) (declaration_candidate (graph_in numbers.now) (target_of (graph_in numbers.now) s.0) x.bits) ∷ []))) marks.new lines.new result }
{
    let base = stage.base;
    let count = include_symbol::declaration_candidates(numbers, tables, s);
    let mut total = stage.count;
    for c in 0..count {
        let candidate = include_symbol::declaration_candidate(numbers, tables, s, x, c);
        total = give(
            numbers,
            tables,
            marks,
            lines,
            Stage { base, count: total },
            13,
            candidate,
            k,
        )?;
    }
    Ok(total)
}

// K14 at line k: the statements that write its properties.
fn include_writes(
    numbers: &[u32],
    tables: &[usize],
    marks: &mut [u8],
    lines: &mut [u32],
    stage: Stage,
    s: SymbolIdx,
    k: usize,
) -> Result<usize, Full>
    requires prepared { Prepared numbers.now tables.now }
    requires held { Held (graph_in numbers.now) stage.base marks.old lines.old stage.count }
    requires s_bound { (s.0 < (header_in numbers.now).symbols) × (k < stage.count) }
    ensures { Grown (graph_in numbers.now) stage.base (adds (graph_in numbers.now) stage.base (lines_of stage.count lines.old) (lines_by k (segment 14 (write_candidates (graph_in numbers.now) s.0) (write_candidate (graph_in numbers.now) s.0) ∷ []))) marks.new lines.new result }
{
    let base = stage.base;
    let count = include_symbol::write_candidates(numbers, tables, s);
    let mut total = stage.count;
    for c in 0..count {
        let candidate = include_symbol::write_candidate(numbers, tables, s, c);
        total = give(
            numbers,
            tables,
            marks,
            lines,
            Stage { base, count: total },
            14,
            candidate,
            k,
        )?;
    }
    Ok(total)
}

// K12 to K14 at line k, by the target and its owner.
fn include_target(
    numbers: &[u32],
    tables: &[usize],
    marks: &mut [u8],
    lines: &mut [u32],
    stage: Stage,
    s: SymbolIdx,
    x: Reason,
    k: usize,
) -> Result<usize, Full>
    requires prepared { Prepared numbers.now tables.now }
    requires held { Held (graph_in numbers.now) stage.base marks.old lines.old stage.count }
    requires s_bound { (s.0 < (header_in numbers.now).symbols) × (0 < x.bits) × (x.bits < 32) × (k < stage.count) }
    ensures { Grown (graph_in numbers.now) stage.base (adds (graph_in numbers.now) stage.base (lines_of stage.count lines.old) (lines_by k (drop 2 (use_segments (graph_in numbers.now) (last_verdicts (graph_in numbers.now)) s.0 x.bits)))) marks.new lines.new result }
{
    let base = stage.base;
    let n1 = demand_wrapper(numbers, tables, marks, lines, stage, s, k)?;
    let n2 = include_declarations(
        numbers,
        tables,
        marks,
        lines,
        Stage { base, count: n1 },
        s,
        x,
        k,
    )?;
    include_writes(
        numbers,
        tables,
        marks,
        lines,
        Stage { base, count: n2 },
        s,
        k,
    )
}

// K10 to K14 at line k.
fn follow_use(
    numbers: &[u32],
    tables: &[usize],
    marks: &mut [u8],
    lines: &mut [u32],
    stage: Stage,
    s: SymbolIdx,
    x: Reason,
    k: usize,
) -> Result<usize, Full>
    requires prepared { Prepared numbers.now tables.now }
    requires held { Held (graph_in numbers.now) stage.base marks.old lines.old stage.count }
    requires s_bound { (s.0 < (header_in numbers.now).symbols) × (0 < x.bits) × (x.bits < 32) × (k < stage.count) }
    ensures { Grown (graph_in numbers.now) stage.base (adds (graph_in numbers.now) stage.base (lines_of stage.count lines.old) (lines_by k (segments_of (graph_in numbers.now) (last_verdicts (graph_in numbers.now)) (Use s x)))) marks.new lines.new result }
{
    if include_symbol::is_bypassed_inlined_constant(numbers, tables, s, x) {
        return Ok(stage.count);
    }
    let base = stage.base;
    let n1 = demand_body(numbers, tables, marks, lines, stage, s, x, k)?;
    let n2 = give(
        numbers,
        tables,
        marks,
        lines,
        Stage { base, count: n1 },
        11,
        include_symbol::alias_candidate(numbers, tables, s),
        k,
    )?;
    include_target(
        numbers,
        tables,
        marks,
        lines,
        Stage { base, count: n2 },
        s,
        x,
        k,
    )
}

// K2 to K14 at line k, which has this fact.
pub fn follow(
    numbers: &[u32],
    tables: &[usize],
    marks: &mut [u8],
    lines: &mut [u32],
    stage: Stage,
    fact: Fact,
    k: usize,
) -> Result<usize, Full>
    requires prepared { Prepared numbers.now tables.now }
    requires held { Held (graph_in numbers.now) stage.base marks.old lines.old stage.count }
    requires good { Good (graph_in numbers.now) fact × (k < stage.count) }
    ensures { Grown (graph_in numbers.now) stage.base (adds (graph_in numbers.now) stage.base (lines_of stage.count lines.old) (lines_by k (segments_of (graph_in numbers.now) (last_verdicts (graph_in numbers.now)) fact))) marks.new lines.new result }
{
    match fact {
        Fact::Module(m) => follow_module(numbers, tables, marks, lines, stage, m, k),
        Fact::Statement(m, i) => follow_statement(numbers, tables, marks, lines, stage, m, i, k),
        Fact::CheckedUse(s, x) => follow_checked_use(numbers, tables, marks, lines, stage, s, x, k),
        Fact::Use(s, x) => follow_use(numbers, tables, marks, lines, stage, s, x, k),
        Fact::Forward(_) => Ok(stage.count),
        Fact::Bailout(_) => Ok(stage.count),
    }
}
