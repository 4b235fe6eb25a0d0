// Passes around the rounds: the exports of bailed out CommonJS modules, runtime helpers (passes.rs).
#![tactic(auto)]

ghost use Rattle.std.specs.Prelude.{◌≡◌, ℕ, ◌+◌, ◌*◌, ◌<◌, ◌≤◌, Bool, ◌&&◌, List, [], ◌∷◌, map, length, get_or, drop};
ghost use Rattle.determine_side_effects.specs.graph_tables_crate.Tables.{header_in};
ghost use Rattle.determine_side_effects.specs.graph_crate.Check.{graph_in};
ghost use Rattle.determine_side_effects.specs.graph_access_crate.Names.{resolved_exports, only};
ghost use Rattle.determine_side_effects.specs.graph_access_crate.Words.{flag, some, tabulate, module_of};
ghost use Rattle.determine_side_effects.specs.facts_crate.Facts.{module_fact, use_fact, mark_count};
ghost use Rattle.determine_side_effects.specs.Effects.{last_verdicts};
ghost use Rattle.keep_rules.specs.Prepared.{Prepared};
ghost use Rattle.keep_record.specs.Held.{lines_of};
ghost use Rattle.marked.specs.Marked.{marked};
ghost use Rattle.entry_order.specs.Order.{those};
ghost use Rattle.entry_order.specs.Plan.{words_at, plan_size, Untouched};
ghost use Rattle.entry_starts.specs.Working.{Working, Started};
ghost use Rattle.passes.specs.Bailouts.{export_starts, bailouts_starts};
ghost use Rattle.passes.specs.Helpers.{has_all, needs_helper, helper_word, helper_union, runtime_starts};

use determine_side_effects::facts_crate::{Fact, Reason};
use determine_side_effects::graph_access_crate::{helpers, modules};
use determine_side_effects::index_crate::ModuleIdx;
use keep_record::{Full, Stage};

// Uses the exports from CommonJS of module m.
fn include_cjs_exports(
    numbers: &[u32],
    tables: &[usize],
    partners: &mut [usize],
    marks: &mut [u8],
    lines: &mut [u32],
    count: usize,
    m: ModuleIdx,
) -> Result<usize, Full>
    requires prepared { Prepared numbers.now tables.now }
    requires working { Working (graph_in numbers.now) 0 partners.old marks.old lines.old count }
    requires m_bound { m.0 < (header_in numbers.now).modules }
    ensures { Started (graph_in numbers.now) 0 (export_starts (resolved_exports (module_of (graph_in numbers.now) m.0))) (lines_of count lines.old) partners.new marks.new lines.new result }
{
    let exports = modules::resolved_export_count(numbers, tables, m);
    let mut total = count;
    for k in 0..exports {
        if modules::resolved_export_from_commonjs(numbers, tables, m, k) == 1 {
            let s = modules::resolved_export_symbol(numbers, tables, m, k);
            total = entry_starts::start_one(
                numbers,
                tables,
                partners,
                marks,
                lines,
                Stage {
                    base: 0,
                    count: total,
                },
                Fact::CheckedUse(s, Reason { bits: 1 }),
            )?;
        }
    }
    Ok(total)
}

// Uses the exports from CommonJS of the modules that the lines from number `taken` on bail out. Lines that come to them meanwhile wait for the
// next round.
pub fn include_cjs_bailout_exports(
    numbers: &[u32],
    tables: &[usize],
    partners: &mut [usize],
    marks: &mut [u8],
    lines: &mut [u32],
    count: usize,
    taken: usize,
) -> Result<usize, Full>
    requires prepared { Prepared numbers.now tables.now }
    requires working { Working (graph_in numbers.now) 0 partners.old marks.old lines.old count }
    requires taken_le_count { taken ≤ count }
    ensures { Started (graph_in numbers.now) 0 (bailouts_starts (graph_in numbers.now) (drop taken (lines_of count lines.old))) (lines_of count lines.old) partners.new marks.new lines.new result }
{
    let mut total = count;
    for k in taken..count {
        let fact = keep_record::fact_at(lines, k);
        if determine_side_effects::facts_crate::kind_of(fact) == 6 {
            let m = ModuleIdx(determine_side_effects::facts_crate::first_part(fact));
            total = include_cjs_exports(numbers, tables, partners, marks, lines, total, m)?;
        }
    }
    Ok(total)
}

// Whether module m has all its listed helpers: it is not kept, and not the runtime.
fn has_all(numbers: &[u32], tables: &[usize], marks: &[u8], m: ModuleIdx) -> bool
    requires prepared { Prepared numbers.now tables.now }
    requires m_bound { (m.0 < (header_in numbers.now).modules) × (mark_count (graph_in numbers.now) ≤ 8 * length marks.now) }
    ensures { result ≡ has_all (graph_in numbers.now) (marked (graph_in numbers.now) marks.now) m.0 }
{
    let h = determine_side_effects::graph_crate::header_of(numbers);
    if m.0 == h.runtime {
        return false;
    }
    !bit_row::test(marks, m.0)
}

// Whether module m needs helper `helper`; `all` says that it has all its listed ones.
fn needs_helper(
    numbers: &[u32],
    tables: &[usize],
    marks: &[u8],
    m: ModuleIdx,
    helper: usize,
    all: bool,
) -> bool
    requires prepared { Prepared numbers.now tables.now }
    requires m_bound { (m.0 < (header_in numbers.now).modules) × (mark_count (graph_in numbers.now) ≤ 8 * length marks.now) }
    requires all_value { all ≡ has_all (graph_in numbers.now) (marked (graph_in numbers.now) marks.now) m.0 }
    ensures { result ≡ needs_helper (graph_in numbers.now) (marked (graph_in numbers.now) marks.now) m.0 helper }
{
    let rows = modules::helper_count(numbers, tables, m);
    for k in 0..rows {
        if modules::helper(numbers, tables, m, k) == helper {
            if all {
                return true;
            }
            let i = modules::helper_statement(numbers, tables, m, k);
            if marked::is_marked(numbers, tables, marks, Fact::Statement(m, i)) {
                return true;
            }
        }
    }
    false
}

// The helpers that module m needs, bit h for helper h.
fn helper_word(numbers: &[u32], tables: &[usize], marks: &[u8], m: ModuleIdx) -> usize
    requires prepared { Prepared numbers.now tables.now }
    requires m_bound { (m.0 < (header_in numbers.now).modules) × (mark_count (graph_in numbers.now) ≤ 8 * length marks.now) }
    ensures { (result ≡ helper_word (graph_in numbers.now) (marked (graph_in numbers.now) marks.now) m.0) × (result < 4294967296) }
{
    let h = determine_side_effects::graph_crate::header_of(numbers);
    if h.helpers == 0 {
        return 0;
    }
    if modules::helper_count(numbers, tables, m) == 0 {
        return 0;
    }
    let all = has_all(numbers, tables, marks, m);
    let mut word: usize = 0;
    for k in 0..h.helpers {
        if needs_helper(numbers, tables, marks, m, k, all) {
            word += 1usize << k;
        }
    }
    word
}

// Writes each module's word of helpers into the plan.
pub fn collect_helpers(numbers: &[u32], tables: &[usize], marks: &[u8], plan: &mut [usize])
    requires prepared { Prepared numbers.now tables.now }
    requires numbers_bound { (mark_count (graph_in numbers.now) ≤ 8 * length marks.now) × (plan_size (header_in numbers.now) ≤ length plan.old) }
    ensures by_index { (m : ℕ) → m < (header_in numbers.now).modules → (get_or plan.new (words_at (header_in numbers.now) + m) 0 ≡ helper_word (graph_in numbers.now) (marked (graph_in numbers.now) marks.now) m) × (get_or plan.new (words_at (header_in numbers.now) + m) 0 < 4294967296) }
    ensures untouched { Untouched (words_at (header_in numbers.now)) (plan_size (header_in numbers.now)) plan.old plan.new }
{
    let h = determine_side_effects::graph_crate::header_of(numbers);
    let at = entry_order::words_at(h);
    for m in 0..h.modules {
        plan[at + m] = helper_word(numbers, tables, marks, ModuleIdx(m));
    }
}

// Whether a kept module needs helper `helper`, by the words of the plan.
fn is_needed(numbers: &[u32], tables: &[usize], marks: &[u8], plan: &[usize], helper: usize) -> bool
    requires prepared { Prepared numbers.now tables.now }
    requires numbers_bound { (mark_count (graph_in numbers.now) ≤ 8 * length marks.now) × (plan_size (header_in numbers.now) ≤ length plan.now) × (helper < 32) }
    requires by_index { (m : ℕ) → m < (header_in numbers.now).modules → get_or plan.now (words_at (header_in numbers.now) + m) 0 ≡ helper_word (graph_in numbers.now) (marked (graph_in numbers.now) marks.now) m }
    ensures { result ≡ some (λ m. marked (graph_in numbers.now) marks.now (module_fact m) && flag helper (helper_word (graph_in numbers.now) (marked (graph_in numbers.now) marks.now) m)) (tabulate (λ m. m) 0 (header_in numbers.now).modules) }
{
    let h = determine_side_effects::graph_crate::header_of(numbers);
    let at = entry_order::words_at(h);
    for m in 0..h.modules {
        if determine_side_effects::facts_crate::flag(plan[at + m], helper) {
            if bit_row::test(marks, m) {
                return true;
            }
        }
    }
    false
}

// The helpers of all kept modules, united.
pub fn collect_depended_runtime_helpers(
    numbers: &[u32],
    tables: &[usize],
    marks: &[u8],
    plan: &[usize],
) -> usize
    requires prepared { Prepared numbers.now tables.now }
    requires numbers_bound { (mark_count (graph_in numbers.now) ≤ 8 * length marks.now) × (plan_size (header_in numbers.now) ≤ length plan.now) }
    requires by_index { (m : ℕ) → m < (header_in numbers.now).modules → get_or plan.now (words_at (header_in numbers.now) + m) 0 ≡ helper_word (graph_in numbers.now) (marked (graph_in numbers.now) marks.now) m }
    ensures { result ≡ helper_union (graph_in numbers.now) (marked (graph_in numbers.now) marks.now) }
{
    let h = determine_side_effects::graph_crate::header_of(numbers);
    let mut word: usize = 0;
    for k in 0..h.helpers {
        if is_needed(numbers, tables, marks, plan, k) {
            word += 1usize << k;
        }
    }
    word
}

// Starts the symbols of the helpers of a word, ascending.
fn include_helpers(
    numbers: &[u32],
    tables: &[usize],
    partners: &mut [usize],
    marks: &mut [u8],
    lines: &mut [u32],
    stage: Stage,
    word: usize,
) -> Result<usize, Full>
    requires prepared { Prepared numbers.now tables.now }
    requires working { Working (graph_in numbers.now) stage.base partners.old marks.old lines.old stage.count }
    ensures { Started (graph_in numbers.now) stage.base (map (λ h. use_fact (only (get_or (graph_in numbers.now).helpers h [])) 1) (those (λ h. flag h word) (tabulate (λ h. h) 0 (header_in numbers.now).helpers))) (lines_of stage.count lines.old) partners.new marks.new lines.new result }
{
    let h = determine_side_effects::graph_crate::header_of(numbers);
    let base = stage.base;
    let mut total = stage.count;
    for k in 0..h.helpers {
        if determine_side_effects::facts_crate::flag(word, k) {
            let s = helpers::helper_symbol(numbers, tables, k);
            total = entry_starts::start_one(
                numbers,
                tables,
                partners,
                marks,
                lines,
                Stage { base, count: total },
                Fact::Use(s, Reason { bits: 1 }),
            )?;
        }
    }
    Ok(total)
}

// Starts what the runtime stage starts: the helpers of a word; with none the runtime, if it has effects.
pub fn include_runtime_symbol(
    numbers: &[u32],
    tables: &[usize],
    partners: &mut [usize],
    marks: &mut [u8],
    lines: &mut [u32],
    stage: Stage,
    word: usize,
) -> Result<usize, Full>
    requires prepared { Prepared numbers.now tables.now }
    requires working { Working (graph_in numbers.now) stage.base partners.old marks.old lines.old stage.count }
    ensures { Started (graph_in numbers.now) stage.base (runtime_starts (graph_in numbers.now) (last_verdicts (graph_in numbers.now)) word) (lines_of stage.count lines.old) partners.new marks.new lines.new result }
{
    if word > 0 {
        return include_helpers(numbers, tables, partners, marks, lines, stage, word);
    }
    let h = determine_side_effects::graph_crate::header_of(numbers);
    let runtime = ModuleIdx(h.runtime);
    if !determine_side_effects::has_effects(numbers, tables, runtime) {
        return Ok(stage.count);
    }
    entry_starts::start_one(
        numbers,
        tables,
        partners,
        marks,
        lines,
        stage,
        Fact::Module(runtime),
    )
}
