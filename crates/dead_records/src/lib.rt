// The row of dead import records: those that the tries of dynamic entries marked, or, with options bit 6, those that are dead after the last round.
#![tactic(auto)]

ghost use Rattle.std.specs.Prelude.{◌≡◌, ℕ, ◌+◌, ◌*◌, ◌<◌, ◌≤◌, ◌||◌, ◌&&◌, not, List, [], length, get_or};
ghost use Rattle.bit_row.specs.Row.{bit_at, bytes_for};
ghost use Rattle.determine_side_effects.specs.graph_tables_crate.Tables.{header_in};
ghost use Rattle.determine_side_effects.specs.graph_crate.Check.{graph_in};
ghost use Rattle.determine_side_effects.specs.graph_crate.Loaded.{Loaded};
ghost use Rattle.determine_side_effects.specs.graph_access_crate.Names.{related};
ghost use Rattle.determine_side_effects.specs.graph_access_crate.Words.{entry_of, some, statement_list};
ghost use Rattle.determine_side_effects.specs.facts_crate.Facts.{statement_fact, Good};
ghost use Rattle.determine_side_effects.specs.Effects.{last_verdicts};
ghost use Rattle.keep_rules.specs.Prepared.{Prepared};
ghost use Rattle.keep_record.specs.Lines.{elem, has};
ghost use Rattle.keep_record.specs.Held.{line_at, lines_of};
ghost use Rattle.entry_order.specs.Order.{module_of_entry, is_dynamic};
ghost use Rattle.entry_order.specs.Plan.{live_in, dead_in, plan_size};
ghost use Rattle.dynamic_entries.specs.Alive.{uses_no_export, lets_live, is_alive, dead_of};
ghost use Rattle.dead_records.specs.Dead.{record_count, is_dead_record, dead_now, exempts, exempted, dead_row};
ghost use Rattle.dead_records.specs.Parts.{HasFirsts, lines_between, HasLate, kept_before, WordsFit, HasCycles, AfterStages};

use determine_side_effects::facts_crate::Fact;
use determine_side_effects::graph_access_crate::modules::DYNAMIC_IMPORTS_USE_NO_EXPORT;
use determine_side_effects::graph_access_crate::{entries, modules};
use determine_side_effects::index_crate::{EntryIdx, ModuleIdx, StmtIdx};

// The bit of the options by which dead records are worked out after the last round.
const DEAD_AFTER_ROUNDS: usize = 6;

// How many import records all modules have.
pub fn record_count(numbers: &[u32], tables: &[usize]) -> usize
    requires { Loaded numbers.now tables.now }
    ensures { (result ≡ record_count (graph_in numbers.now)) × (result ≤ 16777216) }
{
    let h = determine_side_effects::graph_crate::header_of(numbers);
    let mut total: usize = 0;
    for m in 0..h.modules {
        total += modules::import_record_count(numbers, tables, ModuleIdx(m));
    }
    total
}

// Fills the first words of a row with the number of each module's first import record among all.
fn fill_first_records(numbers: &[u32], tables: &[usize], firsts: &mut [usize])
    requires loaded { Loaded numbers.now tables.now }
    requires numbers_in_bounds { (header_in numbers.now).modules ≤ length firsts.old }
    ensures { HasFirsts (graph_in numbers.now) firsts.new }
{
    let h = determine_side_effects::graph_crate::header_of(numbers);
    let mut total: usize = 0;
    for m in 0..h.modules {
        firsts[m] = total;
        total += modules::import_record_count(numbers, tables, ModuleIdx(m));
    }
}

// Sets the bits of the import records that a try which finds entry e dead marks.
fn show_dead_of(numbers: &[u32], tables: &[usize], firsts: &[usize], e: EntryIdx, bits: &mut [u8])
    requires prepared { Prepared numbers.now tables.now }
    requires e_bound { (e.0 < (header_in numbers.now).entries) × (record_count (graph_in numbers.now) ≤ 8 * length bits.old) }
    requires numbers_in_bounds { ((header_in numbers.now).modules ≤ length firsts.now) × HasFirsts (graph_in numbers.now) firsts.now }
    ensures { (j : ℕ) → bit_at bits.new j ≡ (elem j (dead_of (graph_in numbers.now) (last_verdicts (graph_in numbers.now)) (related (entry_of (graph_in numbers.now) e.0))) || bit_at bits.old j) }
{
    let related = entries::related_count(numbers, tables, e);
    for k in 0..related {
        let r = entries::related_statement(numbers, tables, e, k);
        if r.unreachable == 0 {
            if entry_liveness::is_pure(numbers, tables, e, k) {
                let m = r.module;
                let i = r.import_record;
                let first = m.0;
                bit_row::set(bits, firsts[first] + i.0);
            }
        }
    }
}

// Sets the bits of the import records that the entries which were found dead mark.
fn show_found_dead(
    numbers: &[u32],
    tables: &[usize],
    plan: &[usize],
    scratch: &[usize],
    bits: &mut [u8],
)
    requires prepared { Prepared numbers.now tables.now }
    requires numbers_in_bounds { (plan_size (header_in numbers.now) ≤ length plan.now) × (record_count (graph_in numbers.now) ≤ 8 * length bits.old) }
    requires numbers_in_bounds_2 { ((header_in numbers.now).modules ≤ length scratch.now) × HasFirsts (graph_in numbers.now) scratch.now }
    ensures { (j : ℕ) → bit_at bits.new j ≡ (is_dead_record (graph_in numbers.now) (dead_in (header_in numbers.now) plan.now) j || bit_at bits.old j) }
{
    let h = determine_side_effects::graph_crate::header_of(numbers);
    let dead = entry_order::dead_at(h);
    for e in 0..h.entries {
        if plan[dead + e] == 1 {
            show_dead_of(numbers, tables, scratch, EntryIdx(e), bits);
        }
    }
}

// Clears the words of the statements.
fn clear_words(numbers: &[u32], scratch: &mut [usize])
    requires { (7 ≤ length numbers.now) × ((header_in numbers.now).modules + (header_in numbers.now).statements ≤ length scratch.old) }
    ensures { ((j : ℕ) → j < (header_in numbers.now).modules → get_or scratch.new j 0 ≡ get_or scratch.old j 0) × ((j : ℕ) → (header_in numbers.now).modules ≤ j → j < (header_in numbers.now).modules + (header_in numbers.now).statements → get_or scratch.new j 0 ≡ 0) }
{
    let h = determine_side_effects::graph_crate::header_of(numbers);
    scratch[h.modules..h.modules + h.statements].fill(0);
}

// Sets the word of each statement that has one of the lines from number `from` up to `to`, over cleared words.
fn note_late(
    numbers: &[u32],
    tables: &[usize],
    lines: &[u32],
    from: usize,
    to: usize,
    scratch: &mut [usize],
)
    requires loaded { Loaded numbers.now tables.now }
    requires from_le_to { (from ≤ to) × (6 * to ≤ length lines.now) × ((k : ℕ) → k < to → Good (graph_in numbers.now) (line_at lines.now k).fact) }
    requires numbers_in_bounds { ((header_in numbers.now).modules + (header_in numbers.now).statements ≤ length scratch.old) × ((j : ℕ) → (header_in numbers.now).modules ≤ j → j < (header_in numbers.now).modules + (header_in numbers.now).statements → get_or scratch.old j 0 ≡ 0) }
    ensures { ((j : ℕ) → j < (header_in numbers.now).modules → get_or scratch.new j 0 ≡ get_or scratch.old j 0) × HasLate (graph_in numbers.now) (lines_between from to lines.now) scratch.new }
{
    let h = determine_side_effects::graph_crate::header_of(numbers);
    for k in from..to {
        match keep_record::fact_at(lines, k) {
            Fact::Statement(m, i) => {
                let at = determine_side_effects::facts_crate::mark_of(
                    numbers,
                    tables,
                    Fact::Statement(m, i),
                );
                scratch[at - h.modules] = 1;
            }
            Fact::Module(_) => {}
            Fact::Use(_, _) => {}
            Fact::CheckedUse(_, _) => {}
            Fact::Forward(_) => {}
            Fact::Bailout(_) => {}
        }
    }
}

// Whether a statement was kept before the runtime stage. The marks have the statements of both stages, the words those of the runtime stage.
fn is_kept(
    numbers: &[u32],
    tables: &[usize],
    marks: &[u8],
    scratch: &[usize],
    m: ModuleIdx,
    i: StmtIdx,
) -> bool
    requires loaded { Loaded numbers.now tables.now }
    requires m_bound { (m.0 < (header_in numbers.now).modules) × (i.0 < length (statement_list (graph_in numbers.now) m.0)) × WordsFit (graph_in numbers.now) marks.now scratch.now }
    ensures { result ≡ kept_before (graph_in numbers.now) marks.now scratch.now (statement_fact m.0 i.0) }
{
    let h = determine_side_effects::graph_crate::header_of(numbers);
    let at = determine_side_effects::facts_crate::mark_of(numbers, tables, Fact::Statement(m, i));
    if !bit_row::test(marks, at) {
        return false;
    }
    scratch[at - h.modules] != 1
}

// Whether related statement k lets an entry live by the words; `unused` says that its module's dynamic imports use no export.
fn lets_live(
    numbers: &[u32],
    tables: &[usize],
    marks: &[u8],
    scratch: &[usize],
    e: EntryIdx,
    k: usize,
    unused: bool,
) -> bool
    requires prepared { Prepared numbers.now tables.now }
    requires e_bound { (e.0 < (header_in numbers.now).entries) × (k < length (related (entry_of (graph_in numbers.now) e.0))) × WordsFit (graph_in numbers.now) marks.now scratch.now }
    requires unused_value { unused ≡ uses_no_export (graph_in numbers.now) (module_of_entry (graph_in numbers.now) e.0) }
    ensures { result ≡ lets_live (graph_in numbers.now) (last_verdicts (graph_in numbers.now)) (kept_before (graph_in numbers.now) marks.now scratch.now) (module_of_entry (graph_in numbers.now) e.0) (get_or (related (entry_of (graph_in numbers.now) e.0)) k []) }
{
    let r = entries::related_statement(numbers, tables, e, k);
    if r.unreachable != 0 {
        return false;
    }
    let module = r.module;
    let statement = r.statement;
    if !is_kept(numbers, tables, marks, scratch, module, statement) {
        return false;
    }
    if !unused {
        return true;
    }
    !entry_liveness::is_pure(numbers, tables, e, k)
}

// Whether a related statement lets entry e live by the words.
fn is_alive(numbers: &[u32], tables: &[usize], marks: &[u8], scratch: &[usize], e: EntryIdx) -> bool
    requires prepared { Prepared numbers.now tables.now }
    requires e_bound { (e.0 < (header_in numbers.now).entries) × WordsFit (graph_in numbers.now) marks.now scratch.now }
    ensures { result ≡ is_alive (graph_in numbers.now) (last_verdicts (graph_in numbers.now)) (kept_before (graph_in numbers.now) marks.now scratch.now) e.0 }
{
    let m = entries::entry_module(numbers, tables, e);
    let unused = determine_side_effects::facts_crate::flag(
        modules::flags(numbers, tables, m),
        DYNAMIC_IMPORTS_USE_NO_EXPORT,
    );
    let count = entries::related_count(numbers, tables, e);
    for k in 0..count {
        if lets_live(numbers, tables, marks, scratch, e, k, unused) {
            return true;
        }
    }
    false
}

// Whether entry e is dynamic, of a module that is not live, and a try would now find it dead.
fn is_dead_now(
    numbers: &[u32],
    tables: &[usize],
    plan: &[usize],
    marks: &[u8],
    scratch: &[usize],
    e: EntryIdx,
) -> bool
    requires prepared { Prepared numbers.now tables.now }
    requires numbers_in_bounds { (plan_size (header_in numbers.now) ≤ length plan.now) × (e.0 < (header_in numbers.now).entries) × WordsFit (graph_in numbers.now) marks.now scratch.now }
    requires has_cycles { HasCycles (graph_in numbers.now) plan.now }
    ensures { result ≡ dead_now (graph_in numbers.now) (kept_before (graph_in numbers.now) marks.now scratch.now) (live_in (header_in numbers.now) plan.now) e.0 }
{
    let h = determine_side_effects::graph_crate::header_of(numbers);
    if entries::entry_kind(numbers, tables, e) != 2 {
        return false;
    }
    let m = entries::entry_module(numbers, tables, e);
    let u = m.0;
    let live = entry_order::live_at(h);
    if plan[live + u] == 1 {
        return false;
    }
    let cycled = entry_order::cycled_at(h);
    if plan[cycled + u] == 1 {
        return false;
    }
    !is_alive(numbers, tables, marks, scratch, e)
}

// Sets the bits of the import records that the entries mark which a try would now find dead.
fn show_dead_now(
    numbers: &[u32],
    tables: &[usize],
    plan: &[usize],
    marks: &[u8],
    scratch: &[usize],
    bits: &mut [u8],
)
    requires prepared { Prepared numbers.now tables.now }
    requires numbers_in_bounds { (plan_size (header_in numbers.now) ≤ length plan.now) × (record_count (graph_in numbers.now) ≤ 8 * length bits.old) × WordsFit (graph_in numbers.now) marks.now scratch.now }
    requires has_cycles { HasCycles (graph_in numbers.now) plan.now × HasFirsts (graph_in numbers.now) scratch.now }
    ensures { (j : ℕ) → bit_at bits.new j ≡ (is_dead_record (graph_in numbers.now) (dead_now (graph_in numbers.now) (kept_before (graph_in numbers.now) marks.now scratch.now) (live_in (header_in numbers.now) plan.now)) j || bit_at bits.old j) }
{
    let h = determine_side_effects::graph_crate::header_of(numbers);
    for e in 0..h.entries {
        if is_dead_now(numbers, tables, plan, marks, scratch, EntryIdx(e)) {
            show_dead_of(numbers, tables, scratch, EntryIdx(e), bits);
        }
    }
}

// Clears the bits of the import records that entry e relates through a kept, reachable statement.
fn exempt_of(
    numbers: &[u32],
    tables: &[usize],
    marks: &[u8],
    scratch: &[usize],
    e: EntryIdx,
    bits: &mut [u8],
)
    requires loaded { Loaded numbers.now tables.now }
    requires e_bound { (e.0 < (header_in numbers.now).entries) × (record_count (graph_in numbers.now) ≤ 8 * length bits.old) × WordsFit (graph_in numbers.now) marks.now scratch.now }
    requires has_firsts { HasFirsts (graph_in numbers.now) scratch.now }
    ensures { (j : ℕ) → bit_at bits.new j ≡ (not (some (exempts (graph_in numbers.now) (kept_before (graph_in numbers.now) marks.now scratch.now) j) (related (entry_of (graph_in numbers.now) e.0))) && bit_at bits.old j) }
{
    let count = entries::related_count(numbers, tables, e);
    for k in 0..count {
        let r = entries::related_statement(numbers, tables, e, k);
        if r.unreachable == 0 {
            let m = r.module;
            let s = r.statement;
            if is_kept(numbers, tables, marks, scratch, m, s) {
                let i = r.import_record;
                let first = m.0;
                bit_row::unset(bits, scratch[first] + i.0);
            }
        }
    }
}

// Whether entry e is a dynamic entry of a live module.
fn is_live(numbers: &[u32], tables: &[usize], plan: &[usize], e: EntryIdx) -> bool
    requires loaded { Loaded numbers.now tables.now }
    requires numbers_in_bounds { (plan_size (header_in numbers.now) ≤ length plan.now) × (e.0 < (header_in numbers.now).entries) }
    ensures { result ≡ (is_dynamic (graph_in numbers.now) e.0 && live_in (header_in numbers.now) plan.now (module_of_entry (graph_in numbers.now) e.0)) }
{
    if entries::entry_kind(numbers, tables, e) != 2 {
        return false;
    }
    let h = determine_side_effects::graph_crate::header_of(numbers);
    let m = entries::entry_module(numbers, tables, e);
    let u = m.0;
    let live = entry_order::live_at(h);
    plan[live + u] == 1
}

// Clears the bits of the import records that the dynamic entries of live modules relate through a kept, reachable statement.
fn exempt(
    numbers: &[u32],
    tables: &[usize],
    plan: &[usize],
    marks: &[u8],
    scratch: &[usize],
    bits: &mut [u8],
)
    requires loaded { Loaded numbers.now tables.now }
    requires numbers_in_bounds { (plan_size (header_in numbers.now) ≤ length plan.now) × (record_count (graph_in numbers.now) ≤ 8 * length bits.old) × WordsFit (graph_in numbers.now) marks.now scratch.now }
    requires has_firsts { HasFirsts (graph_in numbers.now) scratch.now }
    ensures { (j : ℕ) → bit_at bits.new j ≡ (not (exempted (graph_in numbers.now) (kept_before (graph_in numbers.now) marks.now scratch.now) (live_in (header_in numbers.now) plan.now) j) && bit_at bits.old j) }
{
    let h = determine_side_effects::graph_crate::header_of(numbers);
    for e in 0..h.entries {
        if is_live(numbers, tables, plan, EntryIdx(e)) {
            exempt_of(numbers, tables, marks, scratch, EntryIdx(e), bits);
        }
    }
}

// Sets the bits of the import records that are dead after the last round, over cleared bits.
fn show_dead_at_end(
    numbers: &[u32],
    tables: &[usize],
    plan: &[usize],
    marks: &[u8],
    lines: &[u32],
    main: usize,
    count: usize,
    scratch: &mut [usize],
    bits: &mut [u8],
)
    requires prepared { Prepared numbers.now tables.now }
    requires after_stages { AfterStages (graph_in numbers.now) plan.now marks.now lines.now main count }
    requires numbers_in_bounds { ((header_in numbers.now).modules + (header_in numbers.now).statements ≤ length scratch.old) × HasFirsts (graph_in numbers.now) scratch.old × (record_count (graph_in numbers.now) ≤ 8 * length bits.old) }
    ensures { (j : ℕ) → bit_at bits.new j ≡ (not (exempted (graph_in numbers.now) (has (graph_in numbers.now) 0 (lines_of main lines.now)) (live_in (header_in numbers.now) plan.now) j) && (is_dead_record (graph_in numbers.now) (dead_now (graph_in numbers.now) (has (graph_in numbers.now) 0 (lines_of main lines.now)) (live_in (header_in numbers.now) plan.now)) j || bit_at bits.old j)) }
{
    clear_words(numbers, scratch);
    note_late(numbers, tables, lines, main, count, scratch);
    show_dead_now(numbers, tables, plan, marks, scratch, bits);
    exempt(numbers, tables, plan, marks, scratch, bits);
}

// Writes the row of dead import records after a main part of so many lines.
pub fn show_dead(
    numbers: &[u32],
    tables: &[usize],
    plan: &[usize],
    marks: &[u8],
    lines: &[u32],
    main: usize,
    count: usize,
    scratch: &mut [usize],
    bits: &mut [u8],
)
    requires prepared { Prepared numbers.now tables.now }
    requires after_stages { AfterStages (graph_in numbers.now) plan.now marks.now lines.now main count }
    requires numbers_in_bounds { ((header_in numbers.now).modules + (header_in numbers.now).statements ≤ length scratch.old) × (bytes_for (record_count (graph_in numbers.now)) ≤ length bits.old) }
    ensures { bits.new ≡ dead_row (graph_in numbers.now) (lines_of main lines.now) (live_in (header_in numbers.now) plan.now) (dead_in (header_in numbers.now) plan.now) bits.old }
{
    let h = determine_side_effects::graph_crate::header_of(numbers);
    let records = record_count(numbers, tables);
    bit_row::clear(bits, bit_row::bytes_for(records));
    fill_first_records(numbers, tables, scratch);
    if determine_side_effects::facts_crate::flag(h.options, DEAD_AFTER_ROUNDS) {
        show_dead_at_end(
            numbers, tables, plan, marks, lines, main, count, scratch, bits,
        );
    } else {
        show_found_dead(numbers, tables, plan, scratch, bits);
    }
}
