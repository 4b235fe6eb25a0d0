// The run's parts: whether it may begin, its work, what only a run shows, and all in their order.
// Whether it may begin is told from the lengths of the lent rows, without the rows. No answer row is written before the last refusal is excluded.
#![tactic(auto)]

ghost use Rattle.std.specs.Prelude.{◌≡◌, ℕ, ◌-◌, ◌<◌, ◌≤◌, length, get_or};
ghost use Rattle.bit_row.specs.Row.{bytes_for};
ghost use Rattle.determine_side_effects.specs.tables_crate.Layout.{start_of, all_sections};
ghost use Rattle.determine_side_effects.specs.graph_tables_crate.Tables.{header_in};
ghost use Rattle.determine_side_effects.specs.graph_crate.Check.{graph_in, HeaderRead};
ghost use Rattle.determine_side_effects.specs.graph_crate.Loaded.{Loaded};
ghost use Rattle.determine_side_effects.specs.facts_crate.Facts.{mark_count};
ghost use Rattle.keep_rules.specs.Prepared.{Prepared};
ghost use Rattle.worklist.specs.Links.{partners_size};
ghost use Rattle.answer_rows.specs.Tabled.{FirstBytes};
ghost use Rattle.entry_order.specs.Plan.{plan_size};
ghost use Rattle.entry_starts.specs.Working.{Working};
ghost use Rattle.run_parts.specs.Operation.{rows as rows_of, enough, Runs};
ghost use Rattle.run_parts.specs.Parts.{room_for, MayBegin, StagesEnd, WorkEnds, Shows, ScratchFits, RowsFit, RunShown};

use determine_side_effects::graph_format_crate::Header;
use determine_side_effects::refusal_crate::Refusal;
use keep_record::Full;
use tree_shaking::Reached;

// What a run comes to: how many rounds it made, how many lines the main part and the runtime stage have, and how many final entries there are.
#[derive(Clone, Copy)]
pub struct Totals {
    pub rounds: usize,
    pub lines: usize,
    pub runtime_lines: usize,
    pub entries: usize,
}

// Which part of a run is made: all of it, or what comes before the runtime stage.
#[derive(Clone, Copy)]
pub enum Part {
    Whole,
    Main,
}

// The lengths of marks and answer rows.
#[derive(Clone, Copy)]
pub struct Lengths {
    pub marks: usize,
    pub modules: usize,
    pub statements: usize,
    pub used: usize,
    pub external: usize,
    pub json: usize,
    pub reason: usize,
    pub dead: usize,
    pub helpers: usize,
    pub entries: usize,
}

// Whether marks and answer rows of these lengths are long enough.
fn are_enough(numbers: &[u32], tables: &[usize], l: Lengths) -> bool
    requires { Loaded numbers.now tables.now × FirstBytes numbers.now tables.now }
    ensures { (lines : ℕ) → result ≡ enough (graph_in numbers.now) (room_for lines l) }
{
    let h = determine_side_effects::graph_crate::header_of(numbers);
    if l.marks
        < bit_row::bytes_for(determine_side_effects::facts_crate::mark_count(numbers, tables))
    {
        return false;
    }
    let six = answer_rows::Lengths {
        modules: l.modules,
        statements: l.statements,
        used: l.used,
        external: l.external,
        json: l.json,
        reason: l.reason,
    };
    if !answer_rows::are_long_enough(numbers, tables, six) {
        return false;
    }
    if l.dead < bit_row::bytes_for(dead_records::record_count(numbers, tables)) {
        return false;
    }
    if l.helpers < h.modules {
        return false;
    }
    l.entries >= h.entries
}

// Whether a run may begin: the graph is accepted and its tables are filled, and all lengths but the record's are enough.
fn may_begin(
    numbers: &[u32],
    h: Header,
    lengths: Lengths,
    tables: &mut [usize],
) -> Result<(), Refusal>
    requires header_read { HeaderRead numbers.now h }
    requires all_sections_in_bounds { (start_of h all_sections ≤ length tables.old) × (length tables.old < 4294967296) }
    ensures { MayBegin numbers.now lengths tables.new result }
{
    rule_tables::ready(numbers, h, tables)?;
    if !are_enough(numbers, tables, lengths) {
        return Err(Refusal::NoRoom);
    }
    Ok(())
}

// The stages of a part over cleared rows.
fn stages(
    numbers: &[u32],
    tables: &[usize],
    partners: &mut [usize],
    marks: &mut [u8],
    lines: &mut [u32],
    plan: &mut [usize],
    part: Part,
) -> Result<Reached, Full>
    requires prepared { Prepared numbers.now tables.now }
    requires working { Working (graph_in numbers.now) 0 partners.old marks.old lines.old 0 }
    requires numbers_in_bounds { (plan_size (header_in numbers.now) ≤ length plan.old) × (length plan.old < 4294967296) × ((i : ℕ) → get_or plan.old i 0 ≡ 0) }
    ensures { StagesEnd (graph_in numbers.now) part marks.new lines.new plan.new result }
{
    let users = entry_sizes::order_entries(numbers, tables, plan);
    let x = tree_shaking::main_part(numbers, tables, partners, marks, lines, plan, users)?;
    match part {
        Part::Main => Ok(x),
        Part::Whole => {
            let total = tree_shaking::runtime_stage(
                numbers, tables, partners, marks, lines, plan, x.main,
            )?;
            Ok(Reached {
                users: x.users,
                rounds: x.rounds,
                taken: x.taken,
                main: x.main,
                total,
            })
        }
    }
}

// The work: marks and record are cleared, and hold the lines of the part afterwards, or are cleared again where the record is short.
pub fn work(
    numbers: &[u32],
    tables: &[usize],
    partners: &mut [usize],
    marks: &mut [u8],
    lines: &mut [u32],
    plan: &mut [usize],
    part: Part,
) -> Result<Reached, Full>
    requires prepared { Prepared numbers.now tables.now }
    requires numbers_in_bounds { (bytes_for (mark_count (graph_in numbers.now)) ≤ length marks.old) × (partners_size (header_in numbers.now) ≤ length partners.old) × ((i : ℕ) → get_or partners.old i 0 ≡ 0) }
    requires numbers_in_bounds_2 { (plan_size (header_in numbers.now) ≤ length plan.old) × (length plan.old < 4294967296) × ((i : ℕ) → get_or plan.old i 0 ≡ 0) }
    ensures { WorkEnds (graph_in numbers.now) part marks.old lines.old marks.new lines.new plan.new result }
{
    keep_record::clear(marks, lines);
    match stages(numbers, tables, partners, marks, lines, plan, part) {
        Ok(x) => Ok(x),
        Err(full) => {
            keep_record::clear(marks, lines);
            Err(full)
        }
    }
}

// Writes the rows that only a run has: dead bits, helper words, final entries. The plan's order is used up, and `scratch`, which has a word for each
// module and each entry, and for each module and each statement. Gives how many final entries there are.
fn show_run(
    numbers: &[u32],
    tables: &[usize],
    marks: &[u8],
    lines: &[u32],
    plan: &mut [usize],
    x: Reached,
    scratch: &mut [usize],
    dead: &mut [u8],
    helpers: &mut [u32],
    entries: &mut [u32],
) -> usize
    requires prepared { Prepared numbers.now tables.now }
    requires shows { Shows (graph_in numbers.now) plan.old marks.now lines.now x }
    requires scratch_fits { ScratchFits (header_in numbers.now) (length scratch.old) × RowsFit (graph_in numbers.now) (length dead.old) (length helpers.old) (length entries.old) }
    ensures { RunShown (graph_in numbers.now) dead.old helpers.old entries.old dead.new helpers.new entries.new result }
{
    dead_records::show_dead(
        numbers, tables, plan, marks, lines, x.main, x.total, scratch, dead,
    );
    run_rows::show_helpers(numbers, plan, helpers);
    run_rows::show_entries(numbers, tables, plan, x.users, scratch, entries)
}

// The run with tables, partners and a plan that hold the graph. Partners and plan are cleared.
pub fn run_in(
    numbers: &[u32],
    h: Header,
    tables: &mut [usize],
    partners: &mut [usize],
    plan: &mut [usize],
    marks: &mut [u8],
    lines: &mut [u32],
    modules_row: &mut [u8],
    statements_row: &mut [u8],
    used: &mut [u8],
    external: &mut [u8],
    json: &mut [u8],
    reason: &mut [u8],
    dead: &mut [u8],
    helpers: &mut [u32],
    entries: &mut [u32],
) -> Result<Totals, Refusal>
    requires header_read { HeaderRead numbers.now h }
    requires all_sections_in_bounds { (start_of h all_sections ≤ length tables.old) × (length tables.old < 4294967296) }
    requires h_in_bounds { (partners_size h ≤ length partners.old) × ScratchFits h (length partners.old) × ((i : ℕ) → get_or partners.old i 0 ≡ 0) }
    requires h_in_bounds_2 { (plan_size h ≤ length plan.old) × (length plan.old < 4294967296) × ((i : ℕ) → get_or plan.old i 0 ≡ 0) }
    ensures { Runs numbers.now result (rows_of marks.old lines.old modules_row.old statements_row.old used.old external.old json.old reason.old dead.old helpers.old entries.old) (rows_of marks.new lines.new modules_row.new statements_row.new used.new external.new json.new reason.new dead.new helpers.new entries.new) }
{
    let lengths = Lengths {
        marks: marks.len(),
        modules: modules_row.len(),
        statements: statements_row.len(),
        used: used.len(),
        external: external.len(),
        json: json.len(),
        reason: reason.len(),
        dead: dead.len(),
        helpers: helpers.len(),
        entries: entries.len(),
    };
    may_begin(numbers, h, lengths, tables)?;
    match work(numbers, tables, partners, marks, lines, plan, Part::Whole) {
        Err(_) => Err(Refusal::NoRoom),
        Ok(x) => {
            answer_rows::show_all(
                numbers,
                tables,
                lines,
                x.main,
                x.total,
                modules_row,
                statements_row,
                used,
                external,
                json,
                reason,
            );
            let count = show_run(
                numbers, tables, marks, lines, plan, x, partners, dead, helpers, entries,
            );
            Ok(Totals {
                rounds: x.rounds,
                lines: x.main,
                runtime_lines: x.total - x.main,
                entries: count,
            })
        }
    }
}
