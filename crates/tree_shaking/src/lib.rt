// The run: its main part and its runtime stage (include_statements.rs, `include_statements`).
#![tactic(auto)]

ghost use Rattle.std.specs.Prelude.{◌≡◌, ℕ, ◌+◌, ◌*◌, ◌<◌, ◌≤◌, [], length, get_or, set};
ghost use Rattle.determine_side_effects.specs.graph_tables_crate.Tables.{header_in};
ghost use Rattle.determine_side_effects.specs.graph_crate.Check.{graph_in};
ghost use Rattle.determine_side_effects.specs.Effects.{last_verdicts};
ghost use Rattle.keep_rules.specs.Prepared.{Prepared};
ghost use Rattle.keep_record.specs.Held.{lines_of};
ghost use Rattle.entry_order.specs.Order.{module_of_entry, user_entries};
ghost use Rattle.entry_order.specs.Chains.{Entries};
ghost use Rattle.entry_order.specs.Plan.{live_in, plan_size};
ghost use Rattle.entry_starts.specs.Starts.{module_starts};
ghost use Rattle.entry_starts.specs.Working.{Working, Started};
ghost use Rattle.dynamic_entries.specs.Sorted.{sorted_entries};
ghost use Rattle.dynamic_entries.specs.Tries.{tries, progress_in, Planned, Unlived};
ghost use Rattle.tree_shaking.specs.Rounds.{users_starts, round as round_of, kept_module, live_count, goes_on, rounds_from, main_part};
ghost use Rattle.tree_shaking.specs.Parts.{Progressed, CountsLive, TellsFurther, MainEnds, StageEnds};

use determine_side_effects::graph_access_crate::entries;
use determine_side_effects::index_crate::EntryIdx;
use entry_liveness::next_live;
use keep_record::{Full, Stage};

// The bit of the options by which rounds go on until nothing moves.
const SETTLE: usize = 7;

// What a run has reached: how many user-defined entries there are, how many rounds were made, how many lines there were when the last one began, how
// many lines the main part has, and how many there are in all.
#[derive(Clone, Copy)]
pub struct Reached {
    pub users: usize,
    pub rounds: usize,
    pub taken: usize,
    pub main: usize,
    pub total: usize,
}

// Starts the user-defined entries in their order.
fn include_user_entries(
    numbers: &[u32],
    tables: &[usize],
    partners: &mut [usize],
    marks: &mut [u8],
    lines: &mut [u32],
    plan: &[usize],
    users: usize,
) -> Result<usize, Full>
    requires prepared { Prepared numbers.now tables.now }
    requires working { Working (graph_in numbers.now) 0 partners.old marks.old lines.old 0 × Planned (graph_in numbers.now) plan.now users }
    ensures { Started (graph_in numbers.now) 0 (users_starts (graph_in numbers.now) (user_entries (graph_in numbers.now))) [] partners.new marks.new lines.new result }
{
    let mut total: usize = 0;
    for i in 0..users {
        let m = entries::entry_module(numbers, tables, EntryIdx(plan[i]));
        total = entry_starts::include_user_entry(
            numbers, tables, partners, marks, lines, total, m,
        )?;
    }
    Ok(total)
}

// The entry at place i of the plan is live: its module is live from now on, and is started.
fn include_live_entry(
    numbers: &[u32],
    tables: &[usize],
    partners: &mut [usize],
    marks: &mut [u8],
    lines: &mut [u32],
    plan: &mut [usize],
    count: usize,
    i: usize,
) -> Result<usize, Full>
    requires prepared { Prepared numbers.now tables.now }
    requires working { Working (graph_in numbers.now) 0 partners.old marks.old lines.old count × (plan_size (header_in numbers.now) ≤ length plan.old) × Entries (graph_in numbers.now) plan.old (header_in numbers.now).entries × (i < (header_in numbers.now).entries) }
    ensures { Started (graph_in numbers.now) 0 (module_starts (graph_in numbers.now) (module_of_entry (graph_in numbers.now) (get_or plan.old i 0))) (lines_of count lines.old) partners.new marks.new lines.new result × (plan.new ≡ set plan.old ((header_in numbers.now).entries + module_of_entry (graph_in numbers.now) (get_or plan.old i 0)) 1) × (module_of_entry (graph_in numbers.now) (get_or plan.old i 0) < (header_in numbers.now).modules) }
{
    let h = determine_side_effects::graph_crate::header_of(numbers);
    let m = entries::entry_module(numbers, tables, EntryIdx(plan[i]));
    let u = m.0;
    let live = entry_order::live_at(h);
    plan[live + u] = 1;
    entry_starts::include_entry(numbers, tables, partners, marks, lines, count, m)
}

// Tries the dynamic entries in their order.
fn try_dynamic_entries(
    numbers: &[u32],
    tables: &[usize],
    partners: &mut [usize],
    marks: &mut [u8],
    lines: &mut [u32],
    plan: &mut [usize],
    users: usize,
    count: usize,
) -> Result<usize, Full>
    requires prepared { Prepared numbers.now tables.now }
    requires working { Working (graph_in numbers.now) 0 partners.old marks.old lines.old count × Planned (graph_in numbers.now) plan.old users }
    ensures { Progressed (graph_in numbers.now) users (tries (graph_in numbers.now) (last_verdicts (graph_in numbers.now)) (sorted_entries (graph_in numbers.now)) (progress_in (header_in numbers.now) (lines_of count lines.old) plan.old)) partners.new marks.new lines.new plan.new result }
{
    let h = determine_side_effects::graph_crate::header_of(numbers);
    let mut total = count;
    let mut i = next_live(numbers, tables, marks, plan, users, users);
    while i < h.entries {
        total = include_live_entry(numbers, tables, partners, marks, lines, plan, total, i)?;
        i = next_live(numbers, tables, marks, plan, users, i + 1);
    }
    Ok(total)
}

// A round: the bailouts of the lines from number `taken` on, then the dynamic entries.
fn round(
    numbers: &[u32],
    tables: &[usize],
    partners: &mut [usize],
    marks: &mut [u8],
    lines: &mut [u32],
    plan: &mut [usize],
    users: usize,
    count: usize,
    taken: usize,
) -> Result<usize, Full>
    requires prepared { Prepared numbers.now tables.now }
    requires working { Working (graph_in numbers.now) 0 partners.old marks.old lines.old count × Planned (graph_in numbers.now) plan.old users × (taken ≤ count) }
    ensures { Progressed (graph_in numbers.now) users (round_of (graph_in numbers.now) (last_verdicts (graph_in numbers.now)) taken (progress_in (header_in numbers.now) (lines_of count lines.old) plan.old)) partners.new marks.new lines.new plan.new result }
{
    let n = passes::include_cjs_bailout_exports(
        numbers, tables, partners, marks, lines, count, taken,
    )?;
    try_dynamic_entries(numbers, tables, partners, marks, lines, plan, users, n)
}

// Whether a module is among the lines from number `from` up to `to`.
fn has_module(lines: &[u32], from: usize, to: usize) -> bool
    requires { (from ≤ to) × (6 * to ≤ length lines.now) }
    ensures { result ≡ kept_module from (lines_of to lines.now) }
{
    for k in from..to {
        if determine_side_effects::facts_crate::kind_of(keep_record::fact_at(lines, k)) == 1 {
            return true;
        }
    }
    false
}

// How many modules are live.
fn live_count(numbers: &[u32], plan: &[usize]) -> usize
    requires { (7 ≤ length numbers.now) × (plan_size (header_in numbers.now) ≤ length plan.now) × (length plan.now < 4294967296) }
    ensures { result ≡ live_count (graph_in numbers.now) (live_in (header_in numbers.now) plan.now) }
{
    let h = determine_side_effects::graph_crate::header_of(numbers);
    let first = entry_order::live_at(h);
    let mut live: usize = 0;
    for m in 0..h.modules {
        if plan[first + m] == 1 {
            live += 1;
        }
    }
    live
}

// How many modules are live before a round, for `goes_on`. Only a run that settles asks for it, so another does not count.
fn live_before(numbers: &[u32], plan: &[usize]) -> usize
    requires { (7 ≤ length numbers.now) × (plan_size (header_in numbers.now) ≤ length plan.now) × (length plan.now < 4294967296) }
    ensures { CountsLive (graph_in numbers.now) (live_in (header_in numbers.now) plan.now) result }
{
    if keep_rules::option(numbers, SETTLE) {
        return live_count(numbers, plan);
    }
    0
}

// Whether a further round follows one that began with `from` lines and `live` live modules and came to `to` lines. An external entry that comes
// alive writes no line, so lines alone do not tell that nothing moved.
fn goes_on(
    numbers: &[u32],
    lines: &[u32],
    plan: &[usize],
    from: usize,
    to: usize,
    live: usize,
) -> bool
    requires from_le_to { (from ≤ to) × (6 * to ≤ length lines.now) }
    requires in_bounds { (7 ≤ length numbers.now) × (plan_size (header_in numbers.now) ≤ length plan.now) × (length plan.now < 4294967296) }
    ensures { TellsFurther (graph_in numbers.now) from live (progress_in (header_in numbers.now) (lines_of to lines.now) plan.now) result }
{
    if !keep_rules::option(numbers, SETTLE) {
        return has_module(lines, from, to);
    }
    if from < to {
        return true;
    }
    live < live_count(numbers, plan)
}

// What a main part of `main` lines has reached.
fn ended_with(users: usize, rounds: usize, taken: usize, main: usize) -> Reached
    ensures { result ≡ record { users = users; rounds = rounds; taken = taken; main = main; total = main } }
{
    Reached {
        users,
        rounds,
        taken,
        main,
        total: main,
    }
}

// The rounds, up to the first after which none follows: one in which no module became kept, or, with the bit, one in which nothing moved.
fn rounds(
    numbers: &[u32],
    tables: &[usize],
    partners: &mut [usize],
    marks: &mut [u8],
    lines: &mut [u32],
    plan: &mut [usize],
    users: usize,
    count: usize,
) -> Result<Reached, Full>
    requires prepared { Prepared numbers.now tables.now }
    requires working { Working (graph_in numbers.now) 0 partners.old marks.old lines.old count × Planned (graph_in numbers.now) plan.old users }
    ensures { MainEnds (graph_in numbers.now) users (rounds_from (graph_in numbers.now) (last_verdicts (graph_in numbers.now)) (goes_on (graph_in numbers.now)) (2 * (header_in numbers.now).modules + 1) 0 0 (progress_in (header_in numbers.now) (lines_of count lines.old) plan.old)) partners.new marks.new lines.new plan.new result }
{
    let h = determine_side_effects::graph_crate::header_of(numbers);
    let mut total = count;
    let mut taken: usize = 0;
    let mut made: usize = 0;
    while made <= 2 * h.modules {
        let live = live_before(numbers, plan);
        let n = round(
            numbers, tables, partners, marks, lines, plan, users, total, taken,
        )?;
        made += 1;
        if !goes_on(numbers, lines, plan, total, n, live) {
            return Ok(ended_with(users, made, total, n));
        }
        taken = total;
        total = n;
    }
    Ok(ended_with(users, made, taken, total))
}

// The main part: the user-defined entries, then the rounds. The rows are cleared.
pub fn main_part(
    numbers: &[u32],
    tables: &[usize],
    partners: &mut [usize],
    marks: &mut [u8],
    lines: &mut [u32],
    plan: &mut [usize],
    users: usize,
) -> Result<Reached, Full>
    requires prepared { Prepared numbers.now tables.now }
    requires working { Working (graph_in numbers.now) 0 partners.old marks.old lines.old 0 × Planned (graph_in numbers.now) plan.old users × Unlived (graph_in numbers.now) plan.old }
    ensures { MainEnds (graph_in numbers.now) users (main_part (graph_in numbers.now) (last_verdicts (graph_in numbers.now))) partners.new marks.new lines.new plan.new result }
{
    let n = include_user_entries(numbers, tables, partners, marks, lines, plan, users)?;
    rounds(numbers, tables, partners, marks, lines, plan, users, n)
}

// The runtime stage: the words of the helpers, and a stage that begins with their union.
pub fn runtime_stage(
    numbers: &[u32],
    tables: &[usize],
    partners: &mut [usize],
    marks: &mut [u8],
    lines: &mut [u32],
    plan: &mut [usize],
    count: usize,
) -> Result<usize, Full>
    requires prepared { Prepared numbers.now tables.now }
    requires working { Working (graph_in numbers.now) 0 partners.old marks.old lines.old count × (plan_size (header_in numbers.now) ≤ length plan.old) }
    ensures { StageEnds (graph_in numbers.now) (lines_of count lines.old) plan.old partners.new marks.new lines.new plan.new result }
{
    passes::collect_helpers(numbers, tables, marks, plan);
    let word = passes::collect_depended_runtime_helpers(numbers, tables, marks, plan);
    next_stage::begin(numbers, tables, partners, marks, lines, count);
    passes::include_runtime_symbol(
        numbers,
        tables,
        partners,
        marks,
        lines,
        Stage { base: count, count },
        word,
    )
}
