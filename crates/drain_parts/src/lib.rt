// The drain's parts: whether it may begin, its work, and both in their order.
// Whether it may begin is told from the lengths of the lent rows, without the rows. No answer row is written before the last refusal is excluded.
#![tactic(auto)]

ghost use Rattle.std.specs.Prelude.{◌≡◌, ℕ, ◌+◌, ◌*◌, ◌-◌, ◌/◌, ◌%◌, ◌<◌, ◌≤◌, Bool, true, false, List, [], ◌∷◌, length, get_or, replicate};
ghost use Rattle.bit_row.specs.Row.{bytes_for};
ghost use Rattle.determine_side_effects.specs.tables_crate.Layout.{start_of, all_sections};
ghost use Rattle.determine_side_effects.specs.graph_tables_crate.Tables.{header_in};
ghost use Rattle.determine_side_effects.specs.graph_crate.Check.{graph_in, HeaderRead};
ghost use Rattle.determine_side_effects.specs.Effects.{last_verdicts};
ghost use Rattle.determine_side_effects.specs.facts_crate.Facts.{mark_count};
ghost use Rattle.keep_rules.specs.Prepared.{Prepared};
ghost use Rattle.starts.specs.Starts.{starts_of, StartsGood};
ghost use Rattle.worklist.specs.Links.{partners_size};
ghost use Rattle.worklist.specs.Drain.{drain_of};
ghost use Rattle.answer_rows.specs.Tabled.{FirstBytes};
ghost use Rattle.drain_parts.specs.Operation.{rows as rows_of, rooms_of, enough, worked, Ends, Drains};
ghost use Rattle.drain_parts.specs.Parts.{MayBegin, Worked};

use answer_rows::Lengths;
use determine_side_effects::graph_format_crate::Header;
use determine_side_effects::refusal_crate::Refusal;
use keep_record::Full;

// Whether a drain may begin: the graph is accepted and its tables are filled, the starts are good, and all lengths but the record's are enough.
fn may_begin(
    numbers: &[u32],
    starts: &[u32],
    h: Header,
    marks: usize,
    lengths: Lengths,
    tables: &mut [usize],
) -> Result<(), Refusal>
    requires header_read { HeaderRead numbers.now h }
    requires all_sections_in_bounds { (start_of h all_sections ≤ length tables.old) × (length tables.old < 4294967296) }
    ensures { MayBegin numbers.now starts.now marks lengths tables.new result }
{
    rule_tables::ready(numbers, h, tables)?;
    starts::check(numbers, tables, starts)?;
    if marks
        < bit_row::bytes_for(determine_side_effects::facts_crate::mark_count(numbers, tables))
    {
        return Err(Refusal::NoRoom);
    }
    if !answer_rows::are_long_enough(numbers, tables, lengths) {
        return Err(Refusal::NoRoom);
    }
    Ok(())
}

// The work: marks and record are cleared, and hold the drain's lines afterwards, or are cleared again where the record is short.
fn work(
    numbers: &[u32],
    tables: &[usize],
    starts: &[u32],
    partners: &mut [usize],
    marks: &mut [u8],
    lines: &mut [u32],
) -> Result<usize, Full>
    requires prepared { Prepared numbers.now tables.now }
    requires numbers_in_bounds { (bytes_for (mark_count (graph_in numbers.now)) ≤ length marks.old) × (partners_size (header_in numbers.now) ≤ length partners.old) × ((i : ℕ) → get_or partners.old i 0 ≡ 0) }
    requires starts_good { StartsGood (graph_in numbers.now) (starts_of starts.now) }
    ensures { Worked (graph_in numbers.now) (drain_of (graph_in numbers.now) (last_verdicts (graph_in numbers.now)) (starts_of starts.now)) marks.old lines.old marks.new lines.new result }
{
    keep_record::clear(marks, lines);
    match worklist::drain_starts(numbers, tables, starts, partners, marks, lines) {
        Ok(n) => Ok(n),
        Err(full) => {
            keep_record::clear(marks, lines);
            Err(full)
        }
    }
}

// The drain of good starts into rows that are long enough, but perhaps the record.
fn work_and_show(
    numbers: &[u32],
    tables: &[usize],
    starts: &[u32],
    partners: &mut [usize],
    marks: &mut [u8],
    lines: &mut [u32],
    modules_row: &mut [u8],
    statements_row: &mut [u8],
    used: &mut [u8],
    external: &mut [u8],
    json: &mut [u8],
    reason: &mut [u8],
) -> Result<usize, Refusal>
    requires prepared { Prepared numbers.now tables.now × FirstBytes numbers.now tables.now × StartsGood (graph_in numbers.now) (starts_of starts.now) }
    requires numbers_in_bounds { (partners_size (header_in numbers.now) ≤ length partners.old) × ((i : ℕ) → get_or partners.old i 0 ≡ 0) }
    requires reason_value { enough (graph_in numbers.now) (rooms_of (rows_of marks.old lines.old modules_row.old statements_row.old used.old external.old json.old reason.old)) ≡ true }
    ensures { Ends (worked (graph_in numbers.now) (drain_of (graph_in numbers.now) (last_verdicts (graph_in numbers.now)) (starts_of starts.now)) (length lines.old)) result (rows_of marks.old lines.old modules_row.old statements_row.old used.old external.old json.old reason.old) (rows_of marks.new lines.new modules_row.new statements_row.new used.new external.new json.new reason.new) }
{
    match work(numbers, tables, starts, partners, marks, lines) {
        Err(_) => Err(Refusal::NoRoom),
        Ok(n) => {
            answer_rows::show_all(
                numbers,
                tables,
                lines,
                n,
                n,
                modules_row,
                statements_row,
                used,
                external,
                json,
                reason,
            );
            Ok(n)
        }
    }
}

// The lengths of the answer rows.
fn lengths_of(
    modules_row: &[u8],
    statements_row: &[u8],
    used: &[u8],
    external: &[u8],
    json: &[u8],
    reason: &[u8],
) -> Lengths
    ensures { result ≡ record { modules = length modules_row.now; statements = length statements_row.now; used = length used.now; external = length external.now; json = length json.now; reason = length reason.now } }
{
    Lengths {
        modules: modules_row.len(),
        statements: statements_row.len(),
        used: used.len(),
        external: external.len(),
        json: json.len(),
        reason: reason.len(),
    }
}

// The drain with tables and partners that hold the graph. The partners are cleared.
pub fn drain_in(
    numbers: &[u32],
    starts: &[u32],
    h: Header,
    tables: &mut [usize],
    partners: &mut [usize],
    marks: &mut [u8],
    lines: &mut [u32],
    modules_row: &mut [u8],
    statements_row: &mut [u8],
    used: &mut [u8],
    external: &mut [u8],
    json: &mut [u8],
    reason: &mut [u8],
) -> Result<usize, Refusal>
    requires header_read { HeaderRead numbers.now h }
    requires all_sections_in_bounds { (start_of h all_sections ≤ length tables.old) × (length tables.old < 4294967296) }
    requires h_in_bounds { (partners_size h ≤ length partners.old) × ((i : ℕ) → get_or partners.old i 0 ≡ 0) }
    ensures { Drains numbers.now starts.now result (rows_of marks.old lines.old modules_row.old statements_row.old used.old external.old json.old reason.old) (rows_of marks.new lines.new modules_row.new statements_row.new used.new external.new json.new reason.new) }
{
    let lengths = lengths_of(modules_row, statements_row, used, external, json, reason);
    may_begin(numbers, starts, h, marks.len(), lengths, tables)?;
    work_and_show(
        numbers,
        tables,
        starts,
        partners,
        marks,
        lines,
        modules_row,
        statements_row,
        used,
        external,
        json,
        reason,
    )
}
