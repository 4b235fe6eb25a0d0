// The judge's parts: whether the lines may be judged, the lines one after another, what may be absent, and all in their order.
#![tactic(auto)]

ghost use Rattle.std.specs.Prelude.{◌≡◌, ℕ, ◌+◌, ◌*◌, ◌<◌, ◌≤◌, Bool, true, false, List, [], length};
ghost use Rattle.bit_row.specs.Row.{bit_at};
ghost use Rattle.determine_side_effects.specs.tables_crate.Layout.{start_of, all_sections};
ghost use Rattle.determine_side_effects.specs.graph_crate.Check.{graph_in, HeaderRead};
ghost use Rattle.keep_rules.specs.Prepared.{Prepared};
ghost use Rattle.starts.specs.Starts.{starts_of, StartsGood};
ghost use Rattle.fact_marks.specs.Marks.{Marks};
ghost use Rattle.judge_parts.specs.Operation.{judged_lines, judge_of};
ghost use Rattle.judge_parts.specs.Parts.{MayJudge};

use determine_side_effects::graph_format_crate::Header;
use determine_side_effects::refusal_crate::Refusal;

// Marks the starts.
fn mark_starts(numbers: &[u32], tables: &[usize], starts: &[u32], begun: &mut [u8])
    requires prepared { Prepared numbers.now tables.now }
    requires starts_good { StartsGood (graph_in numbers.now) (starts_of starts.now) × Marks (graph_in numbers.now) [] begun.old }
    ensures { Marks (graph_in numbers.now) (starts_of starts.now) begun.new }
{
    let count = starts.len() / 3;
    for i in 0..count {
        let fact = completeness::start_at(starts, i);
        fact_marks::mark(numbers, tables, begun, fact);
    }
}

// Whether the lines may be judged: the graph is accepted and its tables are filled, the starts are good, and the record's length is that of lines.
fn may_judge(
    numbers: &[u32],
    starts: &[u32],
    lines: &[u32],
    h: Header,
    tables: &mut [usize],
) -> Result<(), Refusal>
    requires header_read { HeaderRead numbers.now h }
    requires all_sections_in_bounds { (start_of h all_sections ≤ length tables.old) × (length tables.old < 4294967296) }
    ensures { MayJudge numbers.now starts.now lines.now tables.new result }
{
    rule_tables::ready(numbers, h, tables)?;
    starts::check(numbers, tables, starts)?;
    if lines.len() % 6 != 0 {
        return Err(Refusal::WrongLength(lines.len()));
    }
    Ok(())
}

// Judges the lines beside good starts. Both rows of marks are cleared.
fn judge_all<'a>(
    numbers: &'a [u32],
    tables: &'a [usize],
    starts: &[u32],
    lines: &[u32],
    begun: &mut [u8],
    marks: &mut [u8],
) -> Result<(), Refusal>
    requires prepared { Prepared numbers.now tables.now × StartsGood (graph_in numbers.now) (starts_of starts.now) }
    requires marks { Marks (graph_in numbers.now) [] begun.old × Marks (graph_in numbers.now) [] marks.old }
    ensures { result ≡ judged_lines (graph_in numbers.now) (starts_of starts.now) lines.now }
{
    mark_starts(numbers, tables, starts, begun);
    let count = lines.len() / 6;
    let first = line_judgement::judge_lines(numbers, tables, starts, begun, lines, marks);
    if first != count {
        return Err(Refusal::Unjustified(first));
    }
    if !completeness::are_marked(numbers, tables, starts, marks) {
        return Err(Refusal::Unjustified(count));
    }
    if !completeness::are_closed(numbers, tables, lines, marks) {
        return Err(Refusal::Unjustified(count));
    }
    Ok(())
}

// The judge with tables and marks that hold the graph. The marks are cleared.
pub fn judge_in(
    numbers: &[u32],
    starts: &[u32],
    lines: &[u32],
    h: Header,
    tables: &mut [usize],
    begun: &mut [u8],
    marks: &mut [u8],
) -> Result<(), Refusal>
    requires header_read { HeaderRead numbers.now h }
    requires all_sections_in_bounds { (start_of h all_sections ≤ length tables.old) × (length tables.old < 4294967296) }
    requires symbols_bound { (2 * h.modules + h.statements + 63 * h.symbols ≤ 8 * length begun.old) × (2 * h.modules + h.statements + 63 * h.symbols ≤ 8 * length marks.old) × ((j : ℕ) → bit_at begun.old j ≡ false) × ((j : ℕ) → bit_at marks.old j ≡ false) }
    ensures { result ≡ judge_of numbers.now starts.now lines.now }
{
    may_judge(numbers, starts, lines, h, tables)?;
    judge_all(numbers, tables, starts, lines, begun, marks)
}
