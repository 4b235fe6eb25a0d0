// The lines of a record, one after another: whether each is in form, has a new fact, and is justified.
// A drain writes the consequences of a line together and in order, so the lines of drains and runs are judged in one walk (`Trail`). Any other line
// costs at most two searches of one rule's candidates of the line that it names.
#![tactic(auto)]

ghost use Rattle.std.specs.Prelude.{◌≡◌, ℕ, ◌+◌, ◌*◌, ◌/◌, ◌<◌, ◌≤◌, Bool, true, false, List, [], length};
ghost use Rattle.determine_side_effects.specs.graph_crate.Check.{graph_in};
ghost use Rattle.determine_side_effects.specs.Effects.{last_verdicts};
ghost use Rattle.keep_rules.specs.Prepared.{Prepared};
ghost use Rattle.keep_record.specs.Held.{lines_of};
ghost use Rattle.starts.specs.Starts.{starts_of};
ghost use Rattle.fact_marks.specs.Marks.{Marks};
ghost use Rattle.record_form.specs.Form.{in_form};
ghost use Rattle.line_judgement.specs.Stand.{stands, first_bad};
ghost use Rattle.line_judgement.specs.Steps.{facts_of, Trails, AllStand, Begins, Justifies, JudgesLine, JudgesLines};

use consequences::Cursor;
use marked::is_marked;

// Where the search for the last line's justification ended: the line's rule and names, and a cursor to go on from. Rule 0: there was no search.
#[derive(Clone, Copy)]
pub struct Trail {
    pub rule: usize,
    pub because: usize,
    pub and: usize,
    pub segment: usize,
    pub index: usize,
    pub place: usize,
}

// Where the search for the justification of a line with this rule and these names begins.
fn begin(trail: Trail, rule: usize, because: usize, and: usize) -> Cursor
    ensures { (numbers : List ℕ) → Begins numbers trail rule because and result }
{
    let fresh = Cursor {
        segment: 0,
        index: 0,
        place: 0,
    };
    if trail.rule != rule {
        return fresh;
    }
    if trail.because != because {
        return fresh;
    }
    if trail.and != and {
        return fresh;
    }
    Cursor {
        segment: trail.segment,
        index: trail.index,
        place: trail.place,
    }
}

// Whether line k, in form, is a start or follows from the lines that it names. `begun` has the marks of the starts.
fn justify(
    numbers: &[u32],
    tables: &[usize],
    starts: &[u32],
    begun: &[u8],
    lines: &[u32],
    k: usize,
    trail: Trail,
) -> Option<Trail>
    requires prepared { Prepared numbers.now tables.now }
    requires marks { Marks (graph_in numbers.now) (starts_of starts.now) begun.now }
    requires k_in_bounds { (6 * k + 6 ≤ length lines.now) × AllStand (graph_in numbers.now) (starts_of starts.now) lines.now k × (in_form (graph_in numbers.now) lines.now k ≡ true) × Trails numbers.now lines.now trail }
    ensures { Justifies numbers.now (starts_of starts.now) lines.now k result }
{
    let p = 6 * k;
    let fact = keep_record::fact_at(lines, k);
    let rule = determine_side_effects::rows_crate::wide(lines[p + 3]);
    if rule == 0 {
        if is_marked(numbers, tables, begun, fact) {
            return Some(trail);
        }
        return None;
    }
    let because = determine_side_effects::rows_crate::wide(lines[p + 4]);
    let and = determine_side_effects::rows_crate::wide(lines[p + 5]);
    let cursor = begin(trail, rule, because, and);
    let premise = keep_record::fact_at(lines, because - 1);
    if rule == 1 {
        let other = keep_record::fact_at(lines, and - 1);
        match justification::joins(numbers, tables, premise, other, fact, cursor.index) {
            None => None,
            Some(i) => Some(Trail {
                rule,
                because,
                and,
                segment: 0,
                index: i,
                place: 0,
            }),
        }
    } else {
        match justification::follows(numbers, tables, premise, rule, fact, cursor) {
            None => None,
            Some(next) => Some(Trail {
                rule,
                because,
                and,
                segment: next.segment,
                index: next.index,
                place: next.place,
            }),
        }
    }
}

// Whether line k stands: in form, its fact is new, and justified. If so its fact is marked.
fn judge_line(
    numbers: &[u32],
    tables: &[usize],
    starts: &[u32],
    begun: &[u8],
    lines: &[u32],
    marks: &mut [u8],
    k: usize,
    trail: Trail,
) -> Option<Trail>
    requires prepared { Prepared numbers.now tables.now }
    requires marks { Marks (graph_in numbers.now) (starts_of starts.now) begun.now × Marks (graph_in numbers.now) (facts_of (lines_of k lines.now)) marks.old }
    requires k_in_bounds { (6 * k + 6 ≤ length lines.now) × AllStand (graph_in numbers.now) (starts_of starts.now) lines.now k × Trails numbers.now lines.now trail }
    ensures { JudgesLine numbers.now (starts_of starts.now) lines.now marks.new k result }
{
    if !record_form::is_in_form(numbers, tables, lines, k) {
        return None;
    }
    let fact = keep_record::fact_at(lines, k);
    if is_marked(numbers, tables, marks, fact) {
        return None;
    }
    match justify(numbers, tables, starts, begun, lines, k, trail) {
        None => None,
        Some(next) => {
            fact_marks::mark(numbers, tables, marks, fact);
            Some(next)
        }
    }
}

// The number of the first line that is bad, or of lines where none is. The facts of the lines before it are marked.
pub fn judge_lines(
    numbers: &[u32],
    tables: &[usize],
    starts: &[u32],
    begun: &[u8],
    lines: &[u32],
    marks: &mut [u8],
) -> usize
    requires prepared { Prepared numbers.now tables.now }
    requires marks { Marks (graph_in numbers.now) (starts_of starts.now) begun.now × Marks (graph_in numbers.now) [] marks.old }
    ensures { (result ≡ first_bad (stands (graph_in numbers.now) (last_verdicts (graph_in numbers.now)) (starts_of starts.now) lines.now) 0 (length lines.now / 6)) × JudgesLines (graph_in numbers.now) (starts_of starts.now) lines.now marks.new result }
{
    let count = lines.len() / 6;
    let mut trail = Trail {
        rule: 0,
        because: 0,
        and: 0,
        segment: 0,
        index: 0,
        place: 0,
    };
    for k in 0..count {
        match judge_line(numbers, tables, starts, begun, lines, marks, k, trail) {
            None => {
                return k;
            }
            Some(next) => {
                trail = next;
            }
        }
    }
    count
}
