// The keep record and the marks: a line for each fact.
#![tactic(auto)]

ghost use Rattle.std.specs.Prelude.{◌≡◌, ℕ, ◌+◌, ◌*◌, ◌-◌, ◌<◌, ◌≤◌, List, [], ◌∷◌, ◌++◌, length, get_or, take, drop, replicate};
ghost use Rattle.facts.specs.graph_tables_crate.Tables.{header_in};
ghost use Rattle.facts.specs.graph_crate.Check.{graph_in};
ghost use Rattle.facts.specs.Facts.{kind_of, first_part, second_part, Good, mark_of};
ghost use Rattle.facts.specs.graph_crate.Loaded.{Loaded};
ghost use Rattle.keep_record.specs.Lines.{numbers_of, added};
ghost use Rattle.keep_record.specs.Held.{line_at, lines_of, Held, Grown, Writable};

use facts::Fact;

// A record line: a fact, the rule that gives it (0 for a start), and 1 more than the numbers of the lines that it follows from.
#[derive(Clone, Copy)]
pub struct Line {
    pub fact: Fact,
    pub rule: usize,
    pub because: usize,
    pub and: usize,
}

// How many lines the record has: the first `base` of them of an earlier stage, `count` in all.
#[derive(Clone, Copy)]
pub struct Stage {
    pub base: usize,
    pub count: usize,
}

// The record is too short for the next line.
#[derive(Clone, Copy, Debug, PartialEq, Eq)]
pub struct Full;

// The fact of line k.
pub fn fact_at(lines: &[u32], k: usize) -> Fact
    requires { 6 * k + 6 ≤ length lines.now }
    ensures { result ≡ (line_at lines.now k).fact }
{
    let p = 6 * k;
    facts::fact_of(
        facts::rows_crate::wide(lines[p]),
        facts::rows_crate::wide(lines[p + 1]),
        facts::rows_crate::wide(lines[p + 2]),
    )
}

// Writes line k.
fn write_line(lines: &mut [u32], k: usize, line: Line)
    requires k_in_bounds { 6 * k + 6 ≤ length lines.old }
    requires fact_bound { (first_part line.fact < 4294967296) × (second_part line.fact < 4294967296) × (line.rule < 4294967296) × (line.because < 4294967296) × (line.and < 4294967296) }
    ensures { lines.new ≡ take (6 * k) lines.old ++ (numbers_of line ++ drop (6 * k + 6) lines.old) }
{
    let p = 6 * k;
    let fact = line.fact;
    lines[p] = facts::narrow(facts::kind_of(fact));
    lines[p + 1] = facts::narrow(facts::first_part(fact));
    lines[p + 2] = facts::narrow(facts::second_part(fact));
    lines[p + 3] = facts::narrow(line.rule);
    lines[p + 4] = facts::narrow(line.because);
    lines[p + 5] = facts::narrow(line.and);
}

// Adds a line behind those of the record, unless its fact is there.
pub fn add(
    numbers: &[u32],
    tables: &[usize],
    marks: &mut [u8],
    lines: &mut [u32],
    stage: Stage,
    line: Line,
) -> Result<usize, Full>
    requires loaded { Loaded numbers.now tables.now }
    requires held { Held (graph_in numbers.now) stage.base marks.old lines.old stage.count }
    requires writable { Writable (graph_in numbers.now) stage.count line }
    ensures { Grown (graph_in numbers.now) stage.base (added (graph_in numbers.now) stage.base (lines_of stage.count lines.old) line) marks.new lines.new result }
{
    let count = stage.count;
    let fact = line.fact;
    let mark = facts::mark_of(numbers, tables, fact);
    if bit_row::test(marks, mark) {
        return Ok(count);
    }
    if lines.len() < 6 * count + 6 {
        return Err(Full);
    }
    bit_row::set(marks, mark);
    write_line(lines, count, line);
    Ok(count + 1)
}

// Clears the lines.
fn clear_lines(lines: &mut [u32])
    ensures { lines.new ≡ replicate (length lines.old) 0 }
{
    lines.fill(0);
}

// Clears marks and lines.
pub fn clear(marks: &mut [u8], lines: &mut [u32])
    ensures { (marks.new ≡ replicate (length marks.old) 0) × (lines.new ≡ replicate (length lines.old) 0) }
{
    let bytes = marks.len();
    bit_row::clear(marks, bytes);
    clear_lines(lines);
}
