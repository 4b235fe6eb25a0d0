// A run's own starts: a graph and lent rows in; the starts as triples, each once, out.
// They cannot be read from the record: a start that was a fact already has no line of its own. They are worked out from what the main part leaves.
#![tactic(auto)]

ghost use Rattle.std.specs.Prelude.{◌≡◌, ℕ, ◌+◌, ◌*◌, ◌<◌, ◌≤◌, false, length, get_or};
ghost use Rattle.bit_row.specs.Row.{bytes_for, bit_at};
ghost use Rattle.facts.specs.tables_crate.Layout.{start_of, all_sections};
ghost use Rattle.facts.specs.graph_tables_crate.Tables.{header_in};
ghost use Rattle.facts.specs.graph_crate.Check.{graph_in, HeaderRead};
ghost use Rattle.facts.specs.Facts.{mark_count};
ghost use Rattle.keep_rules.specs.Prepared.{Prepared};
ghost use Rattle.worklist.specs.Links.{partners_size};
ghost use Rattle.entry_order.specs.Plan.{plan_size};
ghost use Rattle.run_starts.specs.Operation.{rows as rows_of, worked, Ends, ReadsStarts};
ghost use Rattle.run_starts.specs.Parts.{MainReached, Given};

use facts::graph_format_crate::Header;
use facts::refusal_crate::Refusal;
use facts::tables_crate::{LARGE, LARGEST, MIDDLE, SMALL, Size};
use run_parts::Part;
use tree_shaking::Reached;

// Gives the starts of a main part, if there is room for them: they are counted into a row of their own first, so that nothing is written before the
// last refusal is excluded. The marks of starts are 0 before.
fn give(
    numbers: &[u32],
    tables: &[usize],
    plan: &[usize],
    lines: &[u32],
    reached: Reached,
    seen: &mut [u8],
    out: &mut [u32],
) -> Result<usize, Refusal>
    requires prepared { Prepared numbers.now tables.now }
    requires main_reached { MainReached (graph_in numbers.now) lines.now plan.now reached }
    requires numbers_bound { (mark_count (graph_in numbers.now) ≤ 8 * length seen.old) × ((j : ℕ) → bit_at seen.old j ≡ false) }
    ensures { Given (graph_in numbers.now) out.old out.new result }
{
    let mut none = [0u32; 1];
    let n = own_starts::note_all(numbers, tables, plan, lines, reached, seen, &mut none);
    if out.len() < 3 * n {
        return Err(Refusal::NoRoom);
    }
    let bytes = seen.len();
    bit_row::clear(seen, bytes);
    own_starts::note_all(numbers, tables, plan, lines, reached, seen, out);
    Ok(3 * n)
}

// The work and the starts, with marks that are long enough. Marks and record are cleared where record or starts are short.
fn work_and_give(
    numbers: &[u32],
    tables: &[usize],
    partners: &mut [usize],
    plan: &mut [usize],
    seen: &mut [u8],
    marks: &mut [u8],
    lines: &mut [u32],
    out: &mut [u32],
) -> Result<usize, Refusal>
    requires prepared { Prepared numbers.now tables.now }
    requires numbers_in_bounds { (bytes_for (mark_count (graph_in numbers.now)) ≤ length marks.old) × (partners_size (header_in numbers.now) ≤ length partners.old) × ((i : ℕ) → get_or partners.old i 0 ≡ 0) }
    requires numbers_in_bounds_2 { (plan_size (header_in numbers.now) ≤ length plan.old) × (length plan.old < 4294967296) × ((i : ℕ) → get_or plan.old i 0 ≡ 0) }
    requires numbers_bound { (mark_count (graph_in numbers.now) ≤ 8 * length seen.old) × ((j : ℕ) → bit_at seen.old j ≡ false) }
    ensures { Ends (worked (graph_in numbers.now) (length lines.old) (length out.old)) result (rows_of marks.old lines.old out.old) (rows_of marks.new lines.new out.new) }
{
    match run_parts::work(numbers, tables, partners, marks, lines, plan, Part::Main) {
        Err(_) => Err(Refusal::NoRoom),
        Ok(x) => match give(numbers, tables, plan, lines, x, seen, out) {
            Ok(n) => Ok(n),
            Err(why) => {
                keep_record::clear(marks, lines);
                Err(why)
            }
        },
    }
}

// The starts with tables, partners, a plan and marks of starts that hold the graph. All of these but the tables are 0 before.
fn starts_in(
    numbers: &[u32],
    h: Header,
    tables: &mut [usize],
    partners: &mut [usize],
    plan: &mut [usize],
    seen: &mut [u8],
    marks: &mut [u8],
    lines: &mut [u32],
    out: &mut [u32],
) -> Result<usize, Refusal>
    requires header_read { HeaderRead numbers.now h }
    requires all_sections_in_bounds { (start_of h all_sections ≤ length tables.old) × (length tables.old < 4294967296) }
    requires h_in_bounds { (partners_size h ≤ length partners.old) × ((i : ℕ) → get_or partners.old i 0 ≡ 0) }
    requires h_in_bounds_2 { (plan_size h ≤ length plan.old) × (length plan.old < 4294967296) × ((i : ℕ) → get_or plan.old i 0 ≡ 0) }
    requires symbols_bound { (2 * h.modules + h.statements + 63 * h.symbols ≤ 8 * length seen.old) × ((j : ℕ) → bit_at seen.old j ≡ false) }
    ensures { ReadsStarts numbers.now result (rows_of marks.old lines.old out.old) (rows_of marks.new lines.new out.new) }
{
    rule_tables::ready(numbers, h, tables)?;
    if marks.len() < bit_row::bytes_for(facts::mark_count(numbers, tables)) {
        return Err(Refusal::NoRoom);
    }
    work_and_give(numbers, tables, partners, plan, seen, marks, lines, out)
}

// The starts with tables of T words, partners of P words, a plan of L words and marks of M bytes.
fn starts_with<const T: usize, const P: usize, const L: usize, const M: usize>(
    numbers: &[u32],
    h: Header,
    marks: &mut [u8],
    lines: &mut [u32],
    out: &mut [u32],
) -> Result<usize, Refusal>
    requires header_read { HeaderRead numbers.now h }
    requires room { (start_of h all_sections ≤ T) × (T < 4294967296) × (partners_size h ≤ P) × (P < 4294967296) × (plan_size h ≤ L) × (L < 4294967296) × (2 * h.modules + h.statements + 63 * h.symbols ≤ 8 * M) × (M < 4294967296) }
    ensures { ReadsStarts numbers.now result (rows_of marks.old lines.old out.old) (rows_of marks.new lines.new out.new) }
{
    let mut tables = [0usize; T];
    let mut partners = [0usize; P];
    let mut plan = [0usize; L];
    let mut seen = [0u8; M];
    starts_in(
        numbers,
        h,
        &mut tables,
        &mut partners,
        &mut plan,
        &mut seen,
        marks,
        lines,
        out,
    )
}

// The starts with tables for a larger graph, by its size. `again` is 0 (`frames::apart`).
fn starts_larger(
    numbers: &[u32],
    h: Header,
    marks: &mut [u8],
    lines: &mut [u32],
    out: &mut [u32],
    again: usize,
) -> Result<usize, Refusal>
    requires { HeaderRead numbers.now h }
    ensures { ReadsStarts numbers.now result (rows_of marks.old lines.old out.old) (rows_of marks.new lines.new out.new) }
{
    if again > 0 {
        return starts_larger(numbers, h, marks, lines, out, again - 1);
    }
    if facts::tables_crate::fits(h, Size::Middle) {
        return starts_with::<MIDDLE, 1408, 640, 8224>(numbers, h, marks, lines, out);
    }
    if facts::tables_crate::fits(h, Size::Large) {
        return starts_with::<LARGE, 7168, 5120, 33024>(numbers, h, marks, lines, out);
    }
    starts_with::<LARGEST, 19456, 5120, 131328>(numbers, h, marks, lines, out)
}

// Gives a run's own starts, with tables of the smallest size that holds the graph.
pub fn starts(
    numbers: &[u32],
    marks: &mut [u8],
    lines: &mut [u32],
    out: &mut [u32],
) -> Result<usize, Refusal>
    ensures { ReadsStarts numbers.now result (rows_of marks.old lines.old out.old) (rows_of marks.new lines.new out.new) }
{
    facts::graph_crate::header(numbers)?;
    let h = facts::graph_crate::header_of(numbers);
    if facts::tables_crate::fits(h, Size::Small) {
        return starts_with::<SMALL, 112, 80, 516>(numbers, h, marks, lines, out);
    }
    starts_larger(numbers, h, marks, lines, out, frames::apart(numbers))
}
