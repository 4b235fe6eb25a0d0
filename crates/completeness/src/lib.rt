// Whether anything is absent from a record: a start, or what follows from its lines.
#![tactic(auto)]

ghost use Rattle.std.specs.Prelude.{◌≡◌, ℕ, ◌+◌, ◌*◌, ◌/◌, ◌<◌, ◌≤◌, eqb, length, get_or};
ghost use Rattle.determine_side_effects.specs.graph_tables_crate.Tables.{header_in};
ghost use Rattle.determine_side_effects.specs.graph_crate.Check.{graph_in};
ghost use Rattle.determine_side_effects.specs.Effects.{last_verdicts};
ghost use Rattle.determine_side_effects.specs.facts_crate.Facts.{fact_of, Good, mark_count};
ghost use Rattle.keep_rules.specs.Prepared.{Prepared};
ghost use Rattle.keep_record.specs.Held.{line_at, lines_of};
ghost use Rattle.starts.specs.Starts.{starts_of, StartsGood};
ghost use Rattle.marked.specs.Marked.{marked};
ghost use Rattle.completeness.specs.Complete.{all, is_closed_at, are_declared, is_closed_fact, are_closed};

use determine_side_effects::facts_crate::Fact;
use determine_side_effects::graph_access_crate::{modules, symbols};
use determine_side_effects::index_crate::SymbolIdx;
use include_context::IncludeContext;
use keep_rules::Candidate;
use marked::is_marked;

// The fact of start i.
pub fn start_at(starts: &[u32], i: usize) -> Fact
    requires { 3 * i + 3 ≤ length starts.now }
    ensures { result ≡ fact_of (get_or starts.now (3 * i) 0) (get_or starts.now (3 * i + 1) 0) (get_or starts.now (3 * i + 2) 0) }
{
    let p = 3 * i;
    determine_side_effects::facts_crate::fact_of(
        determine_side_effects::rows_crate::wide(starts[p]),
        determine_side_effects::rows_crate::wide(starts[p + 1]),
        determine_side_effects::rows_crate::wide(starts[p + 2]),
    )
}

// Whether all starts are marked.
pub fn are_marked(numbers: &[u32], tables: &[usize], starts: &[u32], marks: &[u8]) -> bool
    requires prepared { Prepared numbers.now tables.now }
    requires starts_good { StartsGood (graph_in numbers.now) (starts_of starts.now) × (mark_count (graph_in numbers.now) ≤ 8 * length marks.now) }
    ensures { result ≡ all (marked (graph_in numbers.now) marks.now) (starts_of starts.now) }
{
    let count = starts.len() / 3;
    for i in 0..count {
        if !is_marked(numbers, tables, marks, start_at(starts, i)) {
            return false;
        }
    }
    true
}

// Whether all that follows from the fact by K2 to K14 is marked. Each segment is asked once for its length.
fn is_closed_at(numbers: &[u32], tables: &[usize], marks: &[u8], fact: Fact) -> bool
    requires prepared { Prepared numbers.now tables.now }
    requires good { Good (graph_in numbers.now) fact × (mark_count (graph_in numbers.now) ≤ 8 * length marks.now) }
    ensures { result ≡ is_closed_at (graph_in numbers.now) (last_verdicts (graph_in numbers.now)) (marked (graph_in numbers.now) marks.now) fact }
{
    let count = consequences::segment_count(numbers, tables, fact);
    let mut place: usize = 0;
    for j in 0..count {
        let candidates = consequences::segment_candidates(numbers, tables, fact, j, place);
        for c in 0..candidates {
            match consequences::segment_candidate(numbers, tables, fact, j, c, place) {
                Candidate::Gives(found) => {
                    if !is_marked(numbers, tables, marks, found) {
                        return false;
                    }
                }
                Candidate::Nothing => {}
            }
        }
        place = consequences::place_behind(numbers, tables, fact, j, place);
    }
    true
}

// Whether, if the owner of symbol s is marked, the statements that declare it are marked (K1).
fn are_declared(numbers: &[u32], tables: &[usize], marks: &[u8], s: SymbolIdx) -> bool
    requires prepared { Prepared numbers.now tables.now }
    requires s_bound { (s.0 < (header_in numbers.now).symbols) × (mark_count (graph_in numbers.now) ≤ 8 * length marks.now) }
    ensures { result ≡ are_declared (graph_in numbers.now) (marked (graph_in numbers.now) marks.now) s.0 }
{
    let owner = symbols::owner(numbers, tables, s);
    if !modules::is_normal(numbers, tables, owner) {
        return true;
    }
    if !is_marked(numbers, tables, marks, Fact::Module(owner)) {
        return true;
    }
    let count = symbols::declaring_count(numbers, tables, s);
    for i in 0..count {
        let statement = symbols::declaring(numbers, tables, s, i);
        if !is_marked(numbers, tables, marks, Fact::Statement(owner, statement)) {
            return false;
        }
    }
    true
}

// Whether all that follows from the fact and those that are marked is marked.
fn is_closed_fact(numbers: &[u32], tables: &[usize], marks: &[u8], fact: Fact) -> bool
    requires prepared { Prepared numbers.now tables.now }
    requires good { Good (graph_in numbers.now) fact × (mark_count (graph_in numbers.now) ≤ 8 * length marks.now) }
    ensures { result ≡ is_closed_fact (graph_in numbers.now) (last_verdicts (graph_in numbers.now)) (marked (graph_in numbers.now) marks.now) fact }
{
    match fact {
        Fact::Forward(s) => are_declared(numbers, tables, marks, s),
        Fact::Bailout(_) => true,
        Fact::Module(_) => is_closed_at(numbers, tables, marks, fact),
        Fact::Statement(_, _) => is_closed_at(numbers, tables, marks, fact),
        Fact::Use(_, _) => is_closed_at(numbers, tables, marks, fact),
        Fact::CheckedUse(_, _) => is_closed_at(numbers, tables, marks, fact),
    }
}

// The number of the first line from which something follows that is not marked, or of lines where there is none; for slices of one lifetime.
fn first_open_plain<'a>(
    numbers: &'a [u32],
    tables: &'a [usize],
    lines: &[u32],
    marks: &[u8],
) -> usize
    requires { Prepared numbers.now tables.now × ((k : ℕ) → k < length lines.now / 6 → Good (graph_in numbers.now) (line_at lines.now k).fact) × (mark_count (graph_in numbers.now) ≤ 8 * length marks.now) }
    ensures { eqb result (length lines.now / 6) ≡ are_closed (graph_in numbers.now) (last_verdicts (graph_in numbers.now)) (marked (graph_in numbers.now) marks.now) (lines_of (length lines.now / 6) lines.now) }
{
    let count = lines.len() / 6;
    for k in 0..count {
        if !is_closed_fact(numbers, tables, marks, keep_record::fact_at(lines, k)) {
            return k;
        }
    }
    count
}

// The same over the view.
fn first_open_in<'a>(context: IncludeContext<'a>, lines: &[u32], marks: &[u8]) -> usize
    requires { Prepared context.numbers.now context.tables.now × ((k : ℕ) → k < length lines.now / 6 → Good (graph_in context.numbers.now) (line_at lines.now k).fact) × (mark_count (graph_in context.numbers.now) ≤ 8 * length marks.now) }
    ensures { eqb result (length lines.now / 6) ≡ are_closed (graph_in context.entry.numbers.now) (last_verdicts (graph_in context.entry.numbers.now)) (marked (graph_in context.entry.numbers.now) marks.now) (lines_of (length lines.now / 6) lines.now) }
{
    first_open_plain(context.numbers, context.tables, lines, marks)
}

// The same for a caller that has the two slices.
fn first_open<'a>(numbers: &'a [u32], tables: &'a [usize], lines: &[u32], marks: &[u8]) -> usize
    requires { Prepared numbers.now tables.now × ((k : ℕ) → k < length lines.now / 6 → Good (graph_in numbers.now) (line_at lines.now k).fact) × (mark_count (graph_in numbers.now) ≤ 8 * length marks.now) }
    ensures { eqb result (length lines.now / 6) ≡ are_closed (graph_in numbers.now) (last_verdicts (graph_in numbers.now)) (marked (graph_in numbers.now) marks.now) (lines_of (length lines.now / 6) lines.now) }
{
    first_open_in(IncludeContext { numbers, tables }, lines, marks)
}

// Whether all that follows from the lines is marked.
pub fn are_closed<'a>(numbers: &'a [u32], tables: &'a [usize], lines: &[u32], marks: &[u8]) -> bool
    requires prepared { Prepared numbers.now tables.now }
    requires by_index { ((k : ℕ) → k < length lines.now / 6 → Good (graph_in numbers.now) (line_at lines.now k).fact) × (mark_count (graph_in numbers.now) ≤ 8 * length marks.now) }
    ensures { result ≡ are_closed (graph_in numbers.now) (last_verdicts (graph_in numbers.now)) (marked (graph_in numbers.now) marks.now) (lines_of (length lines.now / 6) lines.now) }
{
    first_open(numbers, tables, lines, marks) == lines.len() / 6
}
