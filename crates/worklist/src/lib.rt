// The drain's work: each line in turn, and what follows from it added behind the last line (include_statements.rs).
#![tactic(auto)]

ghost use Rattle.std.specs.Prelude.{◌≡◌, ℕ, ◌+◌, ◌*◌, ◌-◌, ◌/◌, ◌<◌, ◌≤◌, List, [], ◌∷◌, length, get_or, take, drop};
ghost use Rattle.determine_side_effects.specs.graph_tables_crate.Tables.{header_in};
ghost use Rattle.determine_side_effects.specs.graph_crate.Check.{graph_in};
ghost use Rattle.determine_side_effects.specs.graph_access_crate.Names.{owner as owner_in};
ghost use Rattle.determine_side_effects.specs.Effects.{last_verdicts};
ghost use Rattle.determine_side_effects.specs.facts_crate.Facts.{Good, mark_count};
ghost use Rattle.determine_side_effects.specs.graph_access_crate.Words.{symbol_of};
ghost use Rattle.keep_rules.specs.Prepared.{Prepared};
ghost use Rattle.keep_record.specs.Lines.{adds};
ghost use Rattle.keep_record.specs.Held.{line_at, lines_of, Held, Grown};
ghost use Rattle.worklist.specs.Drain.{joined, joins_all, joins, news, drained, started, drain_of};
ghost use Rattle.starts.specs.Starts.{starts_of};
ghost use Rattle.worklist.specs.Links.{Linked, LinkReady, StillLinked, AllLinked, firsts_at, lasts_at, nexts_at, partners_size};
ghost use Rattle.starts.specs.Starts.{StartsGood};
ghost use Rattle.determine_side_effects.specs.facts_crate.declared.Fact.TheVariants.{Forward};

use determine_side_effects::facts_crate::Fact;
use determine_side_effects::graph_access_crate::symbols;
use determine_side_effects::graph_format_crate::Header;
use determine_side_effects::index_crate::{ModuleIdx, SymbolIdx};
use keep_record::{Full, Line, Stage};

// Where in the table of K1's partners the first forwards begin.
pub fn firsts_at(h: Header) -> usize
    requires { partners_size h < 18446744073709551616 }
    ensures { result ≡ firsts_at h }
{
    h.modules
}

// Where in the table of K1's partners the last forwards begin.
pub fn lasts_at(h: Header) -> usize
    requires { partners_size h < 18446744073709551616 }
    ensures { result ≡ lasts_at h }
{
    2 * h.modules
}

// Where in the table of K1's partners the next forwards begin.
pub fn nexts_at(h: Header) -> usize
    requires { partners_size h < 18446744073709551616 }
    ensures { result ≡ nexts_at h }
{
    3 * h.modules
}

// K1: adds the statements that declare forward s, naming lines a and b.
fn declare(
    numbers: &[u32],
    tables: &[usize],
    marks: &mut [u8],
    lines: &mut [u32],
    stage: Stage,
    s: SymbolIdx,
    a: usize,
    b: usize,
) -> Result<usize, Full>
    requires prepared { Prepared numbers.now tables.now }
    requires held { Held (graph_in numbers.now) stage.base marks.old lines.old stage.count }
    requires s_bound { (s.0 < (header_in numbers.now).symbols) × (a ≤ stage.count) × (b ≤ stage.count) }
    ensures { Grown (graph_in numbers.now) stage.base (adds (graph_in numbers.now) stage.base (lines_of stage.count lines.old) (joined (graph_in numbers.now) s.0 a b)) marks.new lines.new result }
{
    let owner = symbols::owner(numbers, tables, s);
    let declaring = symbols::declaring_count(numbers, tables, s);
    let base = stage.base;
    let mut total = stage.count;
    for i in 0..declaring {
        let statement = symbols::declaring(numbers, tables, s, i);
        let line = Line {
            fact: Fact::Statement(owner, statement),
            rule: 1,
            because: a,
            and: b,
        };
        total = keep_record::add(
            numbers,
            tables,
            marks,
            lines,
            Stage { base, count: total },
            line,
        )?;
    }
    Ok(total)
}

// K1 at the line k of module m: its forwards on earlier lines, in their order.
fn join_forwards(
    numbers: &[u32],
    tables: &[usize],
    partners: &[usize],
    marks: &mut [u8],
    lines: &mut [u32],
    stage: Stage,
    m: ModuleIdx,
    k: usize,
) -> Result<usize, Full>
    requires prepared { Prepared numbers.now tables.now }
    requires held { Held (graph_in numbers.now) stage.base marks.old lines.old stage.count }
    requires linked { Linked (graph_in numbers.now) stage.base partners.now (take k (lines_of stage.count lines.old)) }
    requires m_bound { (m.0 < (header_in numbers.now).modules) × (stage.base ≤ k) × (k < stage.count) }
    ensures { Grown (graph_in numbers.now) stage.base (adds (graph_in numbers.now) stage.base (lines_of stage.count lines.old) (joins_all (graph_in numbers.now) m.0 k stage.base (drop stage.base (take k (lines_of stage.count lines.old))))) marks.new lines.new result }
{
    let h = determine_side_effects::graph_crate::header_of(numbers);
    let firsts = firsts_at(h);
    let nexts = nexts_at(h);
    let owner = m.0;
    let base = stage.base;
    let mut total = stage.count;
    let mut at = partners[firsts + owner];
    while at > 0 {
        let s = SymbolIdx(determine_side_effects::facts_crate::first_part(keep_record::fact_at(
            lines,
            at - 1,
        )));
        total = declare(
            numbers,
            tables,
            marks,
            lines,
            Stage { base, count: total },
            s,
            k + 1,
            at,
        )?;
        at = partners[nexts + s.0];
    }
    Ok(total)
}

// K1 at line k, which has this fact.
fn join(
    numbers: &[u32],
    tables: &[usize],
    partners: &[usize],
    marks: &mut [u8],
    lines: &mut [u32],
    stage: Stage,
    fact: Fact,
    k: usize,
) -> Result<usize, Full>
    requires prepared { Prepared numbers.now tables.now }
    requires held { Held (graph_in numbers.now) stage.base marks.old lines.old stage.count }
    requires linked { Linked (graph_in numbers.now) stage.base partners.now (take k (lines_of stage.count lines.old)) }
    requires good { Good (graph_in numbers.now) fact × (stage.base ≤ k) × (k < stage.count) }
    ensures { Grown (graph_in numbers.now) stage.base (adds (graph_in numbers.now) stage.base (lines_of stage.count lines.old) (joins (graph_in numbers.now) stage.base (lines_of stage.count lines.old) k fact)) marks.new lines.new result }
{
    match fact {
        Fact::Module(m) => join_forwards(numbers, tables, partners, marks, lines, stage, m, k),
        Fact::Forward(s) => {
            let owner = symbols::owner(numbers, tables, s);
            let o = owner.0;
            let line = partners[o];
            if line == 0 {
                return Ok(stage.count);
            }
            let name = if line <= stage.base { 0 } else { line };
            declare(numbers, tables, marks, lines, stage, s, k + 1, name)
        }
        Fact::Statement(_, _) => Ok(stage.count),
        Fact::Use(_, _) => Ok(stage.count),
        Fact::CheckedUse(_, _) => Ok(stage.count),
        Fact::Bailout(_) => Ok(stage.count),
    }
}

// Enters line k, a forward of symbol s, into the table.
fn link_forward(
    numbers: &[u32],
    tables: &[usize],
    partners: &mut [usize],
    lines: &[u32],
    stage: Stage,
    s: SymbolIdx,
    k: usize,
)
    requires prepared { Prepared numbers.now tables.now }
    requires link_ready { LinkReady (graph_in numbers.now) stage.base lines.now stage.count k (Forward s) }
    requires linked { Linked (graph_in numbers.now) stage.base partners.old (take k (lines_of stage.count lines.now)) }
    ensures { Linked (graph_in numbers.now) stage.base partners.new (take (k + 1) (lines_of stage.count lines.now)) }
{
    let h = determine_side_effects::graph_crate::header_of(numbers);
    let firsts = firsts_at(h);
    let lasts = lasts_at(h);
    let nexts = nexts_at(h);
    let owner = symbols::owner(numbers, tables, s);
    let last = partners[lasts + owner.0];
    if last == 0 {
        partners[firsts + owner.0] = k + 1;
    } else {
        let before = determine_side_effects::facts_crate::first_part(keep_record::fact_at(
            lines,
            last - 1,
        ));
        partners[nexts + before] = k + 1;
    }
    partners[lasts + owner.0] = k + 1;
    partners[nexts + s.0] = 0;
}

// Enters line k, which has this fact, into the table.
fn link(
    numbers: &[u32],
    tables: &[usize],
    partners: &mut [usize],
    lines: &[u32],
    stage: Stage,
    fact: Fact,
    k: usize,
)
    requires prepared { Prepared numbers.now tables.now }
    requires link_ready { LinkReady (graph_in numbers.now) stage.base lines.now stage.count k fact }
    requires linked { Linked (graph_in numbers.now) stage.base partners.old (take k (lines_of stage.count lines.now)) }
    ensures { Linked (graph_in numbers.now) stage.base partners.new (take (k + 1) (lines_of stage.count lines.now)) }
{
    match fact {
        Fact::Module(m) => {
            let i = m.0;
            partners[i] = k + 1;
        }
        Fact::Forward(s) => link_forward(numbers, tables, partners, lines, stage, s, k),
        Fact::Statement(_, _) => {}
        Fact::Use(_, _) => {}
        Fact::CheckedUse(_, _) => {}
        Fact::Bailout(_) => {}
    }
}

// Handles line k: all that follows from it and the lines before it.
fn handle(
    numbers: &[u32],
    tables: &[usize],
    partners: &mut [usize],
    marks: &mut [u8],
    lines: &mut [u32],
    stage: Stage,
    k: usize,
) -> Result<usize, Full>
    requires prepared { Prepared numbers.now tables.now }
    requires held { Held (graph_in numbers.now) stage.base marks.old lines.old stage.count }
    requires linked { Linked (graph_in numbers.now) stage.base partners.old (take k (lines_of stage.count lines.old)) }
    requires base_le_k { (stage.base ≤ k) × (k < stage.count) }
    ensures { Grown (graph_in numbers.now) stage.base (adds (graph_in numbers.now) stage.base (lines_of stage.count lines.old) (news (graph_in numbers.now) (last_verdicts (graph_in numbers.now)) stage.base (lines_of stage.count lines.old) k)) marks.new lines.new result × StillLinked (graph_in numbers.now) stage.base partners.new lines.new (k + 1) result }
{
    let base = stage.base;
    let fact = keep_record::fact_at(lines, k);
    let joined = join(numbers, tables, partners, marks, lines, stage, fact, k)?;
    link(
        numbers,
        tables,
        partners,
        lines,
        Stage {
            base,
            count: joined,
        },
        fact,
        k,
    );
    include_statements::follow(
        numbers,
        tables,
        marks,
        lines,
        Stage {
            base,
            count: joined,
        },
        fact,
        k,
    )
}

// Handles the lines from number k on, those that come to it too.
fn drain_work_items(
    numbers: &[u32],
    tables: &[usize],
    partners: &mut [usize],
    marks: &mut [u8],
    lines: &mut [u32],
    stage: Stage,
    k: usize,
) -> Result<usize, Full>
    requires prepared { Prepared numbers.now tables.now }
    requires held { Held (graph_in numbers.now) stage.base marks.old lines.old stage.count }
    requires linked { Linked (graph_in numbers.now) stage.base partners.old (take k (lines_of stage.count lines.old)) }
    requires base_le_k { (stage.base ≤ k) × (k ≤ stage.count) }
    ensures { Grown (graph_in numbers.now) stage.base (drained (graph_in numbers.now) (last_verdicts (graph_in numbers.now)) stage.base (mark_count (graph_in numbers.now)) k (lines_of stage.count lines.old)) marks.new lines.new result × AllLinked (graph_in numbers.now) stage.base partners.new lines.new result }
{
    let base = stage.base;
    let mut total = stage.count;
    let mut at = k;
    while at < total {
        total = handle(
            numbers,
            tables,
            partners,
            marks,
            lines,
            Stage { base, count: total },
            at,
        )?;
        at += 1;
    }
    Ok(total)
}

// One start: adds its fact, and handles all that follows from it.
pub fn start(
    numbers: &[u32],
    tables: &[usize],
    partners: &mut [usize],
    marks: &mut [u8],
    lines: &mut [u32],
    stage: Stage,
    fact: Fact,
) -> Result<usize, Full>
    requires prepared { Prepared numbers.now tables.now }
    requires held { Held (graph_in numbers.now) stage.base marks.old lines.old stage.count }
    requires linked { Linked (graph_in numbers.now) stage.base partners.old (lines_of stage.count lines.old) }
    requires good { Good (graph_in numbers.now) fact }
    ensures { Grown (graph_in numbers.now) stage.base (started (graph_in numbers.now) (last_verdicts (graph_in numbers.now)) stage.base (lines_of stage.count lines.old) fact) marks.new lines.new result × AllLinked (graph_in numbers.now) stage.base partners.new lines.new result }
{
    let base = stage.base;
    let before = stage.count;
    let line = Line {
        fact,
        rule: 0,
        because: 0,
        and: 0,
    };
    let n = keep_record::add(numbers, tables, marks, lines, stage, line)?;
    drain_work_items(
        numbers,
        tables,
        partners,
        marks,
        lines,
        Stage { base, count: n },
        before,
    )
}

// Each start in turn, with all that follows from it before the next. The rows are cleared.
pub fn drain_starts(
    numbers: &[u32],
    tables: &[usize],
    starts: &[u32],
    partners: &mut [usize],
    marks: &mut [u8],
    lines: &mut [u32],
) -> Result<usize, Full>
    requires prepared { Prepared numbers.now tables.now }
    requires held { Held (graph_in numbers.now) 0 marks.old lines.old 0 }
    requires linked { Linked (graph_in numbers.now) 0 partners.old [] }
    requires starts_good { StartsGood (graph_in numbers.now) (starts_of starts.now) }
    ensures { Grown (graph_in numbers.now) 0 (drain_of (graph_in numbers.now) (last_verdicts (graph_in numbers.now)) (starts_of starts.now)) marks.new lines.new result }
{
    let triples = starts.len() / 3;
    let mut total: usize = 0;
    for i in 0..triples {
        let p = 3 * i;
        let fact = determine_side_effects::facts_crate::fact_of(
            determine_side_effects::rows_crate::wide(starts[p]),
            determine_side_effects::rows_crate::wide(starts[p + 1]),
            determine_side_effects::rows_crate::wide(starts[p + 2]),
        );
        total = start(
            numbers,
            tables,
            partners,
            marks,
            lines,
            Stage {
                base: 0,
                count: total,
            },
            fact,
        )?;
    }
    Ok(total)
}
