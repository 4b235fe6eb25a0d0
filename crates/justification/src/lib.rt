// Whether a fact follows from others by a rule: the search of one rule's candidates, for the judge.
#![tactic(auto)]

ghost use Rattle.std.specs.Prelude.{◌≡◌, ℕ, ◌+◌, ◌<◌, ◌≤◌, length};
ghost use Rattle.determine_side_effects.specs.graph_tables_crate.Tables.{header_in};
ghost use Rattle.determine_side_effects.specs.graph_crate.Check.{graph_in};
ghost use Rattle.determine_side_effects.specs.facts_crate.Facts.{Good};
ghost use Rattle.keep_rules.specs.Prepared.{Prepared};
ghost use Rattle.consequences.specs.Cursors.{segments_in, segment_in, Placed};
ghost use Rattle.justification.specs.Justify.{same_fact};
ghost use Rattle.justification.specs.Search.{is_candidate, SpanAt, RuleSpan, SegmentSearched, SpanSearched, Followed, DeclaringSearched, Declared, JoinedOne, Joined};

use consequences::Cursor;
use determine_side_effects::facts_crate::Fact;
use determine_side_effects::graph_access_crate::symbols;
use determine_side_effects::index_crate::SymbolIdx;
use keep_rules::Candidate;

// Segments of a premise: from one up to, not with, another; and where the reference of the first one stands, if it has one.
#[derive(Clone, Copy)]
pub struct Span {
    pub from: usize,
    pub to: usize,
    pub place: usize,
}

// Whether two facts are the same.
pub fn same(a: Fact, b: Fact) -> bool
    ensures { result ≡ same_fact a b }
{
    if determine_side_effects::facts_crate::kind_of(a)
        != determine_side_effects::facts_crate::kind_of(b)
    {
        return false;
    }
    if determine_side_effects::facts_crate::first_part(a)
        != determine_side_effects::facts_crate::first_part(b)
    {
        return false;
    }
    determine_side_effects::facts_crate::second_part(a)
        == determine_side_effects::facts_crate::second_part(b)
}

// Whether a candidate gives the fact.
fn is_candidate(candidate: Candidate, fact: Fact) -> bool
    ensures { result ≡ is_candidate fact candidate }
{
    match candidate {
        Candidate::Gives(f) => same(f, fact),
        Candidate::Nothing => false,
    }
}

// The one segment of a rule where the rules of `count` segments ascend one by one from `first`; or none.
fn span_at(rule: usize, first: usize, count: usize) -> Span
    ensures { SpanAt rule first count result }
{
    let none = Span {
        from: 0,
        to: 0,
        place: 0,
    };
    if rule < first {
        return none;
    }
    let j = rule - first;
    if j >= count {
        return none;
    }
    Span {
        from: j,
        to: j + 1,
        place: 0,
    }
}

// The segments of the premise that are of this rule. Only K8 has more than one, one for each reference.
fn rule_span(numbers: &[u32], tables: &[usize], premise: Fact, rule: usize) -> Span
    requires prepared { Prepared numbers.now tables.now }
    requires good { Good (graph_in numbers.now) premise }
    ensures { RuleSpan numbers.now premise rule result }
{
    let count = consequences::segment_count(numbers, tables, premise);
    match premise {
        Fact::Module(_) => span_at(rule, 2, count),
        Fact::Statement(_, _) => {
            if rule == 8 {
                let place = consequences::place_behind(numbers, tables, premise, 0, 0);
                return Span {
                    from: 1,
                    to: count,
                    place,
                };
            }
            span_at(rule, 7, 1)
        }
        Fact::CheckedUse(_, _) => span_at(rule, 9, count),
        Fact::Use(_, _) => span_at(rule, 10, count),
        Fact::Forward(_) => span_at(rule, 0, 0),
        Fact::Bailout(_) => span_at(rule, 0, 0),
    }
}

// The first candidate of segment j from k on that gives the fact.
fn seek_segment(
    numbers: &[u32],
    tables: &[usize],
    premise: Fact,
    fact: Fact,
    j: usize,
    k: usize,
    place: usize,
) -> Option<usize>
    requires prepared { Prepared numbers.now tables.now }
    requires good { Good (graph_in numbers.now) premise }
    requires j_in_bounds { (j < length (segments_in numbers.now premise)) × Placed numbers.now premise j place }
    ensures { SegmentSearched numbers.now premise fact j k result }
{
    let count = consequences::segment_candidates(numbers, tables, premise, j, place);
    for i in k..count {
        let candidate = consequences::segment_candidate(numbers, tables, premise, j, i, place);
        if is_candidate(candidate, fact) {
            return Some(i);
        }
    }
    None
}

// The first candidate that gives the fact, from the cursor on, in the segments up to `to`.
fn seek_span(
    numbers: &[u32],
    tables: &[usize],
    premise: Fact,
    fact: Fact,
    cursor: Cursor,
    to: usize,
) -> Option<Cursor>
    requires prepared { Prepared numbers.now tables.now }
    requires good { Good (graph_in numbers.now) premise }
    requires to_in_bounds { (to ≤ length (segments_in numbers.now premise)) × Placed numbers.now premise cursor.segment cursor.place }
    ensures { SpanSearched numbers.now premise fact cursor to result }
{
    let mut k = cursor.index;
    let mut place = cursor.place;
    for j in cursor.segment..to {
        match seek_segment(numbers, tables, premise, fact, j, k, place) {
            Some(i) => {
                return Some(Cursor {
                    segment: j,
                    index: i + 1,
                    place,
                });
            }
            None => {
                place = consequences::place_behind(numbers, tables, premise, j, place);
                k = 0;
            }
        }
    }
    None
}

// Whether a rule of K2 to K14 gives the fact from the premise. The search begins at the cursor, where the last one for this premise and rule ended,
// and goes over all candidates of the rule only where the fact is not behind it.
pub fn follows(
    numbers: &[u32],
    tables: &[usize],
    premise: Fact,
    rule: usize,
    fact: Fact,
    cursor: Cursor,
) -> Option<Cursor>
    requires prepared { Prepared numbers.now tables.now }
    requires good { Good (graph_in numbers.now) premise }
    requires placed { Placed numbers.now premise cursor.segment cursor.place }
    ensures { Followed numbers.now premise rule fact result }
{
    let span = rule_span(numbers, tables, premise, rule);
    if cursor.segment >= span.from {
        match seek_span(numbers, tables, premise, fact, cursor, span.to) {
            Some(next) => {
                return Some(next);
            }
            None => {}
        }
    }
    let begin = Cursor {
        segment: span.from,
        index: 0,
        place: span.place,
    };
    seek_span(numbers, tables, premise, fact, begin, span.to)
}

// The first declaring statement of symbol s, from number k on, that is the fact.
fn seek_declaring(
    numbers: &[u32],
    tables: &[usize],
    s: SymbolIdx,
    fact: Fact,
    k: usize,
) -> Option<usize>
    requires prepared { Prepared numbers.now tables.now }
    requires s_bound { s.0 < (header_in numbers.now).symbols }
    ensures { DeclaringSearched numbers.now s.0 fact k result }
{
    let owner = symbols::owner(numbers, tables, s);
    let count = symbols::declaring_count(numbers, tables, s);
    for i in k..count {
        let statement = symbols::declaring(numbers, tables, s, i);
        if same(Fact::Statement(owner, statement), fact) {
            return Some(i);
        }
    }
    None
}

// The declaring statement of symbol s that is the fact: from number k on, or anywhere.
fn find_declaring(
    numbers: &[u32],
    tables: &[usize],
    s: SymbolIdx,
    fact: Fact,
    k: usize,
) -> Option<usize>
    requires prepared { Prepared numbers.now tables.now }
    requires s_bound { s.0 < (header_in numbers.now).symbols }
    ensures { Declared numbers.now s.0 fact result }
{
    match seek_declaring(numbers, tables, s, fact, k) {
        Some(i) => Some(i),
        None => seek_declaring(numbers, tables, s, fact, 0),
    }
}

// Whether K1 gives the fact from module a and forward b.
fn joined_by(
    numbers: &[u32],
    tables: &[usize],
    a: Fact,
    b: Fact,
    fact: Fact,
    k: usize,
) -> Option<usize>
    requires prepared { Prepared numbers.now tables.now }
    requires good { Good (graph_in numbers.now) b }
    ensures { JoinedOne numbers.now a b fact result }
{
    if determine_side_effects::facts_crate::kind_of(a) != 1 {
        return None;
    }
    match b {
        Fact::Module(_) => None,
        Fact::Statement(_, _) => None,
        Fact::Use(_, _) => None,
        Fact::CheckedUse(_, _) => None,
        Fact::Forward(s) => {
            let owner = symbols::owner(numbers, tables, s);
            if owner.0 != determine_side_effects::facts_crate::first_part(a) {
                return None;
            }
            find_declaring(numbers, tables, s, fact, k)
        }
        Fact::Bailout(_) => None,
    }
}

// Whether K1 gives the fact from two facts, in either order.
pub fn joins(
    numbers: &[u32],
    tables: &[usize],
    a: Fact,
    b: Fact,
    fact: Fact,
    k: usize,
) -> Option<usize>
    requires prepared { Prepared numbers.now tables.now }
    requires good { Good (graph_in numbers.now) a × Good (graph_in numbers.now) b }
    ensures { Joined numbers.now a b fact result }
{
    match joined_by(numbers, tables, a, b, fact, k) {
        Some(i) => Some(i),
        None => joined_by(numbers, tables, b, a, fact, k),
    }
}
