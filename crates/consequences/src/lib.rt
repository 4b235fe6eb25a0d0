// The consequences of a fact by K2 to K14, by segment and candidate (include_statements.rs), over the rules of the crates include_*. The judge
// searches them and asks whether all of them are there; the drain goes over the same rules in loops of its own (include_statements).
#![tactic(auto)]

ghost use Rattle.std.specs.Prelude.{◌≡◌, ◌+◌, ◌<◌, length};
ghost use Rattle.determine_side_effects.specs.graph_crate.Check.{graph_in};
ghost use Rattle.determine_side_effects.specs.facts_crate.Facts.{Good};
ghost use Rattle.keep_rules.specs.Prepared.{Prepared, GoodCandidate};
ghost use Rattle.consequences.specs.Cursors.{segments_in, segment_in, Placed};

use determine_side_effects::facts_crate::Fact;
use determine_side_effects::graph_access_crate::statements;
use keep_rules::Candidate;

// Where a search through the consequences of a fact stands: a segment, a candidate in it, and, in the segment of a reference, the
// reference's place among the graph's numbers.
#[derive(Clone, Copy)]
pub struct Cursor {
    pub segment: usize,
    pub index: usize,
    pub place: usize,
}

// How many segments a fact has.
pub fn segment_count(numbers: &[u32], tables: &[usize], fact: Fact) -> usize
    requires prepared { Prepared numbers.now tables.now }
    requires good { Good (graph_in numbers.now) fact }
    ensures { result ≡ length (segments_in numbers.now fact) }
{
    match fact {
        Fact::Module(m) => {
            if include_module::is_quiet_runtime(numbers, tables, m) {
                return 0;
            }
            5
        }
        Fact::Statement(m, i) => 1 + statements::reference_count(numbers, tables, m, i),
        Fact::CheckedUse(_, _) => 1,
        Fact::Use(s, x) => {
            if include_symbol::is_bypassed_inlined_constant(numbers, tables, s, x) {
                return 0;
            }
            5
        }
        Fact::Forward(_) => 0,
        Fact::Bailout(_) => 0,
    }
}

// How many candidates segment j has.
pub fn segment_candidates(
    numbers: &[u32],
    tables: &[usize],
    fact: Fact,
    j: usize,
    place: usize,
) -> usize
    requires prepared { Prepared numbers.now tables.now }
    requires good { Good (graph_in numbers.now) fact }
    requires j_in_bounds { (j < length (segments_in numbers.now fact)) × Placed numbers.now fact j place }
    ensures { result ≡ (segment_in numbers.now fact j).count }
{
    match fact {
        Fact::Module(m) => include_module::module_candidates(numbers, tables, m, j),
        Fact::Statement(m, i) => {
            if j == 0 {
                return statements::import_record_count(numbers, tables, m, i);
            }
            include_statement::reference_candidates(numbers, tables, m, i, j - 1, place)
        }
        Fact::CheckedUse(_, _) => 4,
        Fact::Use(s, x) => include_symbol::use_candidates(numbers, tables, s, x, j),
        Fact::Forward(_) => 0,
        Fact::Bailout(_) => 0,
    }
}

// What candidate k of segment j gives.
pub fn segment_candidate(
    numbers: &[u32],
    tables: &[usize],
    fact: Fact,
    j: usize,
    k: usize,
    place: usize,
) -> Candidate
    requires prepared { Prepared numbers.now tables.now }
    requires good { Good (graph_in numbers.now) fact }
    requires j_in_bounds { (j < length (segments_in numbers.now fact)) × Placed numbers.now fact j place × (k < (segment_in numbers.now fact j).count) }
    ensures { (result ≡ (segment_in numbers.now fact j).candidate k) × GoodCandidate (graph_in numbers.now) result }
{
    match fact {
        Fact::Module(m) => include_module::module_candidate(numbers, tables, m, j, k),
        Fact::Statement(m, i) => {
            if j == 0 {
                return include_statement::import_record_candidate(numbers, tables, m, i, k);
            }
            include_statement::reference_candidate(numbers, tables, m, i, j - 1, place, k)
        }
        Fact::CheckedUse(s, x) => include_symbol::checked_candidate(numbers, tables, s, x, k),
        Fact::Use(s, x) => include_symbol::use_candidate(numbers, tables, s, x, j, k),
        Fact::Forward(_) => Candidate::Nothing,
        Fact::Bailout(_) => Candidate::Nothing,
    }
}

// Where the reference of segment j + 1 stands.
pub fn place_behind(numbers: &[u32], tables: &[usize], fact: Fact, j: usize, place: usize) -> usize
    requires prepared { Prepared numbers.now tables.now }
    requires good { Good (graph_in numbers.now) fact }
    requires j_in_bounds { (j < length (segments_in numbers.now fact)) × Placed numbers.now fact j place }
    ensures { Placed numbers.now fact (j + 1) result }
{
    match fact {
        Fact::Module(_) => place,
        Fact::Statement(m, i) => {
            if j == 0 {
                return statements::first_reference(numbers, tables, m, i);
            }
            place + statements::reference_width(numbers, place)
        }
        Fact::CheckedUse(_, _) => place,
        Fact::Use(_, _) => place,
        Fact::Forward(_) => place,
        Fact::Bailout(_) => place,
    }
}
