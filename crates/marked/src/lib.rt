// Whether a fact is kept, by its mark.
#![tactic(auto)]

ghost use Rattle.std.specs.Prelude.{◌≡◌, ℕ, ◌*◌, ◌≤◌, length};
ghost use Rattle.facts.specs.graph_crate.Check.{graph_in};
ghost use Rattle.facts.specs.graph_crate.Loaded.{Loaded};
ghost use Rattle.facts.specs.Facts.{Good, mark_count};
ghost use Rattle.marked.specs.Marked.{marked};

use facts::Fact;

// Whether a fact is marked.
pub fn is_marked(numbers: &[u32], tables: &[usize], marks: &[u8], fact: Fact) -> bool
    requires loaded { Loaded numbers.now tables.now }
    requires good { Good (graph_in numbers.now) fact × (mark_count (graph_in numbers.now) ≤ 8 * length marks.now) }
    ensures { result ≡ marked (graph_in numbers.now) marks.now fact }
{
    bit_row::test(marks, facts::mark_of(numbers, tables, fact))
}
