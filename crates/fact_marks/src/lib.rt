// A row of marks that holds a list of facts.
#![tactic(auto)]

ghost use Rattle.std.specs.Prelude.{◌≡◌, ◌*◌, ◌≤◌, length};
ghost use Rattle.facts.specs.graph_crate.Check.{graph_in};
ghost use Rattle.facts.specs.graph_crate.Loaded.{Loaded};
ghost use Rattle.facts.specs.Facts.{Good, mark_count};
ghost use Rattle.fact_marks.specs.Marks.{MarksOne};

use facts::Fact;

// Marks a fact.
pub fn mark(numbers: &[u32], tables: &[usize], marks: &mut [u8], fact: Fact)
    requires loaded { Loaded numbers.now tables.now }
    requires good { Good (graph_in numbers.now) fact × (mark_count (graph_in numbers.now) ≤ 8 * length marks.old) }
    ensures { MarksOne (graph_in numbers.now) fact marks.old marks.new }
{
    bit_row::set(marks, facts::mark_of(numbers, tables, fact));
}
