// A further stage of a record: it begins with the modules and the statements that are kept, but no other facts (include_statements.rs makes a
// new `IncludeContext` over the same bits).
#![tactic(auto)]

ghost use Rattle.std.specs.Prelude.{◌≡◌, ℕ, ◌+◌, ◌*◌, ◌<◌, ◌≤◌, length, get_or};
ghost use Rattle.facts.specs.graph_tables_crate.Tables.{header_in};
ghost use Rattle.facts.specs.graph_crate.Check.{graph_in};
ghost use Rattle.facts.specs.graph_crate.Loaded.{Loaded};
ghost use Rattle.keep_record.specs.Lines.{stays as stays_on};
ghost use Rattle.keep_record.specs.Held.{Held};
ghost use Rattle.entry_starts.specs.Working.{Working};

use facts::Fact;

// Whether a fact of an earlier stage still counts.
fn stays(fact: Fact) -> bool
    ensures { result ≡ stays_on fact }
{
    let kind = facts::kind_of(fact);
    if kind == 1 {
        return true;
    }
    kind == 2
}

// Marks the modules and the statements of the lines, and nothing else.
fn mark_kept(numbers: &[u32], tables: &[usize], marks: &mut [u8], lines: &[u32], count: usize)
    requires loaded { Loaded numbers.now tables.now }
    requires held { Held (graph_in numbers.now) 0 marks.old lines.now count }
    ensures { Held (graph_in numbers.now) count marks.new lines.now count }
{
    let bytes = marks.len();
    bit_row::clear(marks, bytes);
    for k in 0..count {
        let fact = keep_record::fact_at(lines, k);
        if stays(fact) {
            bit_row::set(marks, facts::mark_of(numbers, tables, fact));
        }
    }
}

// Takes the forwards out of the table of K1's partners: the first and the last ones, which end where the next ones begin. The lines of the
// modules stay.
fn forget_forwards(partners: &mut [usize], firsts: usize, nexts: usize)
    requires { nexts ≤ length partners.old }
    ensures { (length partners.new ≡ length partners.old) × ((i : ℕ) → i < firsts → get_or partners.new i 0 ≡ get_or partners.old i 0) × ((i : ℕ) → firsts ≤ i → i < nexts → get_or partners.new i 0 ≡ 0) }
{
    for i in firsts..nexts {
        partners[i] = 0;
    }
}

// Begins a stage over the lines so far.
pub fn begin(
    numbers: &[u32],
    tables: &[usize],
    partners: &mut [usize],
    marks: &mut [u8],
    lines: &[u32],
    count: usize,
)
    requires loaded { Loaded numbers.now tables.now }
    requires working { Working (graph_in numbers.now) 0 partners.old marks.old lines.now count }
    ensures { Working (graph_in numbers.now) count partners.new marks.new lines.now count }
{
    let h = facts::graph_crate::header_of(numbers);
    mark_kept(numbers, tables, marks, lines, count);
    let firsts = worklist::firsts_at(h);
    let nexts = worklist::nexts_at(h);
    forget_forwards(partners, firsts, nexts);
}
