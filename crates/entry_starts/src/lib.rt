// What an entry starts: the declaring statements and a checked use of each entry reference, then the module (include_statements.rs,
// dynamic_entries.rs).
#![tactic(auto)]

ghost use Rattle.std.specs.Prelude.{◌≡◌, ℕ, ◌<◌, ◌≤◌, true, List, [], ◌∷◌};
ghost use Rattle.determine_side_effects.specs.graph_tables_crate.Tables.{header_in};
ghost use Rattle.determine_side_effects.specs.graph_crate.Check.{graph_in};
ghost use Rattle.keep_rules.specs.Prepared.{Prepared};
ghost use Rattle.determine_side_effects.specs.facts_crate.Facts.{Good};
ghost use Rattle.keep_record.specs.Held.{lines_of};
ghost use Rattle.entry_starts.specs.Starts.{declared, reference_starts, module_starts, user_starts};
ghost use Rattle.entry_starts.specs.Working.{Working, Started};

use determine_side_effects::facts_crate::{Fact, Reason};
use determine_side_effects::graph_access_crate::{modules, symbols};
use determine_side_effects::index_crate::{ModuleIdx, SymbolIdx};
use keep_record::{Full, Stage};

// Starts one fact.
pub fn start_one(
    numbers: &[u32],
    tables: &[usize],
    partners: &mut [usize],
    marks: &mut [u8],
    lines: &mut [u32],
    stage: Stage,
    fact: Fact,
) -> Result<usize, Full>
    requires prepared { Prepared numbers.now tables.now }
    requires working { Working (graph_in numbers.now) stage.base partners.old marks.old lines.old stage.count }
    requires good { Good (graph_in numbers.now) fact }
    ensures { Started (graph_in numbers.now) stage.base (fact ∷ []) (lines_of stage.count lines.old) partners.new marks.new lines.new result }
{
    worklist::start(numbers, tables, partners, marks, lines, stage, fact)
}

// Starts the statements that declare a symbol.
fn include_declaring_statements(
    numbers: &[u32],
    tables: &[usize],
    partners: &mut [usize],
    marks: &mut [u8],
    lines: &mut [u32],
    count: usize,
    s: SymbolIdx,
) -> Result<usize, Full>
    requires prepared { Prepared numbers.now tables.now }
    requires working { Working (graph_in numbers.now) 0 partners.old marks.old lines.old count }
    requires s_bound { s.0 < (header_in numbers.now).symbols }
    ensures { Started (graph_in numbers.now) 0 (declared (graph_in numbers.now) s.0) (lines_of count lines.old) partners.new marks.new lines.new result }
{
    let owner = symbols::owner(numbers, tables, s);
    let declaring = symbols::declaring_count(numbers, tables, s);
    let mut total = count;
    for i in 0..declaring {
        let fact = Fact::Statement(owner, symbols::declaring(numbers, tables, s, i));
        total = start_one(
            numbers,
            tables,
            partners,
            marks,
            lines,
            Stage {
                base: 0,
                count: total,
            },
            fact,
        )?;
    }
    Ok(total)
}

// Starts what an entry reference starts.
fn include_reference(
    numbers: &[u32],
    tables: &[usize],
    partners: &mut [usize],
    marks: &mut [u8],
    lines: &mut [u32],
    count: usize,
    s: SymbolIdx,
) -> Result<usize, Full>
    requires prepared { Prepared numbers.now tables.now }
    requires working { Working (graph_in numbers.now) 0 partners.old marks.old lines.old count }
    requires s_bound { s.0 < (header_in numbers.now).symbols }
    ensures { Started (graph_in numbers.now) 0 (reference_starts (graph_in numbers.now) s.0) (lines_of count lines.old) partners.new marks.new lines.new result }
{
    let owner = symbols::owner(numbers, tables, s);
    if !modules::is_normal(numbers, tables, owner) {
        return Ok(count);
    }
    let n = include_declaring_statements(numbers, tables, partners, marks, lines, count, s)?;
    start_one(
        numbers,
        tables,
        partners,
        marks,
        lines,
        Stage { base: 0, count: n },
        Fact::CheckedUse(s, Reason { bits: 2 }),
    )
}

// Starts what a module that is an entry starts.
pub fn include_entry(
    numbers: &[u32],
    tables: &[usize],
    partners: &mut [usize],
    marks: &mut [u8],
    lines: &mut [u32],
    count: usize,
    m: ModuleIdx,
) -> Result<usize, Full>
    requires prepared { Prepared numbers.now tables.now }
    requires working { Working (graph_in numbers.now) 0 partners.old marks.old lines.old count }
    requires m_bound { m.0 < (header_in numbers.now).modules }
    ensures { Started (graph_in numbers.now) 0 (module_starts (graph_in numbers.now) m.0) (lines_of count lines.old) partners.new marks.new lines.new result }
{
    if !modules::is_normal(numbers, tables, m) {
        return Ok(count);
    }
    let references = modules::entry_reference_count(numbers, tables, m);
    let mut total = count;
    for k in 0..references {
        let s = modules::entry_reference(numbers, tables, m, k);
        total = include_reference(numbers, tables, partners, marks, lines, total, s)?;
    }
    start_one(
        numbers,
        tables,
        partners,
        marks,
        lines,
        Stage {
            base: 0,
            count: total,
        },
        Fact::Module(m),
    )
}

// Starts what a module that is a user-defined entry starts: its bailout first.
pub fn include_user_entry(
    numbers: &[u32],
    tables: &[usize],
    partners: &mut [usize],
    marks: &mut [u8],
    lines: &mut [u32],
    count: usize,
    m: ModuleIdx,
) -> Result<usize, Full>
    requires prepared { Prepared numbers.now tables.now }
    requires working { Working (graph_in numbers.now) 0 partners.old marks.old lines.old count }
    requires m_bound { m.0 < (header_in numbers.now).modules }
    ensures { Started (graph_in numbers.now) 0 (user_starts (graph_in numbers.now) m.0) (lines_of count lines.old) partners.new marks.new lines.new result }
{
    if !modules::is_normal(numbers, tables, m) {
        return Ok(count);
    }
    let n = start_one(
        numbers,
        tables,
        partners,
        marks,
        lines,
        Stage { base: 0, count },
        Fact::Bailout(m),
    )?;
    include_entry(numbers, tables, partners, marks, lines, n, m)
}
