// The run with tables of a size, and the run with those for larger graphs, in frames of their own (docs/DECISIONS.md, "Frames of their own").
#![tactic(auto)]

ghost use Rattle.std.specs.Prelude.{◌≡◌, ◌<◌, ◌≤◌};
ghost use Rattle.graph.specs.tables_crate.Layout.{start_of, all_sections};
ghost use Rattle.graph.specs.Check.{HeaderRead};
ghost use Rattle.run_parts.specs.Links.{partners_size};
ghost use Rattle.run_parts.specs.Plan.{plan_size};
ghost use Rattle.run_parts.specs.Parts.{ScratchFits};
ghost use Rattle.run_parts.specs.Operation.{rows as rows_of, Runs};

use graph::graph_format_crate::Header;
use graph::refusal_crate::Refusal;
use graph::tables_crate::{LARGE, LARGEST, MIDDLE, Size};
use run_parts::Totals;

// The run with tables of T words, partners of P words and a plan of L words.
pub fn run_with<const T: usize, const P: usize, const L: usize>(
    numbers: &[u32],
    h: Header,
    marks: &mut [u8],
    lines: &mut [u32],
    modules_row: &mut [u8],
    statements_row: &mut [u8],
    used: &mut [u8],
    external: &mut [u8],
    json: &mut [u8],
    reason: &mut [u8],
    dead: &mut [u8],
    helpers: &mut [u32],
    entries: &mut [u32],
) -> Result<Totals, Refusal>
    requires header_read { HeaderRead numbers.now h }
    requires room { (start_of h all_sections ≤ T) × (T < 4294967296) × (partners_size h ≤ P) × (P < 4294967296) × ScratchFits h P × (plan_size h ≤ L) × (L < 4294967296) }
    ensures { Runs numbers.now result (rows_of marks.old lines.old modules_row.old statements_row.old used.old external.old json.old reason.old dead.old helpers.old entries.old) (rows_of marks.new lines.new modules_row.new statements_row.new used.new external.new json.new reason.new dead.new helpers.new entries.new) }
{
    let mut tables = [0usize; T];
    let mut partners = [0usize; P];
    let mut plan = [0usize; L];
    run_parts::run_in(
        numbers,
        h,
        &mut tables,
        &mut partners,
        &mut plan,
        marks,
        lines,
        modules_row,
        statements_row,
        used,
        external,
        json,
        reason,
        dead,
        helpers,
        entries,
    )
}

// The run with tables for a larger graph, by its size. `again` is 0 (`frames::apart`).
pub fn run_larger(
    numbers: &[u32],
    h: Header,
    marks: &mut [u8],
    lines: &mut [u32],
    modules_row: &mut [u8],
    statements_row: &mut [u8],
    used: &mut [u8],
    external: &mut [u8],
    json: &mut [u8],
    reason: &mut [u8],
    dead: &mut [u8],
    helpers: &mut [u32],
    entries: &mut [u32],
    again: usize,
) -> Result<Totals, Refusal>
    requires { HeaderRead numbers.now h }
    ensures { Runs numbers.now result (rows_of marks.old lines.old modules_row.old statements_row.old used.old external.old json.old reason.old dead.old helpers.old entries.old) (rows_of marks.new lines.new modules_row.new statements_row.new used.new external.new json.new reason.new dead.new helpers.new entries.new) }
{
    if again > 0 {
        return run_larger(
            numbers,
            h,
            marks,
            lines,
            modules_row,
            statements_row,
            used,
            external,
            json,
            reason,
            dead,
            helpers,
            entries,
            again - 1,
        );
    }
    if graph::tables_crate::fits(h, Size::Middle) {
        return run_with::<MIDDLE, 1408, 640>(
            numbers,
            h,
            marks,
            lines,
            modules_row,
            statements_row,
            used,
            external,
            json,
            reason,
            dead,
            helpers,
            entries,
        );
    }
    if graph::tables_crate::fits(h, Size::Large) {
        return run_with::<LARGE, 7168, 5120>(
            numbers,
            h,
            marks,
            lines,
            modules_row,
            statements_row,
            used,
            external,
            json,
            reason,
            dead,
            helpers,
            entries,
        );
    }
    run_with::<LARGEST, 19456, 5120>(
        numbers,
        h,
        marks,
        lines,
        modules_row,
        statements_row,
        used,
        external,
        json,
        reason,
        dead,
        helpers,
        entries,
    )
}
