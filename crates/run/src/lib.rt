// The run: a graph and lent rows in; a keep record and the answer rows out. Here is which tables it takes.
#![tactic(auto)]

ghost use Rattle.std.specs.Prelude.{◌≡◌};
ghost use Rattle.run_parts.specs.Operation.{rows as rows_of, Runs};

use graph::refusal_crate::Refusal;
use graph::tables_crate::{SMALL, Size};
use run_parts::Totals;

// Runs: marks, the record, and the answer rows; or the first refusal.
pub fn run(
    numbers: &[u32],
    marks: &mut [u8],
    lines: &mut [u32],
    modules_row: &mut [u8],
    statements_row: &mut [u8],
    used: &mut [u8],
    external: &mut [u8],
    json: &mut [u8],
    reason: &mut [u8],
    dead: &mut [u8],
    helpers: &mut [u32],
    entries: &mut [u32],
) -> Result<Totals, Refusal>
    ensures { Runs numbers.now result (rows_of marks.old lines.old modules_row.old statements_row.old used.old external.old json.old reason.old dead.old helpers.old entries.old) (rows_of marks.new lines.new modules_row.new statements_row.new used.new external.new json.new reason.new dead.new helpers.new entries.new) }
{
    graph::header(numbers)?;
    let h = graph::header_of(numbers);
    if graph::tables_crate::fits(h, Size::Small) {
        return run_sizes::run_with::<SMALL, 112, 80>(
            numbers,
            h,
            marks,
            lines,
            modules_row,
            statements_row,
            used,
            external,
            json,
            reason,
            dead,
            helpers,
            entries,
        );
    }
    run_sizes::run_larger(
        numbers,
        h,
        marks,
        lines,
        modules_row,
        statements_row,
        used,
        external,
        json,
        reason,
        dead,
        helpers,
        entries,
        frames::apart(numbers),
    )
}
