// The drain: a graph, starts and lent rows in; a keep record and the answer rows out. Here is which tables it takes.
#![tactic(auto)]

ghost use Rattle.std.specs.Prelude.{◌≡◌, ℕ, ◌+◌, ◌*◌, ◌<◌, ◌≤◌, List, [], ◌∷◌};
ghost use Rattle.drain_parts.specs.Operation.{rows as rows_of, Drains};

use graph::refusal_crate::Refusal;
use graph::tables_crate::{SMALL, Size};

// Keeps what the starts keep: marks, the record, and the answer rows; or the first refusal.
pub fn drain(
    numbers: &[u32],
    starts: &[u32],
    marks: &mut [u8],
    lines: &mut [u32],
    modules_row: &mut [u8],
    statements_row: &mut [u8],
    used: &mut [u8],
    external: &mut [u8],
    json: &mut [u8],
    reason: &mut [u8],
) -> Result<usize, Refusal>
    ensures { Drains numbers.now starts.now result (rows_of marks.old lines.old modules_row.old statements_row.old used.old external.old json.old reason.old) (rows_of marks.new lines.new modules_row.new statements_row.new used.new external.new json.new reason.new) }
{
    graph::header(numbers)?;
    let h = graph::header_of(numbers);
    if graph::tables_crate::fits(h, Size::Small) {
        return drain_sizes::drain_with::<SMALL, 112>(
            numbers,
            starts,
            h,
            marks,
            lines,
            modules_row,
            statements_row,
            used,
            external,
            json,
            reason,
        );
    }
    drain_sizes::drain_larger(
        numbers,
        starts,
        h,
        marks,
        lines,
        modules_row,
        statements_row,
        used,
        external,
        json,
        reason,
        frames::apart(numbers),
    )
}
