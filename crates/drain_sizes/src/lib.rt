// The drain with tables for small graphs, for graphs of middle and large size, and for the largest.
#![tactic(auto)]

ghost use Rattle.std.specs.Prelude.{◌≡◌, ℕ, ◌+◌, ◌*◌, ◌<◌, ◌≤◌, List, [], ◌∷◌};
ghost use Rattle.graph.specs.tables_crate.Layout.{start_of, all_sections};
ghost use Rattle.graph.specs.Check.{HeaderRead};
ghost use Rattle.drain_parts.specs.Links.{partners_size};
ghost use Rattle.drain_parts.specs.Operation.{rows as rows_of, Drains};

use graph::graph_format_crate::Header;
use graph::refusal_crate::Refusal;
use graph::tables_crate::{LARGE, LARGEST, MIDDLE, Size};

// The drain with tables of T words and partners of P words.
pub fn drain_with<const T: usize, const P: usize>(
    numbers: &[u32],
    starts: &[u32],
    h: Header,
    marks: &mut [u8],
    lines: &mut [u32],
    modules_row: &mut [u8],
    statements_row: &mut [u8],
    used: &mut [u8],
    external: &mut [u8],
    json: &mut [u8],
    reason: &mut [u8],
) -> Result<usize, Refusal>
    requires header_read { HeaderRead numbers.now h }
    requires room { (start_of h all_sections ≤ T) × (T < 4294967296) × (partners_size h ≤ P) × (P < 4294967296) }
    ensures { Drains numbers.now starts.now result (rows_of marks.old lines.old modules_row.old statements_row.old used.old external.old json.old reason.old) (rows_of marks.new lines.new modules_row.new statements_row.new used.new external.new json.new reason.new) }
{
    let mut tables = [0usize; T];
    let mut partners = [0usize; P];
    drain_parts::drain_in(
        numbers,
        starts,
        h,
        &mut tables,
        &mut partners,
        marks,
        lines,
        modules_row,
        statements_row,
        used,
        external,
        json,
        reason,
    )
}

// The drain with tables for a larger graph, by its size. `again` is 0 (`frames::apart`).
pub fn drain_larger(
    numbers: &[u32],
    starts: &[u32],
    h: Header,
    marks: &mut [u8],
    lines: &mut [u32],
    modules_row: &mut [u8],
    statements_row: &mut [u8],
    used: &mut [u8],
    external: &mut [u8],
    json: &mut [u8],
    reason: &mut [u8],
    again: usize,
) -> Result<usize, Refusal>
    requires { HeaderRead numbers.now h }
    ensures { Drains numbers.now starts.now result (rows_of marks.old lines.old modules_row.old statements_row.old used.old external.old json.old reason.old) (rows_of marks.new lines.new modules_row.new statements_row.new used.new external.new json.new reason.new) }
{
    if again > 0 {
        return drain_larger(
            numbers,
            starts,
            h,
            marks,
            lines,
            modules_row,
            statements_row,
            used,
            external,
            json,
            reason,
            again - 1,
        );
    }
    if graph::tables_crate::fits(h, Size::Middle) {
        return drain_with::<MIDDLE, 1408>(
            numbers,
            starts,
            h,
            marks,
            lines,
            modules_row,
            statements_row,
            used,
            external,
            json,
            reason,
        );
    }
    if graph::tables_crate::fits(h, Size::Large) {
        return drain_with::<LARGE, 7168>(
            numbers,
            starts,
            h,
            marks,
            lines,
            modules_row,
            statements_row,
            used,
            external,
            json,
            reason,
        );
    }
    drain_with::<LARGEST, 19456>(
        numbers,
        starts,
        h,
        marks,
        lines,
        modules_row,
        statements_row,
        used,
        external,
        json,
        reason,
    )
}
