// The judge of a keep record: a graph, starts and a record in; passed, or the first refusal. Here is which tables it takes.
#![tactic(auto)]

ghost use Rattle.std.specs.Prelude.{◌≡◌, ◌+◌, ◌*◌, ◌<◌, ◌≤◌};
ghost use Rattle.graph.specs.tables_crate.Layout.{start_of, all_sections};
ghost use Rattle.graph.specs.Check.{HeaderRead};
ghost use Rattle.judge_parts.specs.Operation.{judge_of};

use graph::graph_format_crate::Header;
use graph::refusal_crate::Refusal;
use graph::tables_crate::{LARGE, LARGEST, MIDDLE, SMALL, Size};

// The judge with tables of T words and two rows of marks of M bytes.
fn judge_with<const T: usize, const M: usize>(
    numbers: &[u32],
    starts: &[u32],
    lines: &[u32],
    h: Header,
) -> Result<(), Refusal>
    requires header_read { HeaderRead numbers.now h }
    requires room { (start_of h all_sections ≤ T) × (T < 4294967296) × (2 * h.modules + h.statements + 63 * h.symbols ≤ 8 * M) × (M < 4294967296) }
    ensures { result ≡ judge_of numbers.now starts.now lines.now }
{
    let mut tables = [0usize; T];
    let mut begun = [0u8; M];
    let mut marks = [0u8; M];
    judge_parts::judge_in(
        numbers,
        starts,
        lines,
        h,
        &mut tables,
        &mut begun,
        &mut marks,
    )
}

// The judge with tables for a larger graph, by its size. `again` is 0 (`frames::apart`).
fn judge_larger(
    numbers: &[u32],
    starts: &[u32],
    lines: &[u32],
    h: Header,
    again: usize,
) -> Result<(), Refusal>
    requires { HeaderRead numbers.now h }
    ensures { result ≡ judge_of numbers.now starts.now lines.now }
{
    if again > 0 {
        return judge_larger(numbers, starts, lines, h, again - 1);
    }
    if graph::tables_crate::fits(h, Size::Middle) {
        return judge_with::<MIDDLE, 8224>(numbers, starts, lines, h);
    }
    if graph::tables_crate::fits(h, Size::Large) {
        return judge_with::<LARGE, 33024>(numbers, starts, lines, h);
    }
    judge_with::<LARGEST, 131328>(numbers, starts, lines, h)
}

// Judges a record beside a graph and starts.
pub fn judge(numbers: &[u32], starts: &[u32], lines: &[u32]) -> Result<(), Refusal>
    ensures { result ≡ judge_of numbers.now starts.now lines.now }
{
    graph::header(numbers)?;
    let h = graph::header_of(numbers);
    if graph::tables_crate::fits(h, Size::Small) {
        return judge_with::<SMALL, 516>(numbers, starts, lines, h);
    }
    judge_larger(numbers, starts, lines, h, frames::apart(numbers))
}
