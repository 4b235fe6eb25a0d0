// The C boundary: exports the operations of the crate host. Slices are a pointer and then a length; nothing is asked of the caller.
#![tactic(auto)]

ghost use Rattle.std.specs.Prelude.{◌≡◌};
ghost use Rattle.host.specs.graph_crate.Check.{check_of, answer_of};
ghost use Rattle.host.specs.drain_parts_crate.Operation.{rows as rows_of};
ghost use Rattle.host.specs.run_parts_crate.Operation.{rows as run_rows_of};
ghost use Rattle.host.specs.judge_parts_crate.Operation.{judge_of};
ghost use Rattle.host.specs.run_starts_crate.Operation.{rows as starts_rows_of};
ghost use Rattle.host.specs.answers_crate.Answers.{check_answer_of, judge_answer_of};
ghost use Rattle.host.specs.Operations.{KeepRead, KeepEffects, KeepDrain, KeepRun, KeepStarts};

use host::answers_crate::{DrainAnswer, ReadAnswer, Refusal, RunAnswer};

// Reads the numbers of a file into the first of the lent numbers.
#[unsafe(no_mangle)]
pub extern "C" fn keep_read(file: &[u8], numbers: &mut [u32]) -> ReadAnswer
    ensures { KeepRead file.now numbers.old result numbers.new }
{
    host::keep_read(file, numbers)
}

// Checks the numbers of a graph.
#[unsafe(no_mangle)]
pub extern "C" fn keep_check(numbers: &[u32]) -> Refusal
    ensures { result ≡ check_answer_of (answer_of (check_of numbers.now)) }
{
    host::keep_check(numbers)
}

// The modules' last verdicts on side effects, into the first of the lent numbers.
#[unsafe(no_mangle)]
pub extern "C" fn keep_effects(numbers: &[u32], verdicts: &mut [u32]) -> Refusal
    ensures { KeepEffects numbers.now verdicts.old result verdicts.new }
{
    host::keep_effects(numbers, verdicts)
}

// Keeps what the starts keep: marks, record and answer rows.
#[unsafe(no_mangle)]
pub extern "C" fn keep_drain(
    numbers: &[u32],
    starts: &[u32],
    marks: &mut [u8],
    lines: &mut [u32],
    modules: &mut [u8],
    statements: &mut [u8],
    used: &mut [u8],
    external: &mut [u8],
    json: &mut [u8],
    reason: &mut [u8],
) -> DrainAnswer
    ensures { KeepDrain numbers.now starts.now result (rows_of marks.old lines.old modules.old statements.old used.old external.old json.old reason.old) (rows_of marks.new lines.new modules.new statements.new used.new external.new json.new reason.new) }
{
    host::keep_drain(
        numbers, starts, marks, lines, modules, statements, used, external, json, reason,
    )
}

// Runs: marks, the record of both stages, answer rows, dead import records, helper words and final entries.
#[unsafe(no_mangle)]
pub extern "C" fn keep_run(
    numbers: &[u32],
    marks: &mut [u8],
    lines: &mut [u32],
    modules: &mut [u8],
    statements: &mut [u8],
    used: &mut [u8],
    external: &mut [u8],
    json: &mut [u8],
    reason: &mut [u8],
    dead: &mut [u8],
    helpers: &mut [u32],
    entries: &mut [u32],
) -> RunAnswer
    ensures { KeepRun numbers.now result (run_rows_of marks.old lines.old modules.old statements.old used.old external.old json.old reason.old dead.old helpers.old entries.old) (run_rows_of marks.new lines.new modules.new statements.new used.new external.new json.new reason.new dead.new helpers.new entries.new) }
{
    host::keep_run(
        numbers, marks, lines, modules, statements, used, external, json, reason, dead, helpers,
        entries,
    )
}

// Judges a record beside a graph and starts.
#[unsafe(no_mangle)]
pub extern "C" fn keep_judge(numbers: &[u32], starts: &[u32], lines: &[u32]) -> Refusal
    ensures { result ≡ judge_answer_of (judge_of numbers.now starts.now lines.now) }
{
    host::keep_judge(numbers, starts, lines)
}

// A run's own starts as triples, each once, into the first of the lent starts.
#[unsafe(no_mangle)]
pub extern "C" fn keep_starts(
    numbers: &[u32],
    marks: &mut [u8],
    lines: &mut [u32],
    starts: &mut [u32],
) -> ReadAnswer
    ensures { KeepStarts numbers.now result (starts_rows_of marks.old lines.old starts.old) (starts_rows_of marks.new lines.new starts.new) }
{
    host::keep_starts(numbers, marks, lines, starts)
}
