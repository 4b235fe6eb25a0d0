// The operations of the C boundary, which the crate host_c exports. Nothing is asked of the caller.
#![tactic(auto)]

ghost use Rattle.std.specs.Prelude.{◌≡◌};
ghost use Rattle.determine_side_effects.specs.graph_crate.Check.{check_of, answer_of};
ghost use Rattle.drain_parts.specs.Operation.{rows as rows_of};
ghost use Rattle.run_parts.specs.Operation.{rows as run_rows_of};
ghost use Rattle.judge_parts.specs.Operation.{judge_of};
ghost use Rattle.run_starts.specs.Operation.{rows as starts_rows_of};
ghost use Rattle.answers.specs.Answers.{check_answer_of, judge_answer_of};
ghost use Rattle.host.specs.Operations.{KeepRead, KeepEffects, KeepDrain, KeepRun, KeepStarts};

// The crates below, for the crates above, which list this one alone.
pub use answers as answers_crate;
use answers::{DrainAnswer, ReadAnswer, Refusal, RunAnswer};
pub use determine_side_effects::graph_crate;
pub use drain_parts as drain_parts_crate;
pub use judge_parts as judge_parts_crate;
pub use run_parts as run_parts_crate;
pub use run_starts as run_starts_crate;

// Reads the numbers of a file into the first of the lent numbers.
pub fn keep_read(file: &[u8], numbers: &mut [u32]) -> ReadAnswer
    ensures { KeepRead file.now numbers.old result numbers.new }
{
    answers::read_answer(leb128::read(file, numbers))
}

// Checks the numbers of a graph.
pub fn keep_check(numbers: &[u32]) -> Refusal
    ensures { result ≡ check_answer_of (answer_of (check_of numbers.now)) }
{
    answers::check_answer(determine_side_effects::graph_crate::check(numbers))
}

// The modules' last verdicts on side effects, into the first of the lent numbers.
pub fn keep_effects(numbers: &[u32], verdicts: &mut [u32]) -> Refusal
    ensures { KeepEffects numbers.now verdicts.old result verdicts.new }
{
    answers::check_answer(determine_side_effects::effects(numbers, verdicts))
}

// Keeps what the starts keep: marks, record and answer rows.
pub fn keep_drain(
    numbers: &[u32],
    starts: &[u32],
    marks: &mut [u8],
    lines: &mut [u32],
    modules: &mut [u8],
    statements: &mut [u8],
    used: &mut [u8],
    external: &mut [u8],
    json: &mut [u8],
    reason: &mut [u8],
) -> DrainAnswer
    ensures { KeepDrain numbers.now starts.now result (rows_of marks.old lines.old modules.old statements.old used.old external.old json.old reason.old) (rows_of marks.new lines.new modules.new statements.new used.new external.new json.new reason.new) }
{
    answers::drain_answer(drain::drain(
        numbers, starts, marks, lines, modules, statements, used, external, json, reason,
    ))
}

// Runs: marks, the record of both stages, answer rows, dead import records, helper words and final entries.
pub fn keep_run(
    numbers: &[u32],
    marks: &mut [u8],
    lines: &mut [u32],
    modules: &mut [u8],
    statements: &mut [u8],
    used: &mut [u8],
    external: &mut [u8],
    json: &mut [u8],
    reason: &mut [u8],
    dead: &mut [u8],
    helpers: &mut [u32],
    entries: &mut [u32],
) -> RunAnswer
    ensures { KeepRun numbers.now result (run_rows_of marks.old lines.old modules.old statements.old used.old external.old json.old reason.old dead.old helpers.old entries.old) (run_rows_of marks.new lines.new modules.new statements.new used.new external.new json.new reason.new dead.new helpers.new entries.new) }
{
    answers::run_answer(run::run(
        numbers, marks, lines, modules, statements, used, external, json, reason, dead, helpers,
        entries,
    ))
}

// Judges a record beside a graph and starts.
pub fn keep_judge(numbers: &[u32], starts: &[u32], lines: &[u32]) -> Refusal
    ensures { result ≡ judge_answer_of (judge_of numbers.now starts.now lines.now) }
{
    answers::judge_answer(judge::judge(numbers, starts, lines))
}

// A run's own starts as triples, each once, into the first of the lent starts.
pub fn keep_starts(
    numbers: &[u32],
    marks: &mut [u8],
    lines: &mut [u32],
    starts: &mut [u32],
) -> ReadAnswer
    ensures { KeepStarts numbers.now result (starts_rows_of marks.old lines.old starts.old) (starts_rows_of marks.new lines.new starts.new) }
{
    answers::starts_answer(run_starts::starts(numbers, marks, lines, starts))
}
