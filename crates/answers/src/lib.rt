// The answers that cross the C boundary, as numbers: each made from the answer of its operation, by value.
#![tactic(auto)]

ghost use Rattle.std.specs.Prelude.{◌≡◌};
ghost use Rattle.answers.specs.Answers.{refusal_of, read_answer_by, check_answer_by, drain_answer_by, run_answer_by, judge_answer_by, starts_answer_by};

use leb128::refusal_crate;
use run_parts::Totals;

// A refusal's number and its place; number 0: not refused.
#[repr(C)]
#[derive(Clone, Copy)]
pub struct Refusal {
    pub number: u32,
    pub place: u64,
}

// The same, and how many numbers were read.
#[repr(C)]
#[derive(Clone, Copy)]
pub struct ReadAnswer {
    pub number: u32,
    pub place: u64,
    pub count: u64,
}

// A refusal, and how many lines were written.
#[repr(C)]
#[derive(Clone, Copy)]
pub struct DrainAnswer {
    pub number: u32,
    pub place: u64,
    pub lines: u64,
}

// A refusal, and how many rounds there were, how many lines the main part and the runtime stage have, and how many final entries there are.
#[repr(C)]
#[derive(Clone, Copy)]
pub struct RunAnswer {
    pub number: u32,
    pub place: u64,
    pub rounds: u64,
    pub lines: u64,
    pub runtime_lines: u64,
    pub entries: u64,
}

// What has the number and the place of a refusal: why an operation refuses, and the two as they are.
pub trait IntoRefusal {
    ghost use Rattle.answers.specs.declared.Refusal.{Refusal};

    ghost refusal: { Self → Refusal };

    fn into_refusal(self) -> Refusal
        ensures { result ≡ refusal self };
}

impl IntoRefusal for refusal_crate::Refusal {
    ghost refusal = { refusal_of };

    fn into_refusal(self) -> Refusal {
        Refusal {
            number: self.number(),
            place: self.place() as u64,
        }
    }
}

// Any number and any place, those too that no operation gives.
impl IntoRefusal for Refusal {
    ghost refusal = { λ r. r };

    fn into_refusal(self) -> Refusal {
        self
    }
}

// The answer of a read.
pub fn read_answer<W: IntoRefusal>(r: Result<usize, W>) -> ReadAnswer
    ensures { result ≡ read_answer_by W.refusal r }
{
    match r {
        Ok(n) => ReadAnswer {
            number: 0,
            place: 0,
            count: n as u64,
        },
        Err(why) => {
            let refusal = why.into_refusal();
            ReadAnswer {
                number: refusal.number,
                place: refusal.place,
                count: 0,
            }
        }
    }
}

// The answer of a check or of effects.
pub fn check_answer<W: IntoRefusal>(r: Result<(), W>) -> Refusal
    ensures { result ≡ check_answer_by W.refusal r }
{
    match r {
        Ok(()) => Refusal {
            number: 0,
            place: 0,
        },
        Err(why) => why.into_refusal(),
    }
}

// The answer of a drain.
pub fn drain_answer<W: IntoRefusal>(r: Result<usize, W>) -> DrainAnswer
    ensures { result ≡ drain_answer_by W.refusal r }
{
    match r {
        Ok(n) => DrainAnswer {
            number: 0,
            place: 0,
            lines: n as u64,
        },
        Err(why) => {
            let refusal = why.into_refusal();
            DrainAnswer {
                number: refusal.number,
                place: refusal.place,
                lines: 0,
            }
        }
    }
}

// The answer of a run.
pub fn run_answer<W: IntoRefusal>(r: Result<Totals, W>) -> RunAnswer
    ensures { result ≡ run_answer_by W.refusal r }
{
    match r {
        Ok(t) => RunAnswer {
            number: 0,
            place: 0,
            rounds: t.rounds as u64,
            lines: t.lines as u64,
            runtime_lines: t.runtime_lines as u64,
            entries: t.entries as u64,
        },
        Err(why) => {
            let refusal = why.into_refusal();
            RunAnswer {
                number: refusal.number,
                place: refusal.place,
                rounds: 0,
                lines: 0,
                runtime_lines: 0,
                entries: 0,
            }
        }
    }
}

// The answer of a judge.
pub fn judge_answer<W: IntoRefusal>(r: Result<(), W>) -> Refusal
    ensures { result ≡ judge_answer_by W.refusal r }
{
    match r {
        Ok(()) => Refusal {
            number: 0,
            place: 0,
        },
        Err(why) => why.into_refusal(),
    }
}

// The answer of a run's own starts.
pub fn starts_answer<W: IntoRefusal>(r: Result<usize, W>) -> ReadAnswer
    ensures { result ≡ starts_answer_by W.refusal r }
{
    match r {
        Ok(n) => ReadAnswer {
            number: 0,
            place: 0,
            count: n as u64,
        },
        Err(why) => {
            let refusal = why.into_refusal();
            ReadAnswer {
                number: refusal.number,
                place: refusal.place,
                count: 0,
            }
        }
    }
}
