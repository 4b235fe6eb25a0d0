// Why an operation refuses what it was given, and at which place (docs/OPERATIONS.md, "Answers and refusals").
#![tactic(auto)]

ghost use Rattle.std.specs.Prelude.{◌≡◌};
ghost use Rattle.refusal.specs.Number.{number_of, place_of};

// In the order of their numbers, each with its place; a lent row has none.
#[derive(Clone, Copy, Debug, PartialEq, Eq)]
pub enum Refusal {
    // A number of a file is not one.
    NoNumber(usize),
    // A count is over its limit.
    OverLimit(usize),
    // A value is outside its range or against a rule.
    OutOfRange(usize),
    // There are too few numbers or too many.
    WrongLength(usize),
    // A lent row is too short.
    NoRoom,
    // A line of a record does not follow, or a line is absent.
    Unjustified(usize),
}

impl Refusal {
    // The number that the documents and the C interface give it. 0 stands for no refusal.
    pub fn number(self) -> u32
        ensures { result ≡ number_of self }
    {
        match self {
            Refusal::NoNumber(_) => 1,
            Refusal::OverLimit(_) => 2,
            Refusal::OutOfRange(_) => 3,
            Refusal::WrongLength(_) => 4,
            Refusal::NoRoom => 5,
            Refusal::Unjustified(_) => 6,
        }
    }

    // Its place, 0 where it has none.
    pub fn place(self) -> usize
        ensures { result ≡ place_of self }
    {
        match self {
            Refusal::NoNumber(place) => place,
            Refusal::OverLimit(place) => place,
            Refusal::OutOfRange(place) => place,
            Refusal::WrongLength(place) => place,
            Refusal::NoRoom => 0,
            Refusal::Unjustified(place) => place,
        }
    }
}
