// What a call told.
ghost use Rattle.std.specs.Prelude.{◌≡◌, MatchResult, if◌then◌else◌};
ghost use Rattle.conformance.specs.Tallies.{code};

use solver::SolverFault;

#[derive(Clone, Copy, PartialEq, Eq)]
pub enum Answer {
    No,
    Yes,
    Done,
    Zero,
    One,
    Refused(SolverFault),
}

impl Answer {
    pub fn done(told: Result<(), SolverFault>) -> Answer
        ensures { MatchResult told (λ _. result ≡ Answer.Done) (λ fault. result ≡ Answer.Refused fault) }
    {
        match told {
            Ok(()) => Answer::Done,
            Err(fault) => Answer::Refused(fault),
        }
    }

    // One of two answers, by what was told.
    fn of_two(told: Result<bool, SolverFault>, no: Answer, yes: Answer) -> Answer
        ensures { MatchResult told (λ told. result ≡ (if told then yes else no)) (λ fault. result ≡ Answer.Refused fault) }
    {
        match told {
            Ok(false) => no,
            Ok(true) => yes,
            Err(fault) => Answer::Refused(fault),
        }
    }

    pub fn solved(told: Result<bool, SolverFault>) -> Answer
        ensures { MatchResult told (λ yes. result ≡ (if yes then Answer.Yes else Answer.No)) (λ fault. result ≡ Answer.Refused fault) }
    {
        Answer::of_two(told, Answer::No, Answer::Yes)
    }

    pub fn value(told: Result<bool, SolverFault>) -> Answer
        ensures { MatchResult told (λ one. result ≡ (if one then Answer.One else Answer.Zero)) (λ fault. result ≡ Answer.Refused fault) }
    {
        Answer::of_two(told, Answer::Zero, Answer::One)
    }

    // The number by which the digest knows an answer.
    pub fn code(self) -> u32
        ensures { result ≡ code self }
    {
        // Kept: a variant that holds a fault has no number of its own.
        match self {
            Answer::No => 0,
            Answer::Yes => 1,
            Answer::Done => 2,
            Answer::Zero => 3,
            Answer::One => 4,
            Answer::Refused(fault) => u32::from(fault.number()),
        }
    }
}
