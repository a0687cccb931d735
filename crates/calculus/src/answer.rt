//! The answers to calls.
ghost use Rattle.calculus.specs.Answers.{answer_of, answer_text, number_told};
ghost use Rattle.calculus.specs.History.{AnyCalls, EveryAgrees, EveryWithin, Prefixes, is_taken};
ghost use Rattle.std.specs.Prelude.{◌≡◌, Some};

use faults::refusal::Refusal;
use std::fmt;

/// A stored constraint's number is told; a refused call has changed nothing.
#[derive(Clone, Copy)]
pub enum Answer {
    Taken,
    Stored(u64),
    Refused(Refusal),
}

impl Answer {
    /// Whether the call was taken. Any calls make a history, and what came before a call of a history is one too.
    /// After every history the session holds what the taken calls tell, and stays within its bounds.
    #[tactic(auto, using(crate::proofs::Keeping::any_calls, crate::proofs::Keeping::prefixes, crate::proofs::Keeping::every_agrees, crate::proofs::Keeping::every_within))]
    pub fn is_taken(self) -> bool
        ensures value { result ≡ is_taken self }
        ensures any_calls { AnyCalls }
        ensures prefixes { Prefixes }
        ensures agrees { EveryAgrees }
        ensures within { EveryWithin }
    {
        matches!(self, Answer::Taken | Answer::Stored(_))
    }
}

/// The answer that a result tells.
impl From<Result<(), Refusal>> for Answer {
    ghost from_gives = { λ r a. a ≡ answer_of r };

    fn from(res: Result<(), Refusal>) -> Answer {
        match res {
            Ok(()) => Answer::Taken,
            Err(refusal) => Answer::Refused(refusal),
        }
    }
}

/// The answer that a store's result tells.
impl From<Result<u64, Refusal>> for Answer {
    ghost from_gives = { λ r a. a ≡ number_told r };

    fn from(res: Result<u64, Refusal>) -> Answer {
        match res {
            Ok(number) => Answer::Stored(number),
            Err(refusal) => Answer::Refused(refusal),
        }
    }
}

impl fmt::Display for Answer {
    ghost output = { λ x. Some (answer_text x) };

    fn fmt<W: fmt::Write>(&self, f: &mut fmt::Formatter<W>) -> fmt::Result {
        match self {
            Answer::Taken => write!(f, "taken"),
            Answer::Stored(number) => write!(f, "stored as {number}"),
            Answer::Refused(refusal) => {
                let number = refusal.number();
                write!(f, "refused {number}")
            }
        }
    }
}
