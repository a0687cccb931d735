//! The stages. Each has the number that its session was opened with, by which a program can tell its sessions apart.
ghost use Rattle.calculus.specs.Answers.{answer_of};
ghost use Rattle.stages.specs.Answers.{Numbers, told};
ghost use Rattle.std.specs.Prelude.{◌≡◌};

use faults::refusal::Refusal;
use std::marker::PhantomData;

pub mod deriving_calls;
pub mod kind;
pub mod loading_calls;
pub mod naming_calls;
pub mod working_calls;

/// A stage of a session, of one of the kinds. Only the opening makes one, and each call takes it and hands one on.
pub struct Stage<S> {
    number: u64,
    kind: PhantomData<S>,
}

/// A stage is `Drop` where its kind is. A derive would go by the fields, which always are.
impl<S: Drop> Drop for Stage<S> {
    fn drop(self) {
        let Stage { number: _, kind: _ } = self;
    }
}

/// Variables are being named.
pub type Naming = Stage<kind::Naming>;

/// Constraints are being loaded.
pub type Loading = Stage<kind::Loading>;

/// The trail is being worked on.
pub type Working = Stage<kind::Working>;

/// A constraint is being derived. It is not `Drop`: it has to be stored or abandoned.
pub type Deriving = Stage<kind::Deriving>;

/// The session has its verdict.
pub type Closed = Stage<kind::Closed>;

impl<S> Stage<S> {
    /// The stage of the session of a number.
    fn numbered(number: u64) -> Stage<S>
        ensures { result.number ≡ number }
    {
        Stage {
            number,
            kind: PhantomData,
        }
    }

    /// The stage of another kind, of the same session.
    fn next<N>(self) -> Stage<N>
        ensures { result.number ≡ self.number }
    {
        let Stage { number, kind: _ } = self;
        Stage::numbered(number)
    }

    /// Hands on the next stage if the call was taken, and else hands this one back with the refusal.
    fn hand_on<N>(self, answer: Result<(), Refusal>) -> Result<Stage<N>, (Stage<S>, Refusal)>
        ensures numbered { Numbers self.number result }
        ensures told { told result ≡ answer_of answer }
    {
        match answer {
            Ok(()) => Ok(self.next()),
            Err(refusal) => Err((self, refusal)),
        }
    }
}
