//! The stages of a session.
ghost use Rattle.calculus.specs.State.{admission, allows as is_allowed, derivation_side};
ghost use Rattle.std.specs.Prelude.{◌≡◌};

use crate::call::Call;
use crate::verdict::Verdict;
use faults::refusal::Refusal;
use qbf::side::Side;

/// Each stage allows only its own calls. A derivation has its side, a closed session its verdict.
#[derive(Clone, Copy)]
pub enum Stage {
    Naming,
    Loading,
    Working,
    Derivation(Side),
    Closed(Verdict),
}

impl Stage {
    /// Whether the stage allows the call.
    pub fn allows(self, call: Call) -> bool
        ensures { result ≡ is_allowed self call }
    {
        matches!(
            (self, call),
            (Stage::Naming, Call::Name(_) | Call::EndNaming)
                | (
                    Stage::Loading,
                    Call::Put(_) | Call::Load(_) | Call::EndLoading
                )
                | (
                    Stage::Working,
                    Call::Imply(_, _)
                        | Call::Decide(_)
                        | Call::Undo(_)
                        | Call::Begin(_, _)
                        | Call::Close(_)
                )
                | (
                    Stage::Derivation(_),
                    Call::Resolve(_, _) | Call::Reduce | Call::Store | Call::Abandon
                )
        )
    }

    /// Lets a call pass that the stage allows, and refuses another for its stage.
    pub fn admit(self, call: Call) -> Result<(), Refusal>
        ensures { result ≡ admission self call }
    {
        if self.allows(call) {
            Ok(())
        } else {
            Err(Refusal::WrongStage)
        }
    }

    /// The side of a derivation; the clauses' where there is none.
    pub fn side(self) -> Side
        ensures { result ≡ derivation_side self }
    {
        match self {
            Stage::Derivation(side) => side,
            _ => Side::Clause,
        }
    }
}
