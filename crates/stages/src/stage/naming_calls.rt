//! The calls of Naming.
ghost use Rattle.calculus.specs.declared.call.Call.TheVariants.{EndNaming, Name};
ghost use Rattle.calculus.specs.State.{opening};
ghost use Rattle.session.specs.States.{Does, state_of};
ghost use Rattle.stages.specs.Answers.{Numbers, told};
ghost use Rattle.std.specs.Prelude.{◌≡◌, MatchResult};

use super::{Loading, Naming, Stage};
use database::database::Database;
use faults::refusal::Refusal;
use qbf::quantifier::Quantifier;
use session::session::Session;
use std::alloc::{AllocFailed, Global};

impl Naming {
    /// Opens a session with a number of the caller's choice, and empties both databases. Want of memory hands both back as they came.
    pub fn open<C: Database, D: Database>(
        heap: Global,
        number: u64,
        clauses: C,
        cubes: D,
    ) -> Result<(Session<C, D>, Naming), AllocFailed<(C, D)>>
        ensures { MatchResult result (λ p. (state_of p.0 ≡ opening (C.Database.meaning clauses) (D.Database.meaning cubes)) × (p.1.number ≡ number)) (λ e. e.value ≡ (clauses, cubes)) }
    {
        let session = Session::open(heap, clauses, cubes)?;
        Ok((session, Stage::numbered(number)))
    }

    /// Names the next variable.
    pub fn name<C: Database, D: Database>(
        self,
        session: &mut Session<C, D>,
        quantifier: Quantifier,
    ) -> Result<Naming, (Naming, Refusal)>
        ensures numbered { Numbers self.number result }
        ensures does { Does (Name quantifier) session.old (told result) session.new }
    {
        self.hand_on(session.name(quantifier))
    }

    /// Ends naming; loading begins.
    pub fn end_naming<C: Database, D: Database>(
        self,
        session: &mut Session<C, D>,
    ) -> Result<Loading, (Naming, Refusal)>
        ensures numbered { Numbers self.number result }
        ensures does { Does EndNaming session.old (told result) session.new }
    {
        self.hand_on(session.end_naming())
    }
}
