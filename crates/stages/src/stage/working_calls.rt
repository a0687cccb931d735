//! The calls of Working.
ghost use Rattle.calculus.specs.declared.call.Call.TheVariants.{Begin, Close, Decide, Imply, Undo};
ghost use Rattle.session.specs.States.{Does};
ghost use Rattle.stages.specs.Answers.{Numbers, told};

use super::{Closed, Deriving, Working};
use calculus::verdict::Verdict;
use database::database::Database;
use faults::refusal::Refusal;
use qbf::side::Side;
use session::session::Session;

impl Working {
    /// Appends the literal that a constraint implies to the trail.
    pub fn imply<C: Database, D: Database>(
        self,
        session: &mut Session<C, D>,
        side: Side,
        constraint: u64,
    ) -> Result<Working, (Working, Refusal)>
        ensures numbered { Numbers self.number result }
        ensures does { Does (Imply side constraint) session.old (told result) session.new }
    {
        self.hand_on(session.imply(side, constraint))
    }

    /// Appends a literal of an unset variable to the trail, when all variables of earlier blocks are set.
    pub fn decide<C: Database, D: Database>(
        self,
        session: &mut Session<C, D>,
        code: u16,
    ) -> Result<Working, (Working, Refusal)>
        ensures numbered { Numbers self.number result }
        ensures does { Does (Decide code) session.old (told result) session.new }
    {
        self.hand_on(session.decide(code))
    }

    /// Keeps so many decisions, and cuts the trail just before the next one.
    pub fn undo<C: Database, D: Database>(
        self,
        session: &mut Session<C, D>,
        decisions: u16,
    ) -> Result<Working, (Working, Refusal)>
        ensures numbered { Numbers self.number result }
        ensures does { Does (Undo decisions) session.old (told result) session.new }
    {
        self.hand_on(session.undo(decisions))
    }

    /// Copies a constraint into the working constraint, to derive from it.
    pub fn begin<C: Database, D: Database>(
        self,
        session: &mut Session<C, D>,
        side: Side,
        constraint: u64,
    ) -> Result<Deriving, (Working, Refusal)>
        ensures numbered { Numbers self.number result }
        ensures does { Does (Begin side constraint) session.old (told result) session.new }
    {
        self.hand_on(session.begin(side, constraint))
    }

    /// Closes the session with a verdict.
    pub fn close<C: Database, D: Database>(
        self,
        session: &mut Session<C, D>,
        verdict: Verdict,
    ) -> Result<Closed, (Working, Refusal)>
        ensures numbered { Numbers self.number result }
        ensures does { Does (Close verdict) session.old (told result) session.new }
    {
        self.hand_on(session.close(verdict))
    }
}
