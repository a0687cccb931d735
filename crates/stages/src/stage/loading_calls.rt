//! The calls of Loading.
ghost use Rattle.calculus.specs.declared.call.Call.TheVariants.{EndLoading, Load, Put};
ghost use Rattle.session.specs.States.{Does};
ghost use Rattle.stages.specs.Answers.{Numbers, told};

use super::{Loading, Working};
use database::database::Database;
use faults::refusal::Refusal;
use qbf::side::Side;
use session::session::Session;

impl Loading {
    /// Appends a literal to the working constraint.
    pub fn put<C: Database, D: Database>(
        self,
        session: &mut Session<C, D>,
        code: u16,
    ) -> Result<Loading, (Loading, Refusal)>
        ensures numbered { Numbers self.number result }
        ensures does { Does (Put code) session.old (told result) session.new }
    {
        self.hand_on(session.put(code))
    }

    /// Adds the working constraint to a side's database, and empties it.
    pub fn load<C: Database, D: Database>(
        self,
        session: &mut Session<C, D>,
        side: Side,
    ) -> Result<Loading, (Loading, Refusal)>
        ensures numbered { Numbers self.number result }
        ensures does { Does (Load side) session.old (told result) session.new }
    {
        self.hand_on(session.load(side))
    }

    /// Ends loading; working begins.
    pub fn end_loading<C: Database, D: Database>(
        self,
        session: &mut Session<C, D>,
    ) -> Result<Working, (Loading, Refusal)>
        ensures numbered { Numbers self.number result }
        ensures does { Does EndLoading session.old (told result) session.new }
    {
        self.hand_on(session.end_loading())
    }
}
