//! The calls of Deriving.
ghost use Rattle.calculus.specs.declared.call.Call.TheVariants.{Abandon, Reduce, Resolve, Store};
ghost use Rattle.session.specs.States.{Does};
ghost use Rattle.stages.specs.Answers.{Numbers, told, told_number};
ghost use Rattle.std.specs.Prelude.{◌≡◌, MatchResult};

use super::{Deriving, Working};
use database::database::Database;
use faults::refusal::Refusal;
use session::session::Session;

impl Deriving {
    /// Resolves the working constraint with that of a number, on a variable.
    pub fn resolve<C: Database, D: Database>(
        self,
        session: &mut Session<C, D>,
        constraint: u64,
        variable: u16,
    ) -> Result<Deriving, (Deriving, Refusal)>
        ensures numbered { Numbers self.number result }
        ensures does { Does (Resolve constraint variable) session.old (told result) session.new }
    {
        self.hand_on(session.resolve(constraint, variable))
    }

    /// Reduces the working constraint.
    pub fn reduce<C: Database, D: Database>(
        self,
        session: &mut Session<C, D>,
    ) -> Result<Deriving, (Deriving, Refusal)>
        ensures numbered { Numbers self.number result }
        ensures does { Does Reduce session.old (told result) session.new }
    {
        self.hand_on(session.reduce())
    }

    /// Adds the working constraint to the derivation's database, tells its number, and ends the derivation.
    pub fn store<C: Database, D: Database>(
        self,
        session: &mut Session<C, D>,
    ) -> Result<(Working, u64), (Deriving, Refusal)>
        ensures numbered { MatchResult result (λ t. t.0.number ≡ self.number) (λ e. e.0.number ≡ self.number) }
        ensures does { Does Store session.old (told_number result) session.new }
    {
        match session.store() {
            Ok(stored) => Ok((self.next(), stored)),
            Err(refusal) => Err((self, refusal)),
        }
    }

    /// Ends the derivation and forgets it.
    pub fn abandon<C: Database, D: Database>(
        self,
        session: &mut Session<C, D>,
    ) -> Result<Working, (Deriving, Refusal)>
        ensures numbered { Numbers self.number result }
        ensures does { Does Abandon session.old (told result) session.new }
    {
        self.hand_on(session.abandon())
    }
}
