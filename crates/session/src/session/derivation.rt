//! The calls of the stage Derivation.
ghost use Rattle.calculus.specs.State.{constraint, database as database_of};
ghost use Rattle.calculus.specs.declared.call.Call.TheVariants.{Abandon, Reduce, Resolve, Store};
ghost use Rattle.operations.specs.Clashes.{clash_of};
ghost use Rattle.qbf.specs.Qbf.{own, quantifier_of};
ghost use Rattle.calculus.specs.Answers.{answer_of, number_told};
ghost use Rattle.session.specs.States.{Does, Joins, state_of};
ghost use Rattle.std.specs.Prelude.{◌≡◌, length as the_length};

use super::Session;
use calculus::call::Call;
use calculus::stage::Stage;
use database::database::Database;
use faults::refusal::Refusal;
use operations::reduce::reduce_constraint;
use operations::resolve::{check_resolvable, resolve_into};
use qbf::side::Side;
use std::mem::swap;

impl<C: Database, D: Database> Session<C, D> {
    /// Whether the working constraint can be resolved with one of a side, or why it cannot.
    fn resolvable(&self, side: Side, number: u64, variable: u16) -> Result<(), Refusal>
        ensures { result ≡ clash_of (state_of self.now).working (constraint (database_of side (state_of self.now)).list number) variable }
    {
        on_side!(side, &self.clauses, &self.cubes, database => {
            check_resolvable(&self.working, database, number, variable)
        })
    }

    /// Joins the working constraint with one of a side, without a variable.
    fn join(&mut self, side: Side, number: u64, variable: u16)
        ensures { Joins side number variable self.old self.new }
    {
        on_side!(side, &self.clauses, &self.cubes, database => {
            resolve_into(&self.working, database, number, variable, &mut self.spare)
        });
        swap(&mut self.working, &mut self.spare);
    }

    /// Resolves the working constraint with that of a number, on a variable.
    pub fn resolve(&mut self, number: u64, variable: u16) -> Result<(), Refusal>
        ensures { Does (Resolve number variable) self.old (answer_of result) self.new }
    {
        self.stage.admit(Call::Resolve(number, variable))?;
        let side = self.stage.side();
        if !self.prefix.names(variable) {
            return Err(Refusal::UnnamedVariable);
        }
        if !self.is_there(side, number) {
            return Err(Refusal::NoSuchConstraint);
        }
        if !side.owns_variable(self.prefix.as_slice(), variable) {
            return Err(Refusal::NotOwnQuantifier);
        }
        self.resolvable(side, number, variable)?;
        self.join(side, number, variable);
        Ok(())
    }

    /// Reduces the working constraint.
    pub fn reduce(&mut self) -> Result<(), Refusal>
        ensures { Does Reduce self.old (answer_of result) self.new }
    {
        self.stage.admit(Call::Reduce)?;
        reduce_constraint(self.stage.side(), self.prefix.as_slice(), &mut self.working);
        Ok(())
    }

    /// Adds the working constraint to the derivation's database, tells its number, and ends the derivation.
    pub fn store(&mut self) -> Result<u64, Refusal>
        ensures { Does Store self.old (number_told result) self.new }
    {
        self.stage.admit(Call::Store)?;
        let side = self.stage.side();
        self.add_working(side)?;
        self.working.clear();
        self.stage = Stage::Working;
        Ok(self.count(side))
    }

    /// How many constraints a side has.
    pub fn count(&self, side: Side) -> u64
        ensures { result ≡ the_length (database_of side (state_of self.now)).list }
    {
        on_side!(side, &self.clauses, &self.cubes, database => database.count())
    }

    /// Ends the derivation and forgets it.
    pub fn abandon(&mut self) -> Result<(), Refusal>
        ensures { Does Abandon self.old (answer_of result) self.new }
    {
        self.stage.admit(Call::Abandon)?;
        self.working.clear();
        self.stage = Stage::Working;
        Ok(())
    }
}
