//! The calls of the stage Working.
ghost use Rattle.calculus.specs.State.{constraint, database as database_of, is_empty, literals};
ghost use Rattle.calculus.specs.declared.call.Call.TheVariants.{Begin, Close, Decide, Imply, Undo};
ghost use Rattle.database.specs.Meaning.{numbered};
ghost use Rattle.qbf.specs.Qbf.{some, unit};
ghost use Rattle.calculus.specs.Answers.{answer_of};
ghost use Rattle.session.specs.States.{Does, Fetches, state_of};
ghost use Rattle.std.specs.Prelude.{◌≡◌, not, is_none};

use super::Session;
use calculus::call::Call;
use calculus::stage::Stage;
use calculus::verdict::Verdict;
use database::database::Database;
use faults::refusal::Refusal;
use operations::blocks::earlier_unset;
use operations::entry::{Cause, Entry};
use operations::numbered::{fetch, has_empty};
use operations::unit::unit_literal;
use qbf::literal::variable;
use qbf::side::Side;

impl<C: Database, D: Database> Session<C, D> {
    /// Whether a side has a constraint of that number.
    pub(super) fn is_there(&self, side: Side, number: u64) -> bool
        ensures { result ≡ not (is_none (numbered (database_of side (state_of self.now)).list number)) }
    {
        on_side!(side, &self.clauses, &self.cubes, database => database.length(number).is_some())
    }

    /// The literal that is left of a constraint under the trail.
    fn unit_of(&self, side: Side, number: u64) -> Option<u16>
        ensures { result ≡ unit side (state_of self.now).prefix (literals (state_of self.now).trail) (constraint (database_of side (state_of self.now)).list number) }
    {
        let prefix = self.prefix.as_slice();
        on_side!(side, &self.clauses, &self.cubes, database => {
            unit_literal(prefix, &self.trail, database, side, number)
        })
    }

    /// Appends the literal that a constraint implies to the trail.
    pub fn imply(&mut self, side: Side, number: u64) -> Result<(), Refusal>
        ensures { Does (Imply side number) self.old (answer_of result) self.new }
    {
        self.stage.admit(Call::Imply(side, number))?;
        if !self.is_there(side, number) {
            return Err(Refusal::NoSuchConstraint);
        }
        let literal = self.unit_of(side, number).ok_or(Refusal::ImpliesNothing)?;
        let code = side.implied(literal);
        let cause = Cause::Implied(side, number);
        let Ok(()) = self.trail.push(Entry { code, cause }) else {
            unreachable()
        };
        Ok(())
    }

    /// Appends a literal of an unset variable to the trail, when all variables of earlier blocks are set.
    pub fn decide(&mut self, code: u16) -> Result<(), Refusal>
        ensures { Does (Decide code) self.old (answer_of result) self.new }
    {
        self.stage.admit(Call::Decide(code))?;
        if !self.prefix.names(variable(code)) {
            return Err(Refusal::UnnamedVariable);
        }
        if self.trail.is_set(variable(code)) {
            return Err(Refusal::VariableSet);
        }
        if earlier_unset(self.prefix.as_slice(), &self.trail, variable(code)) {
            return Err(Refusal::EarlierBlockUnset);
        }
        let cause = Cause::Decided;
        let Ok(()) = self.trail.push(Entry { code, cause }) else {
            unreachable()
        };
        Ok(())
    }

    /// Keeps so many decisions, and cuts the trail just before the next one.
    pub fn undo(&mut self, decisions: u16) -> Result<(), Refusal>
        ensures { Does (Undo decisions) self.old (answer_of result) self.new }
    {
        self.stage.admit(Call::Undo(decisions))?;
        self.trail.undo(decisions)
    }

    /// Copies a constraint of a side into the working constraint; refused where there is none of that number, and then nothing changes.
    fn fetch_into_working(&mut self, side: Side, number: u64) -> Result<(), Refusal>
        ensures { Fetches side number self.old result self.new }
    {
        on_side!(side, &self.clauses, &self.cubes, database => {
            fetch(database, number, &mut self.working)
        })
    }

    /// Copies a constraint into the working constraint, to derive from it.
    pub fn begin(&mut self, side: Side, number: u64) -> Result<(), Refusal>
        ensures { Does (Begin side number) self.old (answer_of result) self.new }
    {
        self.stage.admit(Call::Begin(side, number))?;
        self.fetch_into_working(side, number)?;
        self.stage = Stage::Derivation(side);
        Ok(())
    }

    /// Whether a constraint without literals stands on a side.
    fn has_empty_on(&self, side: Side) -> bool
        ensures { result ≡ some is_empty (database_of side (state_of self.now)).list }
    {
        on_side!(side, &self.clauses, &self.cubes, database => has_empty(database))
    }

    /// Closes the session with a verdict.
    pub fn close(&mut self, verdict: Verdict) -> Result<(), Refusal>
        ensures { Does (Close verdict) self.old (answer_of result) self.new }
    {
        self.stage.admit(Call::Close(verdict))?;
        if !self.has_empty_on(verdict.side()) {
            return Err(Refusal::NoEmptyConstraint);
        }
        self.stage = Stage::Closed(verdict);
        Ok(())
    }
}
