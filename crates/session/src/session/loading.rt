//! The calls of the stage Loading.
ghost use Rattle.calculus.specs.declared.call.Call.TheVariants.{EndLoading, Load, Put};
ghost use Rattle.database.specs.Meaning.{Adds};
ghost use Rattle.qbf.specs.Constraints.{codes_of};
ghost use Rattle.calculus.specs.Answers.{answer_of};
ghost use Rattle.session.specs.States.{Does, Fills};

use super::Session;
use calculus::call::Call;
use calculus::stage::Stage;
use database::database::Database;
use faults::refusal::Refusal;
use qbf::literal::variable;
use qbf::side::Side;

impl<C: Database, D: Database> Session<C, D> {
    /// Appends a literal to the working constraint.
    pub fn put(&mut self, code: u16) -> Result<(), Refusal>
        ensures { Does (Put code) self.old (answer_of result) self.new }
    {
        self.stage.admit(Call::Put(code))?;
        if !self.prefix.names(variable(code)) {
            return Err(Refusal::UnnamedVariable);
        }
        self.working
            .push(code)
            .map_err(|_| Refusal::VariableNotAbove)
    }

    /// Adds the working constraint to a side's database; refused where it is full, and then nothing changes.
    pub(super) fn add_working(&mut self, side: Side) -> Result<(), Refusal>
        ensures { Fills side self.old result self.new }
    {
        on_side!(side, &mut self.clauses, &mut self.cubes, database => {
            database.add(self.working.view())
        })
        .map_err(|_| Refusal::Full(side))
    }

    /// Adds the working constraint to a side's database, and empties it.
    pub fn load(&mut self, side: Side) -> Result<(), Refusal>
        ensures { Does (Load side) self.old (answer_of result) self.new }
    {
        self.stage.admit(Call::Load(side))?;
        self.add_working(side)?;
        self.working.clear();
        Ok(())
    }

    /// Ends loading; working begins.
    pub fn end_loading(&mut self) -> Result<(), Refusal>
        ensures { Does EndLoading self.old (answer_of result) self.new }
    {
        self.stage.admit(Call::EndLoading)?;
        if self.working.len() > 0 {
            return Err(Refusal::LiteralsWaiting);
        }
        self.stage = Stage::Working;
        Ok(())
    }
}
