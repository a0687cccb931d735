//! The calls of the stage Naming.
ghost use Rattle.calculus.specs.declared.call.Call.TheVariants.{EndNaming, Name};
ghost use Rattle.calculus.specs.Answers.{answer_of};
ghost use Rattle.session.specs.States.{Does};

use super::Session;
use calculus::call::Call;
use calculus::stage::Stage;
use database::database::Database;
use faults::refusal::Refusal;
use qbf::quantifier::Quantifier;

impl<C: Database, D: Database> Session<C, D> {
    /// Names the next variable.
    pub fn name(&mut self, quantifier: Quantifier) -> Result<(), Refusal>
        ensures { Does (Name quantifier) self.old (answer_of result) self.new }
    {
        self.stage.admit(Call::Name(quantifier))?;
        self.prefix.push(quantifier)
    }

    /// Ends naming; loading begins.
    pub fn end_naming(&mut self) -> Result<(), Refusal>
        ensures { Does EndNaming self.old (answer_of result) self.new }
    {
        self.stage.admit(Call::EndNaming)?;
        self.stage = Stage::Loading;
        Ok(())
    }
}
