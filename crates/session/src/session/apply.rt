//! Calls as values, for programs that learn them at run time.
ghost use Rattle.calculus.specs.Answers.{answer_of, number_told};
ghost use Rattle.session.specs.Histories.{Continues};
ghost use Rattle.session.specs.States.{Does};
ghost use Rattle.std.specs.Prelude.{◌≡◌};

use super::Session;
use calculus::answer::Answer;
use calculus::call::Call;
use database::database::Database;

impl<C: Database, D: Database> Session<C, D> {
    /// Makes the call.
    fn dispatch(&mut self, call: Call) -> Answer
        ensures { Does call self.old result self.new }
    {
        match call {
            Call::Name(quantifier) => self.name(quantifier).into(),
            Call::EndNaming => self.end_naming().into(),
            Call::Put(code) => self.put(code).into(),
            Call::Load(side) => self.load(side).into(),
            Call::EndLoading => self.end_loading().into(),
            Call::Imply(side, number) => self.imply(side, number).into(),
            Call::Decide(code) => self.decide(code).into(),
            Call::Undo(decisions) => self.undo(decisions).into(),
            Call::Begin(side, number) => self.begin(side, number).into(),
            Call::Resolve(number, variable) => self.resolve(number, variable).into(),
            Call::Reduce => self.reduce().into(),
            Call::Store => self.store().into(),
            Call::Abandon => self.abandon().into(),
            Call::Close(verdict) => self.close(verdict).into(),
        }
    }

    /// Makes a call, at whatever stage the session is. After any history that led here, what holds of every history holds again.
    pub fn apply(&mut self, call: Call) -> Answer
        ensures does { Does call self.old result self.new }
        ensures continues { Continues call self.old result self.new }
    {
        self.dispatch(call)
    }
}
