//! Looking at a session changes nothing.
ghost use Rattle.calculus.specs.History.{verdict_at};
ghost use Rattle.operations.specs.Entries.{entry_at};
ghost use Rattle.qbf.specs.Constraints.{code_at};
ghost use Rattle.session.specs.Looks.{kept, quantifier_at};
ghost use Rattle.session.specs.States.{state_of};
ghost use Rattle.std.specs.Prelude.{◌≡◌, length as the_length};

use super::Session;
use calculus::stage::Stage;
use calculus::verdict::Verdict;
use database::database::Database;
use operations::entry::Entry;
use qbf::quantifier::Quantifier;

impl<C: Database, D: Database> Session<C, D> {
    /// How many variables are named.
    pub fn variables(&self) -> usize
        ensures { result ≡ the_length (state_of self.now).prefix }
    {
        self.prefix.len()
    }

    /// The quantifier of a variable; none where it is not named.
    pub fn quantifier(&self, variable: u16) -> Option<Quantifier>
        ensures { result ≡ quantifier_at (state_of self.now).prefix variable }
    {
        self.prefix
            .names(variable)
            .then(|| self.prefix.quantifier(variable))
    }

    /// The stage.
    pub fn stage(&self) -> Stage
        ensures { result ≡ (state_of self.now).stage }
    {
        self.stage
    }

    /// How many literals are set.
    pub fn trail_length(&self) -> usize
        ensures { result ≡ the_length (state_of self.now).trail }
    {
        self.trail.len()
    }

    /// The entry of the trail at a place, counted from 1; none where there is none.
    pub fn trail_entry(&self, place: usize) -> Option<Entry>
        ensures { result ≡ entry_at (kept self.now.trail) place }
    {
        self.trail.entry(place)
    }

    /// How many literals the working constraint has.
    pub fn working_length(&self) -> usize
        ensures { result ≡ the_length (state_of self.now).working }
    {
        self.working.len()
    }

    /// The code at a place of the working constraint, counted from 1; none where there is none.
    pub fn working_code(&self, place: usize) -> Option<u16>
        ensures { result ≡ code_at (state_of self.now).working place }
    {
        self.working.code(place)
    }

    /// The clause database.
    pub fn clauses(&self) -> &C
        ensures { result.now ≡ self.now.clauses }
    {
        &self.clauses
    }

    /// The cube database.
    pub fn cubes(&self) -> &D
        ensures { result.now ≡ self.now.cubes }
    {
        &self.cubes
    }

    /// The verdict, once the session is closed.
    pub fn verdict(&self) -> Option<Verdict>
        ensures { result ≡ verdict_at (state_of self.now).stage }
    {
        match self.stage {
            Stage::Closed(verdict) => Some(verdict),
            _ => None,
        }
    }
}
