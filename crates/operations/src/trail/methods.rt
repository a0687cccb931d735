//! The methods of `Trail`.
ghost use Rattle.std.specs.Prelude.{◌≡◌, ◌<◌, true, false, [], ◌∷◌, ◌++◌, length, take, IfOk, MatchOption, nat_lt};
ghost use Rattle.calculus.specs.State.{cut, decisions as decisions_on, literals};
ghost use Rattle.operations.specs.Entries.{entries_of, entry_at};
ghost use Rattle.operations.specs.Trails.{Appends, Undoes, trail_of};
ghost use Rattle.qbf.specs.Qbf.{has, is_set};

use super::{NotAppended, Trail};
use crate::entry::{Cause, Entry};
use faults::refusal::Refusal;
use qbf::item::item;
use qbf::literal::{is_code, variable as variable_of};
use std::alloc::{AllocError, Global};

impl Trail {
    /// The empty trail, with all the memory that it will need.
    pub fn new(heap: Global) -> Result<Trail, AllocError>
        ensures { IfOk result (λ t. trail_of t ≡ []) }
    {
        let entries = Vec::with_capacity(heap, 512)?;
        Ok(Trail {
            entries,
            truth: [false; 1026],
        })
    }

    /// How many entries there are.
    pub fn len(&self) -> usize
        ensures { result ≡ length (trail_of self.now) }
    {
        self.entries.len()
    }

    /// The entry at a place, counted from 1; none where there is none.
    pub fn entry(&self, place: usize) -> Option<Entry>
        ensures { result ≡ entry_at self.now.entries.items place }
    {
        item(self.entries.as_slice(), place)
    }

    /// Whether a literal is set, by its code as a place of the table.
    fn at(&self, code: usize) -> bool
        ensures { result ≡ has (literals (trail_of self.now)) code }
    {
        self.truth.get(code).copied().unwrap_or(false)
    }

    /// Whether a literal is set.
    pub fn holds(&self, code: u16) -> bool
        ensures { result ≡ has (literals (trail_of self.now)) code }
    {
        self.at(usize::from(code))
    }

    /// Whether a variable is set.
    pub fn is_set(&self, variable: u16) -> bool
        ensures { result ≡ is_set (literals (trail_of self.now)) variable }
    {
        let first = 2 * usize::from(variable);
        self.at(first) || self.at(first + 1)
    }

    /// Appends an entry, or refuses it and changes nothing.
    pub fn push(&mut self, entry: Entry) -> Result<(), NotAppended>
        ensures { Appends self.old entry result self.new }
    {
        if !is_code(entry.code) {
            return Err(NotAppended::NoCode);
        }
        if self.is_set(variable_of(entry.code)) {
            return Err(NotAppended::VariableSet);
        }
        self.truth[usize::from(entry.code)] = true;
        self.entries.push_reserved(entry);
        Ok(())
    }

    /// Takes the last entry away.
    fn pop(&mut self)
        requires { 0 < length self.old.entries.items }
        ensures { (e : Entry) × (self.old.entries.items ≡ self.new.entries.items ++ e ∷ []) }
    {
        let last = self.entries.take_last();
        self.truth[usize::from(last.code)] = false;
    }

    /// Keeps the first entries, at most so many.
    fn truncate(&mut self, most: usize)
        ensures { self.new.entries.items ≡ take most self.old.entries.items }
    {
        'entries: while self.entries.len() > most {
            self.pop();
        }
    }

    /// How many entries stand before the decision that follows so many others; none where there is no such decision.
    fn boundary(&self, decisions: u16) -> Option<usize>
        ensures { MatchOption result (nat_lt decisions (decisions_on (trail_of self.now)) ≡ false) (λ place. (nat_lt decisions (decisions_on (trail_of self.now)) ≡ true) × (entries_of (take place self.now.entries.items) ≡ cut decisions (trail_of self.now))) }
    {
        self.entries
            .iter()
            .enumerate()
            .filter(|(_, entry)| matches!(entry.cause, Cause::Decided))
            .map(|(place, _)| place)
            .nth(usize::from(decisions))
    }

    /// Keeps so many decisions and cuts the trail just before the next one; refuses where there is no next one, and then nothing changes.
    pub fn undo(&mut self, decisions: u16) -> Result<(), Refusal>
        ensures { Undoes self.old decisions result self.new }
    {
        let place = self.boundary(decisions).ok_or(Refusal::KeepsEveryDecision)?;
        self.truncate(place);
        Ok(())
    }
}
