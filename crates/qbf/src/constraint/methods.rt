//! The methods of `Constraint`.
ghost use Rattle.std.specs.Prelude.{◌≡◌, ◌≤◌, [], length, take, IfOk};
ghost use Rattle.qbf.specs.Constraints.{Pushes, code_at, codes_of, last_variable};
ghost use Rattle.qbf.specs.Worked.{Forms};

use super::{Constraint, NotPushed};
use crate::item::item;
use crate::literal::{is_code, variable};
use std::alloc::{AllocError, Global};

impl Constraint {
    /// The empty constraint, with all the memory that it will need.
    pub fn new(heap: Global) -> Result<Constraint, AllocError>
        ensures codes { IfOk result (λ c. codes_of c ≡ []) }
        ensures forms { Forms }
    {
        let codes = Vec::with_capacity(heap, 512)?;
        Ok(Constraint { codes })
    }

    /// How many literals there are.
    pub fn len(&self) -> usize
        ensures value { result ≡ length (codes_of self.now) }
        ensures bound { result ≤ 512 }
    {
        self.codes.len()
    }

    /// The codes.
    pub fn as_slice(&self) -> &[u16]
        ensures { result.now ≡ codes_of self.now }
    {
        self.codes.as_slice()
    }

    /// The code at a place, counted from 1; none where there is none.
    pub fn code(&self, place: usize) -> Option<u16>
        ensures { result ≡ code_at (codes_of self.now) place }
    {
        item(self.codes.as_slice(), place)
    }

    /// The variable of the last literal, and 0 where there is none.
    fn last_variable(&self) -> u16
        ensures { result ≡ last_variable (codes_of self.now) }
    {
        self.codes.last().copied().map_or(0, variable)
    }

    /// Adds a literal at the end, or refuses it and changes nothing.
    pub fn push(&mut self, code: u16) -> Result<(), NotPushed>
        ensures { Pushes self.old code result self.new }
    {
        if !is_code(code) {
            return Err(NotPushed::NoCode);
        }
        if variable(code) <= self.last_variable() {
            return Err(NotPushed::NotAbove);
        }
        self.codes.push_reserved(code);
        Ok(())
    }

    /// Takes all literals away.
    pub fn clear(&mut self)
        ensures { codes_of self.new ≡ [] }
    {
        self.codes.clear();
    }

    /// Keeps the first literals, at most so many.
    pub fn truncate(&mut self, most: usize)
        ensures { codes_of self.new ≡ take most (codes_of self.old) }
    {
        self.codes.truncate(most);
    }

    /// Becomes a copy of another constraint.
    pub fn copy_from(&mut self, other: &Constraint)
        ensures { codes_of self.new ≡ codes_of other.now }
    {
        self.clear();
        let Ok(()) = self.codes.extend_from_slice(other.codes.as_slice()) else {
            unreachable()
        };
    }
}
