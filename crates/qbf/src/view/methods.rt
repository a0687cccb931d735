//! The methods of `ConstraintView`.
ghost use Rattle.std.specs.Prelude.{◌≡◌, ◌≤◌, map, length};
ghost use Rattle.qbf.specs.Constraints.{code_at, codes_of};
ghost use Rattle.qbf.specs.Qbf.{complement as flipped};
ghost use Rattle.qbf.specs.Views.{shown_code, viewed};

use super::ConstraintView;
use crate::constraint::Constraint;
use crate::item::item;
use crate::literal::complement;

impl Constraint {
    /// The constraint, lent as it stands.
    pub fn view(&self) -> ConstraintView<'_>
        ensures { viewed result ≡ codes_of self.now }
    {
        ConstraintView {
            codes: self.as_slice(),
            complemented: false,
        }
    }
}

impl<'a> ConstraintView<'a> {
    /// The same constraint with every code complemented; nothing is copied.
    pub fn complement(self) -> ConstraintView<'a>
        ensures { viewed result ≡ map flipped (viewed self.entry) }
    {
        ConstraintView {
            codes: self.codes,
            complemented: !self.complemented,
        }
    }

    /// A code of the constraint as it is to be read.
    pub(super) fn shown(self, code: u16) -> u16
        ensures { result ≡ shown_code self.entry.complemented code }
    {
        if self.complemented {
            complement(code)
        } else {
            code
        }
    }

    /// How many literals there are.
    pub fn len(self) -> usize
        ensures value { result ≡ length (viewed self.entry) }
        ensures bound { result ≤ 512 }
    {
        self.codes.len()
    }

    /// The code at a place, counted from 1; none where there is none.
    pub fn code(self, place: usize) -> Option<u16>
        ensures { result ≡ code_at (viewed self.entry) place }
    {
        Some(self.shown(item(self.codes, place)?))
    }
}
