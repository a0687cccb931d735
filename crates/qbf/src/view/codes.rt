//! The codes of a lent constraint, one after another.
ghost use Rattle.qbf.specs.Views.{codes_left, viewed};
ghost use Rattle.std.specs.Iterator.{YieldsFirst, item_count};
ghost use Rattle.std.specs.Prelude.{◌≡◌};

use super::ConstraintView;

/// What is left of the codes.
#[derive(Clone, Copy)]
pub struct Codes<'a> {
    rest: ConstraintView<'a>,
}

impl<'a> ConstraintView<'a> {
    /// The codes, in order.
    pub fn codes(self) -> Codes<'a>
        ensures { codes_left result ≡ viewed self.entry }
    {
        Codes { rest: self }
    }
}

impl Iterator for Codes<'_> {
    type Item = u16;

    ghost next_gives = { YieldsFirst codes_left };

    ghost remaining = { item_count codes_left };

    fn next(&mut self) -> Option<u16> {
        let (first, others) = self.rest.codes.split_first()?;
        self.rest.codes = others;
        Some(self.rest.shown(*first))
    }
}
