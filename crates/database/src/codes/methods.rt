//! The methods of `Codes`, and that it is an iterator.
ghost use Rattle.database.specs.Codes.{codes_at, codes_left};
ghost use Rattle.std.specs.Iterator.{YieldsFirst, item_count};
ghost use Rattle.std.specs.Prelude.{◌≡◌, slice_get};

use super::Codes;
use crate::database::Database;

impl<'a, D: Database> Codes<'a, D> {
    /// The codes of the constraint of a number; none where no constraint has it.
    pub fn of(database: &'a D, number: u64) -> Codes<'a, D>
        ensures { codes_left result ≡ codes_at (D.Database.meaning database.now).list number }
    {
        Codes {
            database,
            number,
            size: database.length(number).unwrap_or(0),
            place: 1,
        }
    }

    /// The code that comes next, which stays; none where no code is left.
    pub fn peek(&self) -> Option<u16>
        ensures { result ≡ slice_get (codes_left self.now) 0 }
    {
        if self.place > self.size {
            return None;
        }
        self.database.code(self.number, self.place)
    }
}

impl<'a, D: Database> Iterator for Codes<'a, D> {
    type Item = u16;

    ghost next_gives = { YieldsFirst codes_left };

    ghost remaining = { item_count codes_left };

    fn next(&mut self) -> Option<u16> {
        let code = self.peek()?;
        self.place += 1;
        Some(code)
    }
}
