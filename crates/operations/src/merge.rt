//! Two constraints, gone over together by what comes first in them.
ghost use Rattle.database.specs.Codes.{codes_at, codes_left};
ghost use Rattle.operations.specs.Fronts.{Fronts, Steps, with_first};
ghost use Rattle.qbf.specs.Constraints.{codes_of};
ghost use Rattle.std.specs.Iterator.{at_most};
ghost use Rattle.std.specs.Prelude.{◌≡◌, ◌+◌, length};

use database::codes::Codes;
use database::database::Database;
use qbf::constraint::Constraint;
use qbf::literal::variable;
use std::cmp::Ordering;

/// What comes first in two constraints.
#[derive(Clone, Copy)]
pub(crate) enum Front {
    /// A code of the left one, whose variable the right one has not.
    Left(u16),
    /// A code of the right one, whose variable the left one has not.
    Right(u16),
    /// A code of both.
    Both(u16),
    /// A code of the left one, whose complement comes first in the right one.
    Opposite(u16),
}

/// What comes first in two constraints, from the first code of each; none where both have ended.
fn foremost(left: Option<u16>, right: Option<u16>) -> Option<Front>
    ensures { Fronts left right result }
{
    match (left, right) {
        (None, None) => None,
        (Some(a), None) => Some(Front::Left(a)),
        (None, Some(b)) => Some(Front::Right(b)),
        (Some(a), Some(b)) => Some(match variable(a).cmp(&variable(b)) {
            Ordering::Less => Front::Left(a),
            Ordering::Greater => Front::Right(b),
            Ordering::Equal if a == b => Front::Both(a),
            Ordering::Equal => Front::Opposite(a),
        }),
    }
}

/// What is left of two constraints. A turn takes what comes first in them.
/// The right one's first code is read once, and kept until a turn takes it; the codes behind it are read later.
#[derive(Drop)]
pub(crate) struct Merge<'a, D: Database> {
    left: &'a [u16],
    right_first: Option<u16>,
    right_behind: Codes<'a, D>,
}

impl<'a, D: Database> Merge<'a, D> {
    /// The working constraint and that of a number.
    pub(crate) fn of(working: &'a Constraint, database: &'a D, number: u64) -> Merge<'a, D>
        ensures left { result.left.now ≡ codes_of working.now }
        ensures right { with_first result.right_first (codes_left result.right_behind) ≡ codes_at (D.Database.meaning database.now).list number }
    {
        let mut right = Codes::of(database, number);
        let first = right.next();
        Merge {
            left: working.as_slice(),
            right_first: first,
            right_behind: right,
        }
    }
}

impl<'a, D: Database> Iterator for Merge<'a, D> {
    type Item = Front;

    ghost next_gives = { λ s r t. Steps s.left.now (with_first s.right_first (codes_left s.right_behind)) r t.left.now (with_first t.right_first (codes_left t.right_behind)) };

    ghost remaining = { λ s. at_most (length s.left.now + length (with_first s.right_first (codes_left s.right_behind))) };

    fn next(&mut self) -> Option<Front> {
        let front = foremost(self.left.first().copied(), self.right_first)?;
        if !matches!(front, Front::Right(_)) {
            self.left = &self.left[1..];
        }
        if !matches!(front, Front::Left(_)) {
            self.right_first = self.right_behind.next();
        }
        Some(front)
    }
}
