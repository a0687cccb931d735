//! A constraint database: a list of constraints, in cells of which each constraint costs some.
ghost use Rattle.database.specs.Meaning.{Adds, Lawful, Meaning, code_at, cost_at, emptied, length_at};
ghost use Rattle.qbf.specs.Views.{viewed};
ghost use Rattle.std.specs.Prelude.{◌≡◌, false, is_ok, length as the_length};

use qbf::view::ConstraintView;

/// Too few cells are left.
#[derive(Clone, Copy)]
pub struct Full;

/// Constraints by number. Numbers and places count from 1, and what is not there is answered by none.
pub trait Database {
    /// The list of constraints, the cells in all, the cells left, and the cost of each length.
    ghost meaning: { Self → Meaning };

    /// What holds of the meaning of every database.
    ghost lawful: { (x : Self) → Lawful (meaning x) };

    /// Makes the list empty, and the cells left those in all.
    fn empty(&mut self)
        ensures { meaning self.new ≡ emptied (meaning self.old) };

    /// Adds a constraint at the end of the list; `Full` where the cells left are too few, and then nothing at all changes.
    fn add(&mut self, constraint: ConstraintView<'_>) -> Result<(), Full>
        ensures adds { Adds (meaning self.old) (viewed constraint.entry) result (meaning self.new) }
        ensures refused { is_ok result ≡ false → self.new ≡ self.old };

    /// How many constraints there are.
    fn count(&self) -> u64
        ensures { result ≡ the_length (meaning self.now).list };

    /// The length of a constraint.
    fn length(&self, number: u64) -> Option<u32>
        ensures { result ≡ length_at (meaning self.now).list number };

    /// The code at a place of a constraint.
    fn code(&self, number: u64, place: u32) -> Option<u16>
        ensures { result ≡ code_at (meaning self.now).list number place };

    /// The cells left.
    fn cells_left(&self) -> u32
        ensures { result ≡ (meaning self.now).left };

    /// What a constraint of a length costs, for lengths from 0 to 512.
    fn cost(&self, size: u32) -> Option<u32>
        ensures { result ≡ cost_at (meaning self.now).cost size };
}
