//! The methods of `ListDatabase`, and that it is a `Database`.
ghost use Rattle.std.specs.Prelude.{◌≡◌, ◌+◌, ◌*◌, ◌≤◌, min, true, false, [], IfSome, is_ok, length as the_length, option_copied};
ghost use Rattle.database.specs.Meaning.{Adds, emptied, numbered};
ghost use Rattle.list_database.specs.Database.{lawful_of, meaning_of};
ghost use Rattle.list_database.specs.Page.{Stored, Wrote};
ghost use Rattle.qbf.specs.Views.{viewed};

use super::ListDatabase;
use database::database::{Database, Full};
use qbf::item::{index, item};
use qbf::view::ConstraintView;

/// Writes the codes of a constraint into cells, from one of them on.
fn write(cells: &mut [u16], start: usize, constraint: ConstraintView<'_>)
    requires { start + the_length (viewed constraint) ≤ the_length cells.old }
    ensures { Wrote cells.old cells.new start (viewed constraint.entry) (the_length (viewed constraint.entry)) }
{
    for (i, code) in constraint.codes().enumerate() {
        cells[start + i] = code;
    }
}

/// Writes a constraint into the first `total` cells, of which `used` at the front hold codes and two at the back stand for each
/// of `count` constraints: its codes behind the others, and before the others' two cells where it starts and its length.
fn store(cells: &mut [u16], total: usize, used: usize, count: usize, constraint: ConstraintView<'_>)
    requires room { used + 2 * count + the_length (viewed constraint) + 2 ≤ total }
    requires whole { total ≤ min (the_length cells.old) 65535 }
    ensures { Stored cells.old cells.new total used count (viewed constraint.entry) }
{
    let slot = total - 2 * count - 2;
    write(cells, used, constraint);
    cells[slot] = used as u16;
    cells[slot + 1] = constraint.len() as u16;
}

impl<'a> ListDatabase<'a> {
    /// The empty list in lent memory: its cells in all are those lent, and of more than 65,535 the first 65,535. Nothing is written.
    pub fn new(cells: &'a mut [u16]) -> ListDatabase<'a>
        ensures total { (meaning_of result).cells ≡ min (the_length cells.old) 65535 }
        ensures list { (meaning_of result).list ≡ [] }
        ensures left { (meaning_of result).left ≡ (meaning_of result).cells }
        ensures unchanged { result.cells.now ≡ cells.old }
        ensures lent { result.cells.ghost_name ≡ cells.entry.ghost_name }
    {
        let total = cells.len().min(65535);
        ListDatabase {
            cells,
            total,
            used: 0,
            count: 0,
        }
    }

    /// The cells that are neither used by a code nor by a start or a length.
    fn free(&self) -> usize
        ensures { result ≡ (meaning_of self.now).left }
    {
        self.total - self.used - 2 * self.count
    }

    /// The codes of the constraint with a number.
    fn codes(&self, number: u64) -> Option<&[u16]>
        ensures value { option_copied result ≡ numbered (meaning_of self.now).list number }
        ensures bound { IfSome result (λ codes. the_length codes.now ≤ 65535) }
    {
        let index = index(number, self.count)?;
        let slot = self.total - 2 * index - 2;
        let start = usize::from(self.cells[slot]);
        let size = usize::from(self.cells[slot + 1]);
        Some(&self.cells[start..start + size])
    }
}

impl<'a> Database for ListDatabase<'a> {
    ghost meaning = { meaning_of };

    ghost lawful = { lawful_of };

    fn empty(&mut self)
        ensures meant { meaning_of self.new ≡ emptied (meaning_of self.old) }
        ensures unchanged { self.new.cells.now ≡ self.old.cells.now }
        ensures lent { self.new.cells.ghost_name ≡ self.old.cells.ghost_name }
    {
        self.used = 0;
        self.count = 0;
    }

    fn add(&mut self, constraint: ConstraintView<'_>) -> Result<(), Full>
        ensures adds { Adds (meaning_of self.old) (viewed constraint.entry) result (meaning_of self.new) }
        ensures refused { is_ok result ≡ false → self.new ≡ self.old }
        ensures stored { is_ok result ≡ true → Stored self.old.cells.now self.new.cells.now self.old.total self.old.used self.old.count (viewed constraint.entry) }
        ensures unchanged { is_ok result ≡ false → self.new.cells.now ≡ self.old.cells.now }
        ensures lent { self.new.cells.ghost_name ≡ self.old.cells.ghost_name }
    {
        if self.free() < constraint.len() + 2 {
            return Err(Full);
        }
        store(self.cells, self.total, self.used, self.count, constraint);
        self.used += constraint.len();
        self.count += 1;
        Ok(())
    }

    fn count(&self) -> u64 {
        self.count as u64
    }

    fn length(&self, number: u64) -> Option<u32> {
        Some(self.codes(number)?.len() as u32)
    }

    fn code(&self, number: u64, place: u32) -> Option<u16> {
        item(self.codes(number)?, place as usize)
    }

    fn cells_left(&self) -> u32 {
        self.free() as u32
    }

    fn cost(&self, size: u32) -> Option<u32> {
        (size <= 512).then(|| size + 2)
    }
}
