//! A constraint database in lent cells of 16 bits.
ghost use Rattle.std.specs.Prelude.{◌≡◌, ◌+◌, ◌*◌, ◌≤◌, min, length};
ghost use Rattle.list_database.specs.Page.{Lies, WellFormed};

pub mod methods;

/// The codes of all constraints, one constraint behind the other, from the front of the cells; from the back, two cells for each
/// constraint: where it starts, and its length. So each code is read in constant time.
#[derive(Drop)]
pub struct ListDatabase<'a> {
    cells: &'a mut [u16],
    total: usize,
    used: usize,
    count: usize,
    ghost whole: { total ≡ min (length cells.now) 65535 },
    ghost within: { used + 2 * count ≤ total },
    ghost lies: { Lies cells.now total used count },
    ghost formed: { WellFormed cells.now total count },
}
