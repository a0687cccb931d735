//! A constraint database in lent words of 64 bits, 16 words to a cell.
ghost use Rattle.std.specs.Prelude.{◌≡◌, ◌/◌, ◌≤◌, min, length};
ghost use Rattle.bitset_database.specs.Table.{WellFormed};

pub mod methods;

/// A row of 1,024 bits for each constraint, one bit for each code from 2 to 1,025.
#[derive(Drop)]
pub struct BitsetDatabase<'a> {
    words: &'a mut [u64],
    total: usize,
    count: usize,
    ghost whole: { total ≡ min (length words.now / 16) 65535 },
    ghost within: { count ≤ total },
    ghost formed: { WellFormed words.now count },
}
