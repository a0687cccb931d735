//! The methods of `BitsetDatabase`, and that it is a `Database`.
ghost use Rattle.std.specs.Prelude.{◌≡◌, ◌*◌, ◌/◌, ◌≤◌, min, true, false, [], is_ok, length as the_length, option_map};
ghost use Rattle.bitset_database.specs.Database.{lawful_of, meaning_of};
ghost use Rattle.bitset_database.specs.Table.{Stored};
ghost use Rattle.bitset_rows.specs.Rows.{row};
ghost use Rattle.database.specs.Meaning.{Adds, emptied, numbered};
ghost use Rattle.qbf.specs.Views.{viewed};

use super::BitsetDatabase;
use crate::select::{count_set, select};
use database::database::{Database, Full};
use qbf::item::index;
use qbf::view::ConstraintView;

/// The row of a constraint: 16 words in which the bits of its codes are set, and no other.
#[tactic(auto, using(qbf::proofs::Views::code_left))]
fn row_of(constraint: ConstraintView<'_>) -> [u64; 16]
    ensures { row result 0 ≡ viewed constraint.entry }
{
    let mut words = [0; 16];
    for code in constraint.codes() {
        let bit = usize::from(code) - 2;
        words[bit / 64] |= 1 << (bit % 64);
    }
    words
}

/// How many codes a row holds.
fn size(words: &[u64; 16]) -> u32
    ensures { result ≡ the_length (row words.now 0) }
{
    count_set(words)
}

impl<'a> BitsetDatabase<'a> {
    /// The empty table in lent memory: its cells in all are the whole cells of 16 words lent, at most 65,535. Nothing is written.
    pub fn new(words: &'a mut [u64]) -> BitsetDatabase<'a>
        ensures total { (meaning_of result).cells ≡ min (the_length words.old / 16) 65535 }
        ensures list { (meaning_of result).list ≡ [] }
        ensures left { (meaning_of result).left ≡ (meaning_of result).cells }
        ensures unchanged { result.words.now ≡ words.old }
        ensures lent { result.words.ghost_name ≡ words.entry.ghost_name }
    {
        let total = (words.len() / 16).min(65535);
        BitsetDatabase {
            words,
            total,
            count: 0,
        }
    }

    /// The words of the row of the constraint with a number.
    fn row(&self, number: u64) -> Option<&[u64; 16]>
        ensures { option_map (λ words. row words.now 0) result ≡ numbered (meaning_of self.now).list number }
    {
        let start = 16 * index(number, self.count)?;
        self.words[start..start + 16].first_chunk()
    }
}

impl<'a> Database for BitsetDatabase<'a> {
    ghost meaning = { meaning_of };

    ghost lawful = { lawful_of };

    fn empty(&mut self)
        ensures meant { meaning_of self.new ≡ emptied (meaning_of self.old) }
        ensures unchanged { self.new.words.now ≡ self.old.words.now }
        ensures lent { self.new.words.ghost_name ≡ self.old.words.ghost_name }
    {
        self.count = 0;
    }

    fn add(&mut self, constraint: ConstraintView<'_>) -> Result<(), Full>
        ensures adds { Adds (meaning_of self.old) (viewed constraint.entry) result (meaning_of self.new) }
        ensures refused { is_ok result ≡ false → self.new ≡ self.old }
        ensures stored { is_ok result ≡ true → Stored self.old.words.now self.new.words.now self.old.count (viewed constraint.entry) }
        ensures unchanged { is_ok result ≡ false → self.new.words.now ≡ self.old.words.now }
        ensures lent { self.new.words.ghost_name ≡ self.old.words.ghost_name }
    {
        if self.count == self.total {
            return Err(Full);
        }
        let start = 16 * self.count;
        self.words[start..start + 16].copy_from_slice(&row_of(constraint));
        self.count += 1;
        Ok(())
    }

    fn count(&self) -> u64 {
        self.count as u64
    }

    fn length(&self, number: u64) -> Option<u32> {
        Some(size(self.row(number)?))
    }

    fn code(&self, number: u64, place: u32) -> Option<u16> {
        let words = self.row(number)?;
        if place == 0 {
            return None;
        }
        let mut left = place - 1;
        for (i, word) in words.iter().enumerate() {
            let ones = word.count_ones();
            if left < ones {
                return Some(64 * i as u16 + select(*word, left) as u16 + 2);
            }
            left -= ones;
        }
        None
    }

    fn cells_left(&self) -> u32 {
        (self.total - self.count) as u32
    }

    fn cost(&self, size: u32) -> Option<u32> {
        (size <= 512).then_some(1)
    }
}
