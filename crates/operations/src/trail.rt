//! The literals that are set, in order, and for each code whether it is among them.
ghost use Rattle.std.specs.Prelude.{◌≡◌, ◌≤◌, true, vec_capacity};
ghost use Rattle.operations.specs.Entries.{InRange, Tied, apart, entries_of};

use crate::entry::Entry;

pub mod methods;

/// The trail. There is room for an entry of each of 512 variables, so adding one never allocates; what a variable is set to is looked up in one step.
#[derive(Drop)]
pub struct Trail {
    entries: Vec<Entry>,
    truth: [bool; 1026],
    ghost tied: { Tied truth (entries_of entries.items) },
    ghost once: { apart (entries_of entries.items) ≡ true },
    ghost ranged: { InRange (entries_of entries.items) },
    ghost room: { 512 ≤ vec_capacity entries },
}

/// Why an entry cannot be appended.
#[derive(Clone, Copy)]
pub enum NotAppended {
    /// Its literal is no code from 2 to 1,025.
    NoCode,
    /// Its variable is set.
    VariableSet,
}
