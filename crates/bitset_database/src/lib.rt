//! A constraint database that keeps each constraint as a row of bits in lent memory, so that every constraint costs one cell.
#![tactic(auto)]

pub mod bitset;
mod select;
