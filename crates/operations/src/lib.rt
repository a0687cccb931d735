//! The operations of the calculus in code: the trail, units, resolving, reducing, blocks, and constraints by number. Each is one text for both sides.
#![tactic(auto)]

pub mod blocks;
pub mod entry;
mod merge;
pub mod numbered;
pub mod reduce;
pub mod resolve;
pub mod trail;
pub mod unit;
