//! A constraint database that keeps a list of codes in lent memory, so that a constraint costs its length and two cells more.
#![tactic(auto)]

pub mod list;
