//! Constraint databases: what one means, and the layer that shows another with every code complemented.
#![tactic(auto)]

pub mod codes;
pub mod complemented;
pub mod database;
