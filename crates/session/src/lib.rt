//! Sessions over any two constraint databases: every call of the calculus, and what holds of every history of calls.
#![tactic(auto)]

pub mod session;
