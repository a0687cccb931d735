//! The run of a trace against a session.
#![tactic(auto)]

pub mod calls;
pub mod check;
pub mod line;
pub mod run;
