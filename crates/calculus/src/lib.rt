//! The rules of a session: its stages, its calls and their answers, what each call does, and what holds of every history.
#![tactic(auto)]

pub mod answer;
pub mod block;
pub mod call;
pub mod stage;
pub mod verdict;
