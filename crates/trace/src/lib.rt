//! The binary trace: records one after the other, each one byte of kind and a body whose length the kind fixes.
#![tactic(auto)]

pub mod front;
pub mod input;
pub mod listing;
pub mod reader;
pub mod record;
