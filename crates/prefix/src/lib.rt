//! The prefix: the quantifiers of the named variables.
#![tactic(auto)]

pub mod prefix;
