//! The kinds of stages. They have no values: a kind only says which stage a `Stage` is.

/// Variables are being named.
#[derive(Drop)]
pub enum Naming {}

/// Constraints are being loaded.
#[derive(Drop)]
pub enum Loading {}

/// The trail is being worked on.
#[derive(Drop)]
pub enum Working {}

/// A constraint is being derived.
pub enum Deriving {}

/// The session has its verdict.
#[derive(Drop)]
pub enum Closed {}
