//! Quantified Boolean formulas: quantifiers, the two sides, literal codes and constraints, and the theory of their tables.
#![tactic(auto)]

pub mod constraint;
pub mod item;
pub mod literal;
pub mod quantifier;
pub mod side;
pub mod view;
