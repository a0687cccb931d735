//! The calls of a session, as values.
use crate::verdict::Verdict;
use qbf::quantifier::Quantifier;
use qbf::side::Side;

/// Constraints are named by side and number, literals by their codes.
#[derive(Clone, Copy)]
pub enum Call {
    /// Names the next variable, with its quantifier.
    Name(Quantifier),
    EndNaming,
    /// Appends a literal to the working constraint.
    Put(u16),
    /// Adds the working constraint to a side's database, and empties it.
    Load(Side),
    EndLoading,
    /// Appends the literal that a constraint implies to the trail.
    Imply(Side, u64),
    /// Appends a literal of an unset variable to the trail.
    Decide(u16),
    /// Keeps so many decisions, and cuts the trail just before the next one.
    Undo(u16),
    /// Copies a constraint into the working constraint, to derive from it.
    Begin(Side, u64),
    /// Resolves the working constraint with one of a number, on a variable.
    Resolve(u64, u16),
    Reduce,
    /// Adds the working constraint to the derivation's database, and ends the derivation.
    Store,
    /// Ends the derivation and forgets it.
    Abandon,
    Close(Verdict),
}
