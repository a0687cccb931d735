//! An entry of the trail.
use qbf::side::Side;

/// Why a literal is set: it was decided, or the constraint of a side and a number implied it.
#[derive(Clone, Copy)]
pub enum Cause {
    Decided,
    Implied(Side, u64),
}

/// A literal that is set, with its cause.
#[derive(Clone, Copy)]
pub struct Entry {
    pub code: u16,
    pub cause: Cause,
}
