//! A record of a trace: its case is the kind, and it holds the bytes of its body, as that part of the trace.

#[derive(Clone, Copy)]
pub enum Record<'a> {
    /// Names an existential variable.
    Existential,
    /// Names a universal variable.
    Universal,
    EndNaming,
    /// Appends the literal of a code to the working constraint.
    Literal(&'a [u8; 2]),
    LoadClause,
    LoadCube,
    EndLoading,
    /// Implies by the clause of a number.
    ImplyByClause(&'a [u8; 4]),
    /// Implies by the cube of a number.
    ImplyByCube(&'a [u8; 4]),
    /// Decides the literal of a code.
    Decide(&'a [u8; 2]),
    /// Undoes all but a number of decisions.
    Undo(&'a [u8; 2]),
    /// Begins a derivation from the clause of a number.
    BeginFromClause(&'a [u8; 4]),
    /// Begins a derivation from the cube of a number.
    BeginFromCube(&'a [u8; 4]),
    /// Resolves with the constraint of a number on a variable.
    Resolve(&'a [u8; 4], &'a [u8; 2]),
    Reduce,
    Store,
    Abandon,
    CloseFalse,
    CloseTrue,
}
