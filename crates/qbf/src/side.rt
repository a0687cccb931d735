//! The side of the clauses and the side of the cubes; every rule is one for both.
//! The theorems on tables stand in the contracts of these functions.
ghost use Rattle.qbf.specs.Qbf.{implied as implied_setting, losing, opposite_side, own, quantifier_of as the_quantifier};
ghost use Rattle.qbf.specs.Theory.{AnyChoice, EmptyLoses, Forcing, LawOfSides, Learning, Members, Reducing, Resolving, Strategies};
ghost use Rattle.qbf.specs.Worked.{Opposites, Reductions, Resolvents, Units, Values};
ghost use Rattle.std.specs.Prelude.{◌≡◌};

use crate::literal::complement;
use crate::quantifier::{Quantifier, quantifier_of};

/// A clause holds when one of its literals is true, a cube when all are.
#[derive(Clone, Copy, PartialEq, Eq)]
pub enum Side {
    Clause,
    Cube,
}

impl Side {
    /// The other side. With all quantifiers exchanged and the table's codes complemented, its table has the opposite value.
    pub fn opposite(self) -> Side
        ensures value { result ≡ opposite_side self }
        ensures law { LawOfSides }
        ensures worked { Opposites }
    {
        match self {
            Side::Clause => Side::Cube,
            Side::Cube => Side::Clause,
        }
    }

    /// Whether a quantifier is the side's own: existential for clauses, universal for cubes.
    /// Reducing and resolving go by it, and keep what a table entails.
    pub fn owns(self, quantifier: Quantifier) -> bool
        ensures value { result ≡ own self quantifier }
        ensures members { Members }
        ensures reducing { Reducing }
        ensures resolving { Resolving }
        ensures worked { Reductions × Resolvents }
    {
        match self {
            Side::Clause => quantifier == Quantifier::Existential,
            Side::Cube => quantifier == Quantifier::Universal,
        }
    }

    /// Whether a variable has the side's own quantifier in a prefix.
    pub fn owns_variable(self, prefix: &[Quantifier], variable: u16) -> bool
        ensures { result ≡ own self (the_quantifier prefix.now variable) }
    {
        self.owns(quantifier_of(prefix, variable))
    }

    /// The value at which the side's table is lost. Entailed constraints leave a table's value, and an entailed empty one loses it.
    pub fn losing_value(self) -> bool
        ensures value { result ≡ losing self }
        ensures strategies { Strategies }
        ensures choice { AnyChoice }
        ensures empty { EmptyLoses }
        ensures learning { Learning }
        ensures worked { Values }
    {
        match self {
            Side::Clause => false,
            Side::Cube => true,
        }
    }

    /// The code that a unit constraint with this literal implies: a clause's literal itself, a cube's complement. It is forced.
    pub fn implied(self, code: u16) -> u16
        ensures value { result ≡ implied_setting self code }
        ensures forcing { Forcing }
        ensures worked { Units }
    {
        match self {
            Side::Clause => code,
            Side::Cube => complement(code),
        }
    }
}
