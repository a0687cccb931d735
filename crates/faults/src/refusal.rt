//! The grounds for a refusal, with their numbers and layers.
ghost use Rattle.faults.specs.Refusals.{layer_name, layer_of, number_of};
ghost use Rattle.std.specs.Prelude.{◌≡◌, Some};

use qbf::side::Side;
use std::fmt;

/// The grounds for a refusal, in the order in which they are looked for: the first that fits is given.
#[derive(Clone, Copy)]
pub enum Refusal {
    /// The kind byte is not listed.
    UnknownKind,
    /// Fewer bytes are left than the body needs.
    CutBody,
    /// The stage does not allow the call.
    WrongStage,
    /// A variable beyond the 512th is named.
    TooManyVariables,
    /// A code or variable belongs to no named variable.
    UnnamedVariable,
    /// A literal's variable is not above the one before.
    VariableNotAbove,
    /// Loading is ended while literals wait.
    LiteralsWaiting,
    /// The side has no constraint of that number.
    NoSuchConstraint,
    /// The decided variable is set.
    VariableSet,
    /// A variable of an earlier block is unset.
    EarlierBlockUnset,
    /// The constraint implies nothing.
    ImpliesNothing,
    /// An undo would keep as many decisions as there are, or more.
    KeepsEveryDecision,
    /// The variable to resolve on is not of the side's own quantifier.
    NotOwnQuantifier,
    /// The two constraints do not hold the variable with opposite signs.
    NoClash,
    /// The two constraints hold another variable with opposite signs.
    SecondClash,
    /// The database of a side has too few cells left.
    Full(Side),
    /// No constraint without literals stands on that side.
    NoEmptyConstraint,
    /// The trace ends unclosed.
    Unclosed,
    /// The program's input is longer than it reads.
    InputTooLong,
}

/// The part of the checker that a refusal comes from.
#[derive(Clone, Copy)]
pub enum Layer {
    Bytes,
    Stage,
    Rule,
    Clauses,
    Cubes,
}

impl Refusal {
    /// The refusal's number.
    pub fn number(self) -> u8
        ensures { result ≡ number_of self }
    {
        match self {
            Refusal::UnknownKind => 1,
            Refusal::CutBody => 2,
            Refusal::WrongStage => 3,
            Refusal::TooManyVariables => 4,
            Refusal::UnnamedVariable => 5,
            Refusal::VariableNotAbove => 6,
            Refusal::LiteralsWaiting => 7,
            Refusal::NoSuchConstraint => 8,
            Refusal::VariableSet => 9,
            Refusal::EarlierBlockUnset => 10,
            Refusal::ImpliesNothing => 11,
            Refusal::KeepsEveryDecision => 12,
            Refusal::NotOwnQuantifier => 13,
            Refusal::NoClash => 14,
            Refusal::SecondClash => 15,
            Refusal::Full(_) => 16,
            Refusal::NoEmptyConstraint => 17,
            Refusal::Unclosed => 18,
            Refusal::InputTooLong => 19,
        }
    }

    /// The refusal's layer.
    pub fn layer(self) -> Layer
        ensures { result ≡ layer_of self }
    {
        match self {
            Refusal::UnknownKind | Refusal::CutBody | Refusal::Unclosed | Refusal::InputTooLong =>
                Layer::Bytes,
            Refusal::WrongStage => Layer::Stage,
            Refusal::Full(Side::Clause) => Layer::Clauses,
            Refusal::Full(Side::Cube) => Layer::Cubes,
            _ => Layer::Rule,
        }
    }
}

impl fmt::Display for Layer {
    ghost output = { λ x. Some (layer_name x) };

    fn fmt<W: fmt::Write>(&self, f: &mut fmt::Formatter<W>) -> fmt::Result {
        match self {
            Layer::Bytes => write!(f, "bytes"),
            Layer::Stage => write!(f, "stage"),
            Layer::Rule => write!(f, "rule"),
            Layer::Clauses => write!(f, "clauses"),
            Layer::Cubes => write!(f, "cubes"),
        }
    }
}
