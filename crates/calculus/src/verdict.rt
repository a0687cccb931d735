//! What a session can close with.
ghost use Rattle.calculus.specs.History.{EverySound};
ghost use Rattle.calculus.specs.Verdicts.{side_of, value_of, verdict_name};
ghost use Rattle.calculus.specs.Worked.{Worked};
ghost use Rattle.std.specs.Prelude.{◌≡◌, Some};

use qbf::side::Side;
use std::fmt;

/// "False" is said of the loaded clauses, "true" of the loaded cubes.
#[derive(Clone, Copy)]
pub enum Verdict {
    False,
    True,
}

impl Verdict {
    /// The value that the verdict states. Worked cases show what sessions answer.
    #[tactic(auto, using(crate::proofs::Worked::worked))]
    pub fn value(self) -> bool
        ensures value { result ≡ value_of self }
        ensures worked { Worked }
    {
        match self {
            Verdict::False => false,
            Verdict::True => true,
        }
    }

    /// The side whose table the verdict is about. Of every history the verdict is right,
    /// the stored constraints leave the value of the loaded ones, and the implied literals are forced.
    #[tactic(auto, using(crate::proofs::Keeping::every_sound))]
    pub fn side(self) -> Side
        ensures value { result ≡ side_of self }
        ensures sound { EverySound }
    {
        match self {
            Verdict::False => Side::Clause,
            Verdict::True => Side::Cube,
        }
    }
}

impl fmt::Display for Verdict {
    ghost output = { λ v. Some (verdict_name v) };

    fn fmt<W: fmt::Write>(&self, f: &mut fmt::Formatter<W>) -> fmt::Result {
        match self {
            Verdict::False => write!(f, "false"),
            Verdict::True => write!(f, "true"),
        }
    }
}
