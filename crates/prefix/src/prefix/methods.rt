//! The methods of `Prefix`.
ghost use Rattle.std.specs.Prelude.{◌≡◌, ◌≤◌, [], length, IfOk};
ghost use Rattle.calculus.specs.State.{is_named};
ghost use Rattle.qbf.specs.Qbf.{quantifier_of as the_quantifier};
ghost use Rattle.prefix.specs.Prefixes.{Names, quantifiers_of};

use super::Prefix;
use faults::refusal::Refusal;
use qbf::literal::MOST_VARIABLES;
use qbf::quantifier::{Quantifier, quantifier_of};
use std::alloc::{AllocError, Global};

impl Prefix {
    /// No variables yet, and all the memory that they will need.
    pub fn new(heap: Global) -> Result<Prefix, AllocError>
        ensures { IfOk result (λ p. quantifiers_of p ≡ []) }
    {
        let quantifiers = Vec::with_capacity(heap, usize::from(MOST_VARIABLES))?;
        Ok(Prefix { quantifiers })
    }

    /// How many variables there are.
    pub fn len(&self) -> usize
        ensures value { result ≡ length (quantifiers_of self.now) }
        ensures bound { result ≤ 512 }
    {
        self.quantifiers.len()
    }

    /// Whether there is a variable of that number.
    pub fn names(&self, variable: u16) -> bool
        ensures { result ≡ is_named (quantifiers_of self.now) variable }
    {
        (1..=self.quantifiers.len()).contains(&usize::from(variable))
    }

    /// The quantifier of a variable; existential where it is not named.
    pub fn quantifier(&self, variable: u16) -> Quantifier
        ensures { result ≡ the_quantifier (quantifiers_of self.now) variable }
    {
        quantifier_of(self.as_slice(), variable)
    }

    /// The quantifiers, that of variable 1 first.
    pub fn as_slice(&self) -> &[Quantifier]
        ensures { result.now ≡ quantifiers_of self.now }
    {
        self.quantifiers.as_slice()
    }

    /// Names the next variable; refused where there are 512 already, and then nothing changes.
    pub fn push(&mut self, quantifier: Quantifier) -> Result<(), Refusal>
        ensures { Names self.old quantifier result self.new }
    {
        if self.quantifiers.len() >= usize::from(MOST_VARIABLES) {
            return Err(Refusal::TooManyVariables);
        }
        self.quantifiers.push_reserved(quantifier);
        Ok(())
    }
}
