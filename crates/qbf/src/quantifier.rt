//! The two quantifiers of a variable.
ghost use Rattle.qbf.specs.Qbf.{opposite_quantifier, quantifier_of};
ghost use Rattle.std.specs.Prelude.{◌≡◌};

/// An existential variable is ours to set, a universal one the opponent's.
#[derive(Clone, Copy, PartialEq, Eq)]
pub enum Quantifier {
    Existential,
    Universal,
}

impl Quantifier {
    /// The other quantifier.
    pub fn opposite(self) -> Quantifier
        ensures { result ≡ opposite_quantifier self }
    {
        match self {
            Quantifier::Existential => Quantifier::Universal,
            Quantifier::Universal => Quantifier::Existential,
        }
    }
}

/// The quantifier of a variable of a prefix; existential where the prefix has none of that number.
pub fn quantifier_of(prefix: &[Quantifier], variable: u16) -> Quantifier
    ensures { result ≡ quantifier_of prefix.now variable }
{
    let index = usize::from(variable).saturating_sub(1);
    prefix
        .get(index)
        .copied()
        .unwrap_or(Quantifier::Existential)
}
