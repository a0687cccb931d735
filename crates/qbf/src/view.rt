//! A constraint that is lent, as it stands or with every code complemented.
ghost use Rattle.qbf.specs.Qbf.{formed as is_formed};
ghost use Rattle.std.specs.Prelude.{◌≡◌, true};

pub mod codes;
pub mod methods;

/// The codes of a constraint, lent, and whether they are to be read complemented.
#[derive(Clone, Copy)]
pub struct ConstraintView<'a> {
    codes: &'a [u16],
    complemented: bool,
    ghost formed: { is_formed codes.now ≡ true },
}
