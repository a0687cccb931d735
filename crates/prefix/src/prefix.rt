//! The prefix: the quantifiers of the named variables, in the order of naming.
ghost use Rattle.std.specs.Prelude.{◌≤◌, vec_len, vec_capacity};

use qbf::quantifier::Quantifier;

pub mod methods;

/// At most 512 quantifiers. There is room for all of them from the start, so naming a variable never allocates.
#[derive(Drop)]
pub struct Prefix {
    quantifiers: Vec<Quantifier>,
    ghost few: { vec_len quantifiers ≤ 512 },
    ghost room: { 512 ≤ vec_capacity quantifiers },
}
