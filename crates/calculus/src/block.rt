//! The blocks of a prefix.
ghost use Rattle.calculus.specs.Blocks.{Blocks, differ};
ghost use Rattle.std.specs.Prelude.{◌≡◌};

use qbf::quantifier::Quantifier;

/// Whether a new block begins between two neighbouring variables of these quantifiers.
pub fn begins_block(before: Quantifier, next: Quantifier) -> bool
    ensures value { result ≡ differ before next }
    ensures blocks { Blocks }
{
    before != next
}
