//! The blocks of the prefix: longest runs of one quantifier.
ghost use Rattle.calculus.specs.Blocks.{earlier_unset};
ghost use Rattle.calculus.specs.State.{literals};
ghost use Rattle.operations.specs.Trails.{trail_of};
ghost use Rattle.std.specs.Prelude.{◌≡◌};

use crate::trail::Trail;
use calculus::block::begins_block;
use qbf::quantifier::{Quantifier, quantifier_of};

/// Whether some variable of a block before the variable's is unset. It looks at no variable more than once.
pub fn earlier_unset(prefix: &[Quantifier], trail: &Trail, variable: u16) -> bool
    ensures { result ≡ earlier_unset prefix.now (literals (trail_of trail.now)) variable }
{
    let last = prefix.len().min(usize::from(variable)) as u16;
    let mut earlier = false;
    'variables: for next in (1..last).rev() {
        let here = quantifier_of(prefix, next + 1);
        earlier |= begins_block(quantifier_of(prefix, next), here);
        if earlier && !trail.is_set(next) {
            return true;
        }
    }
    false
}
