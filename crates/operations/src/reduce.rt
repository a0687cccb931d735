//! A constraint without the other quantifier's literals after its last own one.
ghost use Rattle.qbf.specs.Constraints.{codes_of};
ghost use Rattle.qbf.specs.Qbf.{reduce};
ghost use Rattle.std.specs.Prelude.{◌≡◌, take};

use qbf::constraint::Constraint;
use qbf::literal::variable;
use qbf::quantifier::Quantifier;
use qbf::side::Side;

/// How many literals there are up to the last own one.
fn own_end(side: Side, prefix: &[Quantifier], working: &Constraint) -> usize
    ensures { take result (codes_of working.now) ≡ reduce side prefix.now (codes_of working.now) }
{
    let last = working
        .as_slice()
        .iter()
        .rposition(|code| side.owns_variable(prefix, variable(*code)));
    match last {
        Some(place) => place + 1,
        None => 0,
    }
}

/// Reduces a constraint.
pub fn reduce_constraint(side: Side, prefix: &[Quantifier], working: &mut Constraint)
    ensures { codes_of working.new ≡ reduce side prefix.now (codes_of working.old) }
{
    let left = own_end(side, prefix, working);
    working.truncate(left);
}
