//! The literal that is left of a constraint under the trail.
ghost use Rattle.calculus.specs.State.{constraint, literals};
ghost use Rattle.operations.specs.Trails.{trail_of};
ghost use Rattle.qbf.specs.Qbf.{unit};
ghost use Rattle.std.specs.Prelude.{◌≡◌};

use crate::trail::Trail;
use database::codes::Codes;
use database::database::Database;
use qbf::literal::variable;
use qbf::quantifier::Quantifier;
use qbf::side::Side;

/// The unit literal of a constraint, by one pass over it; none where it has none.
pub fn unit_literal<D: Database>(
    prefix: &[Quantifier],
    trail: &Trail,
    database: &D,
    side: Side,
    number: u64,
) -> Option<u16>
    ensures { result ≡ unit side prefix.now (literals (trail_of trail.now)) (constraint (D.Database.meaning database.now).list number) }
{
    let mut first = None;
    for code in Codes::of(database, number) {
        if trail.is_set(variable(code)) {
            if trail.holds(side.implied(code)) {
                return None;
            }
        } else if first.is_none() {
            first = Some(code);
        } else if side.owns_variable(prefix, variable(code)) {
            return None;
        }
    }
    first.filter(|code| side.owns_variable(prefix, variable(*code)))
}
