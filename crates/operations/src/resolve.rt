//! Two constraints joined without a variable that they hold with opposite signs.
ghost use Rattle.calculus.specs.State.{constraint};
ghost use Rattle.operations.specs.Clashes.{clash_of, refusal_of};
ghost use Rattle.qbf.specs.Constraints.{codes_of, may_follow};
ghost use Rattle.qbf.specs.Qbf.{resolve, without};
ghost use Rattle.std.specs.Prelude.{◌≡◌, [], ◌∷◌, ◌++◌, Ok};

use crate::merge::{Front, Merge};
use database::database::Database;
use faults::refusal::Refusal;
use qbf::constraint::Constraint;
use qbf::literal::variable as variable_of;

/// Adds a code at the end unless it is of the variable. A code that may not follow, as where the two cannot be resolved, is left out.
fn keep(into: &mut Constraint, code: u16, variable: u16)
    ensures { may_follow (codes_of into.old) code ≡ Ok tt → codes_of into.new ≡ codes_of into.old ++ without variable (code ∷ []) }
{
    if variable_of(code) != variable {
        let _ = into.push(code);
    }
}

/// What a clash on the variable, and one on another, make of resolving.
fn refusal(pivot: bool, second: bool) -> Result<(), Refusal>
    ensures { result ≡ refusal_of pivot second }
{
    if !pivot {
        Err(Refusal::NoClash)
    } else if second {
        Err(Refusal::SecondClash)
    } else {
        Ok(())
    }
}

/// Whether the working constraint can be resolved with that of a number, or why it cannot. Nothing is written.
pub fn check_resolvable<D: Database>(
    working: &Constraint,
    database: &D,
    number: u64,
    variable: u16,
) -> Result<(), Refusal>
    ensures { result ≡ clash_of (codes_of working.now) (constraint (D.Database.meaning database.now).list number) variable }
{
    let mut pivot = false;
    let mut second = false;
    for front in Merge::of(working, database, number) {
        if let Front::Opposite(code) = front {
            if variable_of(code) == variable {
                pivot = true;
            } else {
                second = true;
            }
        }
    }
    refusal(pivot, second)
}

/// Writes the two constraints, joined without the variable, into another; what that holds is theirs only if they can be resolved.
pub fn resolve_into<D: Database>(
    working: &Constraint,
    database: &D,
    number: u64,
    variable: u16,
    into: &mut Constraint,
)
    ensures { clash_of (codes_of working.now) (constraint (D.Database.meaning database.now).list number) variable ≡ Ok tt → codes_of into.new ≡ resolve (codes_of working.now) (constraint (D.Database.meaning database.now).list number) variable }
{
    into.clear();
    for front in Merge::of(working, database, number) {
        match front {
            Front::Left(code) | Front::Right(code) | Front::Both(code) => {
                keep(into, code, variable);
            }
            Front::Opposite(_) => {}
        }
    }
}
