//! Constraints of a database by number.
ghost use Rattle.calculus.specs.State.{constraint, is_empty};
ghost use Rattle.operations.specs.Fetches.{fetch_of};
ghost use Rattle.qbf.specs.Constraints.{codes_of};
ghost use Rattle.qbf.specs.Qbf.{some};
ghost use Rattle.std.specs.Prelude.{◌≡◌, true, false, is_ok};

use database::codes::Codes;
use database::database::Database;
use faults::refusal::Refusal;
use qbf::constraint::Constraint;

/// Copies a constraint out of a database; refused where there is none of that number, and then nothing changes.
pub fn fetch<D: Database>(database: &D, number: u64, into: &mut Constraint) -> Result<(), Refusal>
    ensures answers { result ≡ fetch_of (D.Database.meaning database.now).list number }
    ensures codes { is_ok result ≡ true → codes_of into.new ≡ constraint (D.Database.meaning database.now).list number }
    ensures refused { is_ok result ≡ false → into.new ≡ into.old }
{
    database.length(number).ok_or(Refusal::NoSuchConstraint)?;
    let codes = Codes::of(database, number);
    into.clear();
    for code in codes {
        let Ok(()) = into.push(code) else {
            unreachable()
        };
    }
    Ok(())
}

/// Whether a constraint without literals is in a database.
pub fn has_empty<D: Database>(database: &D) -> bool
    ensures { result ≡ some is_empty (D.Database.meaning database.now).list }
{
    (0..database.count()).any(|before| database.length(before.wrapping_add(1)) == Some(0))
}
