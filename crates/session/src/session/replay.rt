//! A list of calls, made one after the other on a new session.
ghost use Rattle.session.specs.Histories.{Replayed};
ghost use Rattle.session.specs.States.{state_of};
ghost use Rattle.std.specs.Prelude.{◌≡◌, MatchResult};

use super::Session;
use calculus::call::Call;
use database::database::Database;
use std::alloc::{AllocFailed, Global};

/// Opens a session over any two databases and makes all the calls, failing ones among them. What holds of every history holds after every one of them.
pub fn replay<C: Database, D: Database>(
    heap: Global,
    clauses: C,
    cubes: D,
    calls: &[Call],
) -> Result<Session<C, D>, AllocFailed<(C, D)>>
    ensures { MatchResult result (λ s. Replayed (C.Database.meaning clauses) (D.Database.meaning cubes) calls.now (state_of s)) (λ e. e.value ≡ (clauses, cubes)) }
{
    let mut session = Session::open(heap, clauses, cubes)?;
    'calls: for call in calls {
        let _ = session.apply(*call);
    }
    Ok(session)
}
