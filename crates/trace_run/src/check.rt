//! A trace checked over two databases.
ghost use Rattle.trace_run.specs.Outcomes.{Checks};
ghost use Rattle.std.specs.Prelude.{◌≡◌, MatchResult};

use crate::run::run;
use calculus::verdict::Verdict;
use database::database::Database;
use faults::fault::Fault;
use session::session::Session;
use std::alloc::{AllocFailed, Global};

/// The answer to a trace, and both databases as its run left them.
#[derive(Drop)]
pub struct Checked<C, D> {
    pub answer: Result<Verdict, Fault>,
    pub clauses: C,
    pub cubes: D,
}

/// Opens a session over two databases, runs the trace against it, and gives the databases back. Want of memory hands them back as they came.
pub fn check<C: Database, D: Database>(
    heap: Global,
    clauses: C,
    cubes: D,
    trace: &[u8],
) -> Result<Checked<C, D>, AllocFailed<(C, D)>>
    ensures { MatchResult result (λ k. Checks (C.Database.meaning clauses) (D.Database.meaning cubes) trace.now k.answer (C.Database.meaning k.clauses) (D.Database.meaning k.cubes)) (λ e. e.value ≡ (clauses, cubes)) }
{
    let mut session = Session::open(heap, clauses, cubes)?;
    let answer = run(&mut session, trace);
    let (clauses, cubes) = session.into_databases();
    Ok(Checked {
        answer,
        clauses,
        cubes,
    })
}
