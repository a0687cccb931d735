//! Opening a session, and ending it.
ghost use Rattle.calculus.specs.State.{opening};
ghost use Rattle.operations.specs.Trails.{trail_of};
ghost use Rattle.prefix.specs.Prefixes.{quantifiers_of};
ghost use Rattle.qbf.specs.Constraints.{codes_of};
ghost use Rattle.session.specs.States.{state_of};
ghost use Rattle.std.specs.Prelude.{◌≡◌, [], IfOk, MatchResult};

use super::Session;
use calculus::stage::Stage;
use database::database::Database;
use operations::trail::Trail;
use prefix::prefix::Prefix;
use qbf::constraint::Constraint;
use std::alloc::{AllocError, AllocFailed, Global};

/// All the memory that a session needs: a prefix, a trail, and the working and the spare constraint, each empty.
fn memory(heap: Global) -> Result<(Prefix, Trail, Constraint, Constraint), AllocError>
    ensures { IfOk result (λ (prefix, trail, working, spare). (quantifiers_of prefix ≡ []) × (trail_of trail ≡ []) × (codes_of working ≡ [])) }
{
    Ok((
        Prefix::new(heap)?,
        Trail::new(heap)?,
        Constraint::new(heap)?,
        Constraint::new(heap)?,
    ))
}

impl<C: Database, D: Database> Session<C, D> {
    /// Opens a session and empties both databases. Want of memory refuses the opening and hands both back as they came.
    pub fn open(
        heap: Global,
        mut clauses: C,
        mut cubes: D,
    ) -> Result<Session<C, D>, AllocFailed<(C, D)>>
        ensures { MatchResult result (λ s. state_of s ≡ opening (C.Database.meaning clauses) (D.Database.meaning cubes)) (λ e. e.value ≡ (clauses, cubes)) }
    {
        let Ok((prefix, trail, working, spare)) = memory(heap) else {
            return Err(AllocFailed {
                value: (clauses, cubes),
            });
        };
        clauses.empty();
        cubes.empty();
        Ok(Session {
            prefix,
            stage: Stage::Naming,
            trail,
            working,
            spare,
            clauses,
            cubes,
        })
    }

    /// Ends the session, at whatever stage it is, and gives both databases back.
    pub fn into_databases(self) -> (C, D)
        ensures clauses { result.0 ≡ self.clauses }
        ensures cubes { result.1 ≡ self.cubes }
    {
        let Session { clauses, cubes, .. } = self;
        (clauses, cubes)
    }
}
