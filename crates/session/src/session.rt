//! A session: a prefix, a trail, a working constraint and two databases, at a stage.
ghost use Rattle.prefix.specs.Prefixes.{quantifiers_of};
ghost use Rattle.std.specs.Prelude.{◌≤◌, length};

use calculus::stage::Stage;
use database::database::Database;
use operations::trail::Trail;
use prefix::prefix::Prefix;
use qbf::constraint::Constraint;

/// Evaluates an expression over the database of a side, which is of one type for the clauses and of another for the cubes.
macro_rules! on_side {
    ($side:expr, $clauses:expr, $cubes:expr, $database:ident => $result:expr) => {
        match $side {
            Side::Clause => {
                let $database = $clauses;
                $result
            }
            Side::Cube => {
                let $database = $cubes;
                $result
            }
        }
    };
}

pub mod apply;
pub mod derivation;
pub mod loading;
pub mod looks;
pub mod naming;
pub mod opening;
pub mod replay;
pub mod working;

/// A session over any two databases. All memory of its own is reserved at the opening.
#[derive(Drop)]
pub struct Session<C: Database, D: Database> {
    prefix: Prefix,
    stage: Stage,
    trail: Trail,
    working: Constraint,
    spare: Constraint,
    clauses: C,
    cubes: D,
    ghost few: { length (quantifiers_of prefix) ≤ 512 },
}
