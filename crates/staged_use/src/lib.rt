//! The stages used as they should be: what is loaded is loaded before loading ends, and a derivation is stored or abandoned.
#![tactic(auto)]

use database::database::Database;
use faults::refusal::Refusal;
use qbf::side::Side;
use session::session::Session;
use stages::stage::{Deriving, Loading, Working};

/// Loads a clause.
pub(crate) fn load_clause<C: Database, D: Database>(
    session: &mut Session<C, D>,
    at: Loading,
    codes: &[u16],
) -> Result<Loading, (Loading, Refusal)> {
    let mut at = at;
    'codes: for code in codes {
        at = at.put(session, *code)?;
    }
    at.load(session, Side::Clause)
}

/// Loads two clauses and ends loading.
pub(crate) fn load_two<C: Database, D: Database>(
    session: &mut Session<C, D>,
    at: Loading,
    first: &[u16],
    second: &[u16],
) -> Result<Working, (Loading, Refusal)> {
    let at = load_clause(session, at, first)?;
    load_clause(session, at, second)?.end_loading(session)
}

/// The stage that a refusal came in, and the refusal.
pub(crate) enum Refused {
    Working(Working, Refusal),
    Deriving(Deriving, Refusal),
}

impl From<(Working, Refusal)> for Refused {
    fn from((at, refusal): (Working, Refusal)) -> Refused {
        Refused::Working(at, refusal)
    }
}

impl From<(Deriving, Refusal)> for Refused {
    fn from((at, refusal): (Deriving, Refusal)) -> Refused {
        Refused::Deriving(at, refusal)
    }
}

/// Derives a reduced clause and stores it; tells its number.
pub(crate) fn store_reduced<C: Database, D: Database>(
    session: &mut Session<C, D>,
    at: Working,
    clause: u64,
) -> Result<(Working, u64), Refused> {
    let at = at.begin(session, Side::Clause, clause)?;
    Ok(at.reduce(session)?.store(session)?)
}
