//! The codes of a constraint of a database, one after the other. Nothing is copied.
ghost use Rattle.database.specs.Meaning.{length_at};
ghost use Rattle.std.specs.Option.{unwrap_or};
ghost use Rattle.std.specs.Prelude.{◌≡◌, ◌≤◌};

use super::database::Database;

pub mod methods;

/// What is left of the codes of a constraint, read from the database as it is asked for. Behind the last code nothing is read.
#[derive(Drop)]
pub struct Codes<'a, D: Database> {
    database: &'a D,
    number: u64,
    size: u32,
    place: u32,
    ghost sized: { size ≡ unwrap_or (length_at (D.Database.meaning database.now).list number) 0 },
    ghost counted: { 1 ≤ place },
}
