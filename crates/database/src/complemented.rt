//! A layer over any database that shows it with every code complemented. It copies nothing and allocates nothing.
ghost use Rattle.database.specs.Complemented.{TwoLayers, complemented_lawful, complemented_meaning};
ghost use Rattle.std.specs.Prelude.{◌≡◌};

use super::database::{Database, Full};
use qbf::literal::complement;
use qbf::view::ConstraintView;

/// The database below, seen with every code complemented.
#[derive(Drop)]
pub struct ComplementedDatabase<D> {
    below: D,
}

impl<D> ComplementedDatabase<D> {
    /// A layer over a database, which stays as it is. A layer over a layer means what the database below does.
    pub fn new(below: D) -> ComplementedDatabase<D>
        ensures value { result.below ≡ below }
        ensures twice { TwoLayers }
    {
        ComplementedDatabase { below }
    }

    /// The database below, given back.
    pub fn into_below(self) -> D
        ensures { result ≡ self.below }
    {
        let ComplementedDatabase { below } = self;
        below
    }
}

impl<D: Database> Database for ComplementedDatabase<D> {
    ghost meaning = { λ x. complemented_meaning (D.Database.meaning x.below) };

    ghost lawful = { λ x. complemented_lawful (D.Database.meaning x.below) (D.Database.lawful x.below) };

    fn empty(&mut self) {
        self.below.empty();
    }

    fn add(&mut self, constraint: ConstraintView<'_>) -> Result<(), Full> {
        self.below.add(constraint.complement())
    }

    fn count(&self) -> u64 {
        self.below.count()
    }

    fn length(&self, number: u64) -> Option<u32> {
        self.below.length(number)
    }

    fn code(&self, number: u64, place: u32) -> Option<u16> {
        self.below.code(number, place).map(complement)
    }

    fn cells_left(&self) -> u32 {
        self.below.cells_left()
    }

    fn cost(&self, size: u32) -> Option<u32> {
        self.below.cost(size)
    }
}
