//! How far a reader has come.
ghost use Rattle.trace.specs.Reading.{ending};
ghost use Rattle.std.specs.Prelude.{◌≡◌};

use super::Reader;
use faults::fault::Fault;

impl Reader<'_> {
    /// The byte at which the next record begins, counted from 0.
    pub fn place(&self) -> usize
        ensures { result ≡ self.now.place }
    {
        self.place
    }

    /// How many records were read.
    pub fn records(&self) -> usize
        ensures { result ≡ self.now.records }
    {
        self.records
    }

    /// How many records were read, or the fault that the last `next` stopped at.
    pub fn outcome(&self) -> Result<usize, Fault>
        ensures { result ≡ ending self.now.fault self.now.records }
    {
        match self.fault {
            None => Ok(self.records),
            Some(fault) => Err(fault),
        }
    }
}
