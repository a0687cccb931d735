//! The methods of `Reader`, and the reading of a whole trace.
ghost use Rattle.std.specs.Prelude.{◌≡◌, ◌+◌, ◌<◌, None, OnSome};
ghost use Rattle.std.specs.Iterator.{at_most};
ghost use Rattle.trace.specs.Laws.{RoundTrip};
ghost use Rattle.trace.specs.Reading.{Tells, fault_at, outcome as the_outcome};
ghost use Rattle.trace.specs.Readers.{Next, to_go};

use super::Reader;
use crate::front::split;
use crate::record::Record;
use faults::fault::Fault;
use faults::refusal::Refusal;

impl<'a> Reader<'a> {
    /// A reader before the first record of the trace.
    pub fn new(trace: &'a [u8]) -> Reader<'a>
        ensures trace { result.trace.now ≡ trace.now }
        ensures place { result.place ≡ 0 }
        ensures records { result.records ≡ 0 }
        ensures fault { result.fault ≡ None }
    {
        Reader {
            trace,
            place: 0,
            records: 0,
            fault: None,
        }
    }

    /// The fault of the record that begins at the reader's place.
    fn fault_here(&self, refusal: Refusal) -> Fault
        ensures { result ≡ fault_at refusal (self.now.records + 1) self.now.place }
    {
        Fault {
            refusal,
            record: self.records + 1,
            byte: self.place,
        }
    }
}

/// The next record; none at the end of the trace, and none at a fault, which `outcome` then tells.
impl<'a> Iterator for Reader<'a> {
    type Item = Record<'a>;

    ghost next_gives = { Next };

    ghost remaining = { λ r. at_most (to_go r) };

    fn next(&mut self) -> Option<Record<'a>>
        ensures steps { Next self.old result self.new }
        ensures falls { OnSome result (to_go self.new < to_go self.old) }
        ensures round { RoundTrip }
    {
        match split(&self.trace[self.place..]) {
            Ok(Some((record, rest))) => {
                self.place = self.trace.len() - rest.len();
                self.records += 1;
                self.fault = None;
                Some(record)
            }
            Ok(None) => {
                self.fault = None;
                None
            }
            Err(refusal) => {
                self.fault = Some(self.fault_here(refusal));
                None
            }
        }
    }
}

/// How many records a trace has, or where it is no record.
pub fn count_records(trace: &[u8]) -> Result<usize, Fault>
    ensures value { result ≡ the_outcome trace.now }
    ensures tells { Tells trace.now result }
{
    let mut reader = Reader::new(trace);
    while let Some(_) = reader.next() {}
    reader.outcome()
}
