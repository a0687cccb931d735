//! The reader: a lent trace and a place in it.
ghost use Rattle.std.specs.Prelude.{◌≤◌, length};

use faults::fault::Fault;

pub mod methods;
pub mod progress;

/// Reads a trace from its front, record by record.
#[derive(Drop)]
pub struct Reader<'a> {
    trace: &'a [u8],
    place: usize,
    records: usize,
    fault: Option<Fault>,
    ghost within: { place ≤ length trace.now },
    ghost few: { records ≤ place },
}
