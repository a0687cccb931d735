//! A refusal with its place in the trace.
ghost use Rattle.faults.specs.Faults.{fault_line};
ghost use Rattle.std.specs.Prelude.{Some};

use crate::refusal::Refusal;
use std::fmt;

/// Why a trace is refused, and where: the record, counted from 1, and the byte of its kind, counted from 0.
#[derive(Clone, Copy)]
pub struct Fault {
    pub refusal: Refusal,
    pub record: usize,
    pub byte: usize,
}

impl fmt::Display for Fault {
    ghost output = { λ x. Some (fault_line x) };

    fn fmt<W: fmt::Write>(&self, f: &mut fmt::Formatter<W>) -> fmt::Result {
        let number = self.refusal.number();
        let layer = self.refusal.layer();
        let record = self.record;
        let byte = self.byte;
        write!(f, "refused {number} {layer} record {record} byte {byte}")
    }
}
