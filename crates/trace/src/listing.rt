//! The lines of a listing: one for each record, and a last one.
ghost use Rattle.std.specs.Prelude.{◌≡◌, IfOk, Some, string_bytes};
ghost use Rattle.trace.specs.Lines.{last_line, name_of, record_line, record_text};

use crate::record::Record;
use faults::fault::Fault;
use std::alloc::{AllocError, Global};
use std::fmt;

impl Record<'_> {
    /// The name of the record's kind.
    pub fn name(&self) -> &'static str
        ensures { result.now ≡ name_of self.now }
    {
        match self {
            Record::Existential => "existential",
            Record::Universal => "universal",
            Record::EndNaming => "end naming",
            Record::Literal(_) => "literal",
            Record::LoadClause => "load clause",
            Record::LoadCube => "load cube",
            Record::EndLoading => "end loading",
            Record::ImplyByClause(_) => "imply by clause",
            Record::ImplyByCube(_) => "imply by cube",
            Record::Decide(_) => "decide",
            Record::Undo(_) => "undo",
            Record::BeginFromClause(_) => "begin from clause",
            Record::BeginFromCube(_) => "begin from cube",
            Record::Resolve(_, _) => "resolve",
            Record::Reduce => "reduce",
            Record::Store => "store",
            Record::Abandon => "abandon",
            Record::CloseFalse => "close false",
            Record::CloseTrue => "close true",
        }
    }
}

/// A record's name, and the numbers of its body.
impl fmt::Display for Record<'_> {
    ghost output = { λ x. Some (record_text x) };

    fn fmt<W: fmt::Write>(&self, f: &mut fmt::Formatter<W>) -> fmt::Result {
        let name = self.name();
        match self {
            Record::Literal(bytes) | Record::Decide(bytes) | Record::Undo(bytes) => {
                let number = u16::from_le_bytes(**bytes);
                write!(f, "{name} {number}")
            }
            Record::ImplyByClause(bytes)
            | Record::ImplyByCube(bytes)
            | Record::BeginFromClause(bytes)
            | Record::BeginFromCube(bytes) => {
                let number = u32::from_le_bytes(**bytes);
                write!(f, "{name} {number}")
            }
            Record::Resolve(number, variable) => {
                let number = u32::from_le_bytes(**number);
                let variable = u16::from_le_bytes(**variable);
                write!(f, "{name} {number} {variable}")
            }
            _ => write!(f, "{name}"),
        }
    }
}

/// The line of a record: its number, its byte, its name and its body's numbers.
pub fn record_line(
    heap: Global,
    number: usize,
    byte: usize,
    record: Record<'_>,
) -> Result<String, AllocError>
    ensures { IfOk result (λ s. string_bytes s ≡ record_line number byte «record».entry) }
{
    format!(in heap; "record {number} byte {byte} {record}")
}

/// The last line: how many records there are, or the fault.
pub fn last_line(heap: Global, outcome: Result<usize, Fault>) -> Result<String, AllocError>
    ensures { IfOk result (λ s. string_bytes s ≡ last_line outcome) }
{
    match outcome {
        Ok(count) => format!(in heap; "records {count}"),
        Err(fault) => format!(in heap; "{fault}"),
    }
}
