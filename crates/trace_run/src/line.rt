//! The line that tells the answer to a trace.
ghost use Rattle.std.specs.Prelude.{◌≡◌, IfOk, string_bytes};
ghost use Rattle.trace_run.specs.Lines.{answer_line};

use calculus::verdict::Verdict;
use faults::fault::Fault;
use std::alloc::{AllocError, Global};

/// The line of an answer: the verdict, or the fault.
pub fn answer_line(heap: Global, answer: Result<Verdict, Fault>) -> Result<String, AllocError>
    ensures { IfOk result (λ s. string_bytes s ≡ answer_line answer) }
{
    match answer {
        Ok(verdict) => format!(in heap; "verdict {verdict}"),
        Err(fault) => format!(in heap; "{fault}"),
    }
}
