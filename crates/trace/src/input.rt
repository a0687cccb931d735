//! How much of its input a program takes for a trace.
ghost use Rattle.trace.specs.Reading.{limited};
ghost use Rattle.std.specs.Prelude.{◌≡◌, length};

use faults::fault::Fault;
use faults::refusal::Refusal;

/// The most bytes that a program's input may have.
pub const MOST: usize = 65_536;

/// How many bytes a program reads of its input: one more than it may have is enough to refuse it.
pub fn most_read() -> u64
    ensures { result ≡ 65537 }
{
    MOST as u64 + 1
}

/// Refuses an input of more bytes than a program takes; no record of it is read.
pub fn within_limit(input: &[u8]) -> Result<(), Fault>
    ensures { result ≡ limited (length input.now) }
{
    if input.len() > MOST {
        return Err(Fault {
            refusal: Refusal::InputTooLong,
            record: 0,
            byte: MOST,
        });
    }
    Ok(())
}
