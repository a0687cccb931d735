//! What stands at the front of some bytes.
ghost use Rattle.trace.specs.Format.{after_kind, body_length, decode};
ghost use Rattle.trace.specs.Records.{TakesBody, answer_of, told, told_record};
ghost use Rattle.std.specs.Prelude.{◌≡◌};

use crate::record::Record;
use faults::refusal::Refusal;

/// The body of N bytes at the front, and the rest.
fn body<const N: usize>(bytes: &[u8]) -> Result<(&[u8; N], &[u8]), Refusal>
    ensures { TakesBody N bytes.now result }
{
    bytes.split_first_chunk().ok_or(Refusal::CutBody)
}

/// The record of a kind whose body is at the front, and the rest.
fn of_kind<'a>(kind: u8, bytes: &'a [u8]) -> Result<(Record<'a>, &'a [u8]), Refusal>
    ensures { told_record result ≡ answer_of (after_kind kind (body_length kind) bytes.now) }
{
    match kind {
        0x01 => Ok((Record::Existential, bytes)),
        0x02 => Ok((Record::Universal, bytes)),
        0x03 => Ok((Record::EndNaming, bytes)),
        0x04 => body(bytes).map(|(code, rest)| (Record::Literal(code), rest)),
        0x05 => Ok((Record::LoadClause, bytes)),
        0x06 => Ok((Record::LoadCube, bytes)),
        0x07 => Ok((Record::EndLoading, bytes)),
        0x08 => body(bytes).map(|(number, rest)| (Record::ImplyByClause(number), rest)),
        0x09 => body(bytes).map(|(number, rest)| (Record::ImplyByCube(number), rest)),
        0x0a => body(bytes).map(|(code, rest)| (Record::Decide(code), rest)),
        0x0b => body(bytes).map(|(decisions, rest)| (Record::Undo(decisions), rest)),
        0x0c => body(bytes).map(|(number, rest)| (Record::BeginFromClause(number), rest)),
        0x0d => body(bytes).map(|(number, rest)| (Record::BeginFromCube(number), rest)),
        0x0e => {
            let (number, rest) = body(bytes)?;
            let (variable, rest) = body(rest)?;
            Ok((Record::Resolve(number, variable), rest))
        }
        0x0f => Ok((Record::Reduce, bytes)),
        0x10 => Ok((Record::Store, bytes)),
        0x11 => Ok((Record::Abandon, bytes)),
        0x12 => Ok((Record::CloseFalse, bytes)),
        0x13 => Ok((Record::CloseTrue, bytes)),
        _ => Err(Refusal::UnknownKind),
    }
}

/// The record at the front of the bytes and the rest; none where no byte is left.
pub(crate) fn split<'a>(bytes: &'a [u8]) -> Result<Option<(Record<'a>, &'a [u8])>, Refusal>
    ensures { told result ≡ answer_of (decode bytes.now) }
{
    match bytes {
        [] => Ok(None),
        [kind, rest @ ..] => Ok(Some(of_kind(*kind, rest)?)),
    }
}
