//! The call that a record spells.
ghost use Rattle.std.specs.Prelude.{◌≡◌, Some};
ghost use Rattle.trace.specs.Format.{number as numeral};
ghost use Rattle.trace.specs.Records.{body_of, four_bytes, kind_of};
ghost use Rattle.trace_run.specs.Calls.{Encodings, call_of};

use calculus::call::Call;
use calculus::verdict::Verdict;
use qbf::quantifier::Quantifier;
use qbf::side::Side;
use trace::record::Record;

/// The number of a constraint that four bytes spell.
fn constraint(bytes: &[u8; 4]) -> u64
    ensures { result ≡ numeral (four_bytes bytes.now) }
{
    u64::from(u32::from_le_bytes(*bytes))
}

/// The call of a record. Every call whose numbers fit a record is spelled by its encoding.
pub fn call_of(record: &Record<'_>) -> Call
    ensures value { Some result ≡ call_of (kind_of «record».now) (body_of «record».now) }
    ensures encodings { Encodings }
{
    match record {
        Record::Existential => Call::Name(Quantifier::Existential),
        Record::Universal => Call::Name(Quantifier::Universal),
        Record::EndNaming => Call::EndNaming,
        Record::Literal(code) => Call::Put(u16::from_le_bytes(**code)),
        Record::LoadClause => Call::Load(Side::Clause),
        Record::LoadCube => Call::Load(Side::Cube),
        Record::EndLoading => Call::EndLoading,
        Record::ImplyByClause(number) => Call::Imply(Side::Clause, constraint(number)),
        Record::ImplyByCube(number) => Call::Imply(Side::Cube, constraint(number)),
        Record::Decide(code) => Call::Decide(u16::from_le_bytes(**code)),
        Record::Undo(decisions) => Call::Undo(u16::from_le_bytes(**decisions)),
        Record::BeginFromClause(number) => Call::Begin(Side::Clause, constraint(number)),
        Record::BeginFromCube(number) => Call::Begin(Side::Cube, constraint(number)),
        Record::Resolve(number, variable) => Call::Resolve(
            constraint(number),
            u16::from_le_bytes(**variable),
        ),
        Record::Reduce => Call::Reduce,
        Record::Store => Call::Store,
        Record::Abandon => Call::Abandon,
        Record::CloseFalse => Call::Close(Verdict::False),
        Record::CloseTrue => Call::Close(Verdict::True),
    }
}
