//! The run: records are read and their calls made, until the first refusal or the end.
ghost use Rattle.calculus.specs.History.{verdict_at};
ghost use Rattle.session.specs.States.{state_of};
ghost use Rattle.std.specs.Prelude.{◌≡◌, None};
ghost use Rattle.trace_run.specs.Outcomes.{Extends, OnlyThose, Says};
ghost use Rattle.trace_run.specs.Runs.{abandoned, ended, ran};

use crate::calls::call_of;
use calculus::answer::Answer;
use calculus::call::Call;
use calculus::verdict::Verdict;
use database::database::Database;
use faults::fault::Fault;
use faults::refusal::Refusal;
use session::session::Session;
use trace::reader::Reader;

/// What a run answers once its reader gives no record: the reader's fault, or at the end of the trace the verdict, or that the trace ends unclosed.
fn ending<C: Database, D: Database>(
    session: &Session<C, D>,
    reader: &Reader<'_>,
) -> Result<Verdict, Fault>
    ensures { result ≡ ended reader.now.fault (state_of session.now).stage reader.now.records reader.now.place }
{
    let records = reader.outcome()?;
    session.verdict().ok_or(Fault {
        refusal: Refusal::Unclosed,
        record: records + 1,
        byte: reader.place(),
    })
}

/// Abandons the derivation, if the session is in one.
fn leave<C: Database, D: Database>(session: &mut Session<C, D>)
    ensures { state_of session.new ≡ abandoned (state_of session.old) }
{
    if session.stage().allows(Call::Abandon) {
        let _ = session.apply(Call::Abandon);
    }
}

/// Runs a trace against a session. The answer is the verdict, or the fault that the run stopped at; a run that stops in a derivation then abandons it.
pub fn run<C: Database, D: Database>(
    session: &mut Session<C, D>,
    trace: &[u8],
) -> Result<Verdict, Fault>
    ensures answer { result ≡ (ran (state_of session.old) trace.now).answer }
    ensures state { state_of session.new ≡ (ran (state_of session.old) trace.now).state }
    ensures says { verdict_at session.old.stage ≡ None → Says (state_of session.old) trace.now result }
    ensures only { OnlyThose }
    ensures extends { Extends (state_of session.old) trace.now (state_of session.new) }
{
    let mut reader = Reader::new(trace);
    'records: loop {
        let byte = reader.place();
        let Some(record) = reader.next() else {
            let answer = ending(session, &reader);
            leave(session);
            return answer;
        };
        if let Answer::Refused(refusal) = session.apply(call_of(&record)) {
            leave(session);
            return Err(Fault {
                refusal,
                record: reader.records(),
                byte,
            });
        }
    }
}
