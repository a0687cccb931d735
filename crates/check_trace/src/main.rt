//! Checks a trace that is read from the standard input, and prints its verdict, or the fault that its run stopped at.
#![tactic(auto)]

ghost use Rattle.std.specs.Prelude.{◌≡◌, ◌<◌, ◌≤◌, length, IfOk, Ok, Err};
ghost use Rattle.calculus.specs.State.{opening};
ghost use Rattle.check_trace.specs.Answering.{Answers, start};
ghost use Rattle.database.specs.Complemented.{complemented_meaning};
ghost use Rattle.faults.specs.declared.refusal.Refusal.TheVariants.{InputTooLong};
ghost use Rattle.trace.specs.Reading.{fault_at};
ghost use Rattle.trace_run.specs.Outcomes.{Checks};
ghost use Rattle.trace_run.specs.Runs.{ran};

use bitset_database::bitset::BitsetDatabase;
use calculus::verdict::Verdict;
use database::complemented::ComplementedDatabase;
use database::database::Database;
use faults::fault::Fault;
use list_database::list::ListDatabase;
use std::alloc::{AllocError, Global};
use std::io;
use std::io::Read;
use trace::input::{most_read, within_limit};
use trace_run::check::{Checked, check};
use trace_run::line::answer_line;

/// The answer to a trace, and both databases as its run left them. That of the cubes holds each of them complemented.
fn check_complemented<C: Database + Drop, D: Database + Drop>(
    heap: Global,
    clauses: C,
    cubes: D,
    trace: &[u8],
) -> Result<Checked<C, D>, AllocError>
    ensures { IfOk result (λ k. Checks (C.Database.meaning clauses) (complemented_meaning (D.Database.meaning cubes)) trace.now k.answer (C.Database.meaning k.clauses) (complemented_meaning (D.Database.meaning k.cubes))) }
{
    let Checked {
        answer,
        clauses,
        cubes,
    } = check(heap, clauses, ComplementedDatabase::new(cubes), trace)?;
    Ok(Checked {
        answer,
        clauses,
        cubes: cubes.into_below(),
    })
}

/// The answer to a trace, with the cubes kept complemented.
fn answer_over<C: Database + Drop, D: Database + Drop>(
    heap: Global,
    clauses: C,
    cubes: D,
    trace: &[u8],
) -> Result<Result<Verdict, Fault>, AllocError>
    ensures value { IfOk result (λ a. a ≡ (ran (opening (C.Database.meaning clauses) (complemented_meaning (D.Database.meaning cubes))) trace.now).answer) }
    ensures answers { IfOk result (Answers (opening (C.Database.meaning clauses) (complemented_meaning (D.Database.meaning cubes))) trace.now) }
{
    Ok(check_complemented(heap, clauses, cubes, trace)?.answer)
}

/// The answer to a trace, with the clauses as lists of codes in 16,384 cells and the cubes as rows of bits in 4,096 words.
fn answer_to(heap: Global, trace: &[u8]) -> Result<Result<Verdict, Fault>, AllocError>
    ensures { IfOk result (Answers start trace.now) }
{
    let mut cells = vec![in heap; 0u16; 16384]?;
    let mut words = vec![in heap; 0u64; 4096]?;
    answer_over(
        heap,
        ListDatabase::new(cells.as_mut_slice()),
        BitsetDatabase::new(words.as_mut_slice()),
        trace,
    )
}

/// The answer to the program's input: one that is too long is refused, and none of it read; any other is a trace.
fn answer_to_input(heap: Global, input: &[u8]) -> Result<Result<Verdict, Fault>, AllocError>
    ensures long { 65536 < length input.now → result ≡ Ok (Err (fault_at InputTooLong 0 65536)) }
    ensures within { length input.now ≤ 65536 → IfOk result (Answers start input.now) }
{
    match within_limit(input) {
        Ok(()) => answer_to(heap, input),
        Err(fault) => Ok(Err(fault)),
    }
}

fn main(rt: HostRuntime) -> io::Result<()> {
    let mut input = Vec::new(rt.alloc());
    rt.stdin().take(most_read()).read_to_end(&mut input)?;
    let answer = answer_to_input(rt.alloc(), input.as_slice())?;
    let line = answer_line(rt.alloc(), answer)?;
    println!(rt; "{line}")
}
