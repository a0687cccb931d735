//! Lists the records of a trace that is read from the standard input, and says where it is cut.
#![tactic(auto)]

use std::io;
use std::io::Read;
use trace::input::{most_read, within_limit};
use trace::listing::{last_line, record_line};
use trace::reader::Reader;

/// Prints a line for each record as it is read, and then the last line.
fn list(rt: &HostRuntime, trace: &[u8]) -> io::Result<()> {
    let mut reader = Reader::new(trace);
    let mut byte = reader.place();
    while let Some(record) = reader.next() {
        let line = record_line(rt.alloc(), reader.records(), byte, record)?;
        println!(rt; "{line}")?;
        byte = reader.place();
    }
    let line = last_line(rt.alloc(), reader.outcome())?;
    println!(rt; "{line}")
}

fn main(rt: HostRuntime) -> io::Result<()> {
    let mut input = Vec::new(rt.alloc());
    rt.stdin().take(most_read()).read_to_end(&mut input)?;
    match within_limit(input.as_slice()) {
        Ok(()) => list(&rt, input.as_slice()),
        Err(fault) => println!(rt; "{fault}"),
    }
}
