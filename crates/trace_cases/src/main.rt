//! Runs the reader over whole, cut and unknown records and over inputs at the limit, and prints the last line of each listing.
#![tactic(auto)]

use faults::fault::Fault;
use std::io;
use std::iter::repeat_n;
use trace::input::{MOST, within_limit};
use trace::listing::last_line;
use trace::reader::methods::count_records;

/// Every kind, with how many bytes its body has.
const KINDS: [(u8, usize); 19] = [
    (0x01, 0),
    (0x02, 0),
    (0x03, 0),
    (0x04, 2),
    (0x05, 0),
    (0x06, 0),
    (0x07, 0),
    (0x08, 4),
    (0x09, 4),
    (0x0a, 2),
    (0x0b, 2),
    (0x0c, 4),
    (0x0d, 4),
    (0x0e, 6),
    (0x0f, 0),
    (0x10, 0),
    (0x11, 0),
    (0x12, 0),
    (0x13, 0),
];

/// Six whole records of 1, 1, 1, 3, 7 and 5 bytes, and a seventh that is cut.
const SIX_AND_A_CUT: [u8; 20] =
    *b"\x01\x02\x03\x04\x02\x00\x0e\x01\x00\x00\x00\x01\x00\x08\x01\x00\x00\x00\x0a\x04";

fn outcome(input: &[u8]) -> Result<usize, Fault> {
    within_limit(input)?;
    count_records(input)
}

fn show(rt: &HostRuntime, name: &str, input: &[u8]) -> io::Result<()> {
    let line = last_line(rt.alloc(), outcome(input))?;
    println!(rt; "{name}: {line}")
}

/// A whole record, and then one of the kind with so many bytes of its body.
fn one_record(rt: &HostRuntime, kind: u8, length: usize) -> io::Result<()> {
    let mut input = vec![in rt.alloc(); 0x0f, kind]?;
    input.extend(repeat_n(0x01, length))?;
    let line = last_line(rt.alloc(), outcome(input.as_slice()))?;
    println!(rt; "kind {kind}, {length} bytes: {line}")
}

/// So many records without a body.
fn many(rt: &HostRuntime, count: usize) -> io::Result<()> {
    let input = vec![in rt.alloc(); 0x01u8; count]?;
    let line = last_line(rt.alloc(), outcome(input.as_slice()))?;
    println!(rt; "{count} bytes: {line}")
}

fn main(rt: HostRuntime) -> io::Result<()> {
    show(&rt, "empty", &[])?;
    show(&rt, "kind 0", &[0x00])?;
    show(
        &rt,
        "kind 20 after two records",
        &[0x01, 0x04, 0x02, 0x00, 0x14],
    )?;
    show(&rt, "kind 255 after a close", &[0x12, 0xff, 0x01])?;
    show(&rt, "cut after six records", &SIX_AND_A_CUT)?;
    for (kind, whole) in KINDS {
        for length in 0..=whole {
            one_record(&rt, kind, length)?;
        }
    }
    many(&rt, MOST - 1)?;
    many(&rt, MOST)?;
    many(&rt, MOST + 1)
}
