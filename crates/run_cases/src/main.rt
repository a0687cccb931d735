//! Runs whole traces over a list database and a complementing layer over a bitset database, and prints the answer line of each.
#![tactic(auto)]

use bitset_database::bitset::BitsetDatabase;
use database::complemented::ComplementedDatabase;
use list_database::list::ListDatabase;
use std::io;
use trace_run::check::check;
use trace_run::line::answer_line;

/// The 54 bytes that derive the empty clause and close with "false".
const FALSE: &[u8; 54] =
    b"\x01\x02\x03\x04\x02\x00\x04\x04\x00\x05\x04\x03\x00\x04\x05\x00\x05\x04\x02\x00\x04\x05\x00\x06\x04\x03\x00\x04\x04\x00\x06\x07\x0c\x01\x00\x00\x00\x0f\x10\x0c\x02\x00\x00\x00\x0f\x0e\x03\x00\x00\x00\x01\x00\x10\x12";

/// The same, closing with "true".
const WRONG: &[u8; 54] =
    b"\x01\x02\x03\x04\x02\x00\x04\x04\x00\x05\x04\x03\x00\x04\x05\x00\x05\x04\x02\x00\x04\x05\x00\x06\x04\x03\x00\x04\x04\x00\x06\x07\x0c\x01\x00\x00\x00\x0f\x10\x0c\x02\x00\x00\x00\x0f\x0e\x03\x00\x00\x00\x01\x00\x10\x13";

/// The quantifiers exchanged, and the empty cube derived: closes with "true".
const TRUE: &[u8; 54] =
    b"\x02\x01\x03\x04\x02\x00\x04\x04\x00\x05\x04\x03\x00\x04\x05\x00\x05\x04\x02\x00\x04\x05\x00\x06\x04\x03\x00\x04\x04\x00\x06\x07\x0d\x01\x00\x00\x00\x0f\x10\x0d\x02\x00\x00\x00\x0f\x0e\x03\x00\x00\x00\x01\x00\x10\x13";

/// The traces, and what they are.
const CASES: [(&str, &[u8]); 12] = [
    ("the trace for false", FALSE),
    ("closing with true instead", WRONG),
    ("the trace for true", TRUE),
    ("no trace", &[]),
    ("the empty clause loaded", b"\x03\x05\x07\x12"),
    ("one more call after the closing", b"\x03\x05\x07\x12\x12"),
    ("an unknown kind after the closing", b"\x03\x05\x07\x12\x00"),
    ("a cut body after the closing", b"\x03\x05\x07\x12\x04\x02"),
    (
        "ends unclosed in a derivation",
        b"\x03\x05\x07\x0c\x01\x00\x00\x00",
    ),
    ("five cubes in four cells", b"\x03\x06\x06\x06\x06\x06"),
    (
        "thirteen empty clauses in 24 cells",
        b"\x03\x05\x05\x05\x05\x05\x05\x05\x05\x05\x05\x05\x05\x05",
    ),
    ("a literal of no variable", b"\x01\x03\x04\x04\x00"),
];

fn main(rt: HostRuntime) -> io::Result<()> {
    'cases: for (name, trace) in CASES {
        let mut cells = [0u16; 24];
        let mut words = [0u64; 79];
        let checked = check(
            rt.alloc(),
            ListDatabase::new(&mut cells),
            ComplementedDatabase::new(BitsetDatabase::new(&mut words)),
            trace,
        )?;
        let line = answer_line(rt.alloc(), checked.answer)?;
        println!(rt; "{name}: {line}")?;
    }
    Ok(())
}
