//! Runs worked cases on sessions over list and bitset databases, and prints what each call answers.
#![tactic(auto)]

use bitset_database::bitset::BitsetDatabase;
use calculus::call::Call;
use calculus::verdict::Verdict;
use database::complemented::ComplementedDatabase;
use database::database::Database;
use list_database::list::ListDatabase;
use qbf::quantifier::Quantifier;
use qbf::side::Side;
use session::session::replay::replay;
use std::io;

/// Variable 1 existential, 2 universal; clauses {2,4} and {3,5}, cubes {2,5} and {3,4}.
const QUESTION: [Call; 16] = [
    Call::Name(Quantifier::Existential),
    Call::Name(Quantifier::Universal),
    Call::EndNaming,
    Call::Put(2),
    Call::Put(4),
    Call::Load(Side::Clause),
    Call::Put(3),
    Call::Put(5),
    Call::Load(Side::Clause),
    Call::Put(2),
    Call::Put(5),
    Call::Load(Side::Cube),
    Call::Put(3),
    Call::Put(4),
    Call::Load(Side::Cube),
    Call::EndLoading,
];

/// Decisions and undoing, with the answers by hand beside the calls.
const UNDOING: [(&str, Call); 8] = [
    ("decide 4 before variable 1", Call::Decide(4)),
    ("decide 2", Call::Decide(2)),
    ("decide 3, which is set", Call::Decide(3)),
    ("undo keeping 1", Call::Undo(1)),
    ("undo keeping 0", Call::Undo(0)),
    ("undo keeping 0 again", Call::Undo(0)),
    ("decide 6, which is not named", Call::Decide(6)),
    ("reduce outside a derivation", Call::Reduce),
];

/// Implications, a derivation, and the closing.
const DERIVING: [(&str, Call); 16] = [
    ("imply by clause 1", Call::Imply(Side::Clause, 1)),
    ("imply by cube 1", Call::Imply(Side::Cube, 1)),
    ("imply by clause 2", Call::Imply(Side::Clause, 2)),
    ("imply by clause 3", Call::Imply(Side::Clause, 3)),
    ("close false too early", Call::Close(Verdict::False)),
    ("begin from clause 1", Call::Begin(Side::Clause, 1)),
    ("resolve on the universal variable", Call::Resolve(2, 2)),
    ("resolve with a second clash", Call::Resolve(2, 1)),
    ("reduce", Call::Reduce),
    ("store", Call::Store),
    ("begin from clause 2", Call::Begin(Side::Clause, 2)),
    ("reduce", Call::Reduce),
    ("resolve with clause 3 on variable 1", Call::Resolve(3, 1)),
    ("store", Call::Store),
    ("close true", Call::Close(Verdict::True)),
    ("close false", Call::Close(Verdict::False)),
];

/// Loads the question and makes the calls.
fn cases<C: Database + Drop, D: Database + Drop>(
    rt: &HostRuntime,
    clauses: C,
    cubes: D,
    calls: &[(&str, Call)],
) -> io::Result<()> {
    let Ok(mut session) = replay(rt.alloc(), clauses, cubes, &QUESTION) else {
        return println!(rt; "no memory");
    };
    'calls: for (name, call) in calls {
        let answer = session.apply(*call);
        println!(rt; "{name}: {answer}")?;
    }
    Ok(())
}

fn main(rt: HostRuntime) -> io::Result<()> {
    let mut cells = [0u16; 64];
    let mut more = [0u16; 64];
    println!(rt; "over two lists")?;
    cases(
        &rt,
        ListDatabase::new(&mut cells),
        ListDatabase::new(&mut more),
        &UNDOING,
    )?;
    let mut cells = [0u16; 64];
    let mut words = [0u64; 48];
    println!(rt; "over a list and a layer over a bitset")?;
    cases(
        &rt,
        ListDatabase::new(&mut cells),
        ComplementedDatabase::new(BitsetDatabase::new(&mut words)),
        &DERIVING,
    )
}
