//! Runs the three constraint databases on small cases, and prints what each does, a line for each case.
#![tactic(auto)]

ghost use Rattle.std.specs.Iterator.{IsFinite};

use anyhow::anyhow;
use bitset_database::bitset::BitsetDatabase;
use database::codes::Codes;
use database::complemented::ComplementedDatabase;
use database::database::Database;
use list_database::list::ListDatabase;
use qbf::constraint::Constraint;
use qbf::view::ConstraintView;
use std::alloc::Global;
use std::{fmt, io};

/// A constraint of some codes.
fn constraint(heap: Global, codes: &[u16]) -> anyhow::Result<Constraint> {
    let mut made = Constraint::new(heap)?;
    for &code in codes {
        made.push(code)
            .map_err(|_| anyhow!("a code that cannot follow"))?;
    }
    Ok(made)
}

/// Prints codes, as {2,4}.
fn print_codes<I: Iterator<Item = u16> + Drop>(rt: &HostRuntime, codes: I) -> io::Result<()>
    requires can { I.can_next codes }
    requires ends { IsFinite (I.remaining codes) }
{
    print!(rt; "{{")?;
    let mut more = false;
    for code in codes {
        if more {
            print!(rt; ",")?;
        }
        print!(rt; "{code}")?;
        more = true;
    }
    print!(rt; "}}")
}

/// Adds a constraint, and prints whether it was taken, and the cells that are left then.
fn add<D: Database>(
    rt: &HostRuntime,
    name: &str,
    db: &mut D,
    codes: ConstraintView<'_>,
) -> io::Result<()> {
    print!(rt; "{name}: add ")?;
    print_codes(rt, codes.codes())?;
    let answer = if db.add(codes).is_ok() {
        "taken"
    } else {
        "refused"
    };
    let left = db.cells_left();
    println!(rt; ": {answer}, {left} cells left")
}

/// Prints the codes of the constraint with a number, read from a database.
fn show<D: Database>(rt: &HostRuntime, name: &str, db: &D, number: u64) -> io::Result<()> {
    print!(rt; "{name}: constraint {number} is ")?;
    print_codes(rt, Codes::of(db, number))?;
    println!(rt;)
}

/// Prints how many constraints there are, and the cells that are left.
fn sizes<D: Database>(rt: &HostRuntime, name: &str, db: &D) -> io::Result<()> {
    let count = db.count();
    let left = db.cells_left();
    println!(rt; "{name}: count {count}, {left} cells left")
}

/// What a database answers, or that it has none.
#[derive(Drop)]
struct OrNone<T>(Option<T>);

impl<T: fmt::Display> fmt::Display for OrNone<T> {
    fn fmt<W: fmt::Write>(&self, f: &mut fmt::Formatter<W>) -> fmt::Result {
        match &self.0 {
            Some(value) => write!(f, "{value}"),
            None => write!(f, "none"),
        }
    }
}

/// Prints the length of the constraint with a number.
fn length<D: Database>(rt: &HostRuntime, name: &str, db: &D, number: u64) -> io::Result<()> {
    let size = OrNone(db.length(number));
    println!(rt; "{name}: length({number}) = {size}")
}

/// Prints the code at a place of the constraint with a number.
fn code<D: Database>(
    rt: &HostRuntime,
    name: &str,
    db: &D,
    number: u64,
    place: u32,
) -> io::Result<()> {
    let code = OrNone(db.code(number, place));
    println!(rt; "{name}: code({number}, {place}) = {code}")
}

/// Prints what a constraint of a length costs.
fn cost<D: Database>(rt: &HostRuntime, name: &str, db: &D, size: u32) -> io::Result<()> {
    let cells = OrNone(db.cost(size));
    println!(rt; "{name}: cost({size}) = {cells}")
}

/// Adds a constraint and then the empty one.
fn add_both<D: Database>(
    rt: &HostRuntime,
    name: &str,
    db: &mut D,
    first: &Constraint,
    none: &Constraint,
) -> io::Result<()> {
    sizes(rt, name, db)?;
    add(rt, name, db, first.view())?;
    add(rt, name, db, none.view())?;
    sizes(rt, name, db)
}

/// Asks for lengths, codes and costs that are there and that are not, and empties the database.
fn ask<D: Database>(rt: &HostRuntime, name: &str, db: &mut D, places: u32) -> io::Result<()> {
    for number in 0..4u64 {
        length(rt, name, db, number)?;
    }
    for place in 0..places {
        code(rt, name, db, 1, place)?;
    }
    code(rt, name, db, 0, 1)?;
    length(rt, name, db, 4294967297)?;
    code(rt, name, db, 4294967297, 1)?;
    cost(rt, name, db, 0)?;
    cost(rt, name, db, 512)?;
    cost(rt, name, db, 513)?;
    db.empty();
    sizes(rt, name, db)?;
    length(rt, name, db, 1)
}

/// A layer over a database: what it shows, and what lies below.
fn layer<D: Database + Drop>(rt: &HostRuntime, below: D, first: &Constraint) -> io::Result<()> {
    let mut above = ComplementedDatabase::new(below);
    add(rt, "layer", &mut above, first.view())?;
    show(rt, "layer", &above, 1)?;
    let below = above.into_below();
    show(rt, "below the layer", &below, 1)
}

/// A layer over a layer over a database: what each of the three shows.
fn two_layers<D: Database + Drop>(
    rt: &HostRuntime,
    below: D,
    first: &Constraint,
) -> io::Result<()> {
    let mut above = ComplementedDatabase::new(ComplementedDatabase::new(below));
    add(rt, "two layers", &mut above, first.view())?;
    show(rt, "two layers", &above, 1)?;
    let middle = above.into_below();
    show(rt, "below one layer", &middle, 1)?;
    let below = middle.into_below();
    show(rt, "below both layers", &below, 1)
}

/// Lists of codes in 5, 6 and 65,536 lent cells.
fn lists(rt: &HostRuntime, first: &Constraint, none: &Constraint) -> anyhow::Result<()> {
    let mut few = [7u16; 5];
    let mut five = ListDatabase::new(&mut few);
    add_both(rt, "list of 5 cells", &mut five, first, none)?;
    let mut enough = [7u16; 6];
    let mut six = ListDatabase::new(&mut enough);
    add_both(rt, "list of 6 cells", &mut six, first, none)?;
    ask(rt, "list of 6 cells", &mut six, 4)?;
    let mut many = vec![in rt.alloc(); 0u16; 65536]?;
    let most = ListDatabase::new(many.as_mut_slice());
    sizes(rt, "list of 65536 cells", &most)?;
    Ok(())
}

/// Rows of bits in 15 and 31 lent words.
fn bitsets(rt: &HostRuntime, wide: &Constraint, none: &Constraint) -> io::Result<()> {
    let mut few = [7u64; 15];
    let mut part = BitsetDatabase::new(&mut few);
    sizes(rt, "bitset of 15 words", &part)?;
    add(rt, "bitset of 15 words", &mut part, none.view())?;
    let mut enough = [7u64; 31];
    let mut one = BitsetDatabase::new(&mut enough);
    add_both(rt, "bitset of 31 words", &mut one, wide, none)?;
    add(rt, "bitset of 31 words", &mut one, wide.view())?;
    ask(rt, "bitset of 31 words", &mut one, 5)
}

/// Layers over a list of codes in 6 cells, and over rows of bits in 16 words.
fn layers(rt: &HostRuntime, first: &Constraint) -> io::Result<()> {
    let mut cells = [7u16; 6];
    let mut words = [7u64; 16];
    println!(rt; "over a list of 6 cells")?;
    layer(rt, ListDatabase::new(&mut cells), first)?;
    two_layers(rt, ListDatabase::new(&mut cells), first)?;
    println!(rt; "over a bitset of 16 words")?;
    layer(rt, BitsetDatabase::new(&mut words), first)?;
    two_layers(rt, BitsetDatabase::new(&mut words), first)
}

fn run(rt: &HostRuntime) -> anyhow::Result<()> {
    let none = constraint(rt.alloc(), &[])?;
    let first = constraint(rt.alloc(), &[2, 4])?;
    let wide = constraint(rt.alloc(), &[2, 67, 1025])?;
    lists(rt, &first, &none)?;
    bitsets(rt, &wide, &none)?;
    layers(rt, &first)?;
    Ok(())
}

fn main(rt: HostRuntime) -> anyhow::Result<()> {
    run(&rt)
}
