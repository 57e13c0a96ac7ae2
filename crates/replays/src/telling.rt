// What the program prints: answers, and the contents of a sheet.
use faults::{LookupFault, SheetFault};
use items::{Counts, Entry, Mode, Quantity, Row, Scope, Side};
use kinds::Kind;
use lists::lent::Lists;
use measure::Band;
use names::NameSet;
use replay::script::Answer;
use results::figure::Figure;
use results::period::Period;
use std::fmt::Display;
use std::io;

// How this program prints cells and results.
// No `Display`: that belongs to the crates of these types, which print nothing.
pub trait Told: Copy {
    fn tell(self, rt: &HostRuntime) -> io::Result<()>;
}

impl Told for Band {
    fn tell(self, rt: &HostRuntime) -> io::Result<()> {
        let sign = if self.inside { "" } else { "!" };
        print!(rt; "{sign}{}..{}", self.lo, self.hi)
    }
}

impl Told for NameSet {
    fn tell(self, rt: &HostRuntime) -> io::Result<()> {
        print!(rt; "bits {}", self.bits)
    }
}

impl Told for Figure {
    fn tell(self, rt: &HostRuntime) -> io::Result<()> {
        print!(rt; "{}", self.value)
    }
}

impl Told for Period {
    fn tell(self, rt: &HostRuntime) -> io::Result<()> {
        print!(rt; "{} to {}", self.from, self.to)
    }
}

// Words of this program, here and below: as of `Told`, no `Display` stands outside of a type's crate.
fn side_word(side: Side) -> &'static str {
    match side {
        Side::OfA => "A",
        Side::OfB => "B",
        Side::OfPair => "pair",
    }
}

fn mode_word(mode: Mode) -> &'static str {
    match mode {
        Mode::A => "A",
        Mode::B => "B",
        Mode::Both => "both",
        Mode::Either => "either",
        Mode::Pair => "pair",
    }
}

// A refusal: its number, and the values that it tells.
fn tell_fault(rt: &HostRuntime, fault: SheetFault) -> io::Result<()> {
    let number = fault.number();
    match fault {
        SheetFault::Clash { lowest, other } => {
            println!(rt; "refused {number}: columns {lowest} and {other}")
        }
        SheetFault::Lookup(LookupFault::OutOfRange { side, quantity }) => {
            println!(rt; "refused {number}: {} {quantity}", side_word(side))
        }
        _ => println!(rt; "refused {number}"),
    }
}

fn tell_answer<R: Told>(rt: &HostRuntime, answer: Answer<R>) -> io::Result<()> {
    match answer {
        Answer::Done => println!(rt; "done"),
        Answer::Issued(count) => println!(rt; "issued {count}"),
        Answer::Found(result) => {
            print!(rt; "found ")?;
            result.tell(rt)?;
            println!(rt; "")
        }
        Answer::Refused(fault) => tell_fault(rt, fault),
        Answer::NotAllowed => println!(rt; "not allowed"),
    }
}

// The answers, each with the number of its call.
pub fn tell_answers<R: Told>(rt: &HostRuntime, answers: &[Answer<R>]) -> io::Result<()> {
    for (i, answer) in answers.iter().enumerate() {
        print!(rt; "{i} ")?;
        tell_answer(rt, *answer)?;
    }
    Ok(())
}

fn tell_quantities<V: Display>(
    rt: &HostRuntime,
    n: usize,
    quantities: &[Quantity<V>],
) -> io::Result<()> {
    for (i, quantity) in quantities.iter().take(n).enumerate() {
        let scope = match quantity.scope {
            Scope::Flight => "flight",
            Scope::Pair => "pair",
        };
        println!(rt;
            "quantity {i}: {scope} {} to {}",
            quantity.least, quantity.greatest
        )?;
    }
    Ok(())
}

fn tell_rows(rt: &HostRuntime, n: usize, rows: &[Row]) -> io::Result<()> {
    for (i, row) in rows.iter().take(n).enumerate() {
        println!(rt;
            "row {i}: quantity {} {}",
            row.quantity,
            mode_word(row.mode)
        )?;
    }
    Ok(())
}

// The entries of a column in the first n rows, 24 to a row.
fn tell_entries<C: Told>(
    rt: &HostRuntime,
    n: usize,
    entries: &[Entry<C>],
    column: usize,
) -> io::Result<()> {
    for row in entries.chunks(24).take(n) {
        match row.get(column) {
            Some(Entry::Cell(cell)) => {
                print!(rt; " ")?;
                cell.tell(rt)?;
            }
            _ => print!(rt; " .")?,
        }
    }
    println!(rt; "")
}

fn tell_columns<C: Told, R: Told>(
    rt: &HostRuntime,
    counts: Counts,
    entries: &[Entry<C>],
    results: &[R],
) -> io::Result<()> {
    for (j, result) in results.iter().take(counts.columns).enumerate() {
        print!(rt; "column {j}: ")?;
        result.tell(rt)?;
        print!(rt; ":")?;
        tell_entries(rt, counts.rows, entries, j)?;
    }
    Ok(())
}

fn tell_nevers<C: Told>(rt: &HostRuntime, counts: Counts, entries: &[Entry<C>]) -> io::Result<()> {
    for (n, column) in (16..24).take(counts.nevers).enumerate() {
        print!(rt; "never {n}:")?;
        tell_entries(rt, counts.rows, entries, column)?;
    }
    Ok(())
}

// The contents that counts and lists hold.
pub fn tell_contents<K: Kind, R: Told>(
    rt: &HostRuntime,
    counts: Counts,
    lists: &Lists<'_, K, R>,
) -> io::Result<()>
where
    K::Value: Display,
    K::Cell: Told,
{
    tell_quantities(rt, counts.quantities, lists.quantities)?;
    tell_rows(rt, counts.rows, lists.rows)?;
    tell_columns(rt, counts, lists.entries, lists.results)?;
    tell_nevers(rt, counts, lists.entries)?;
    if counts.default
        && let Some(result) = lists.results.get(16)
    {
        print!(rt; "default ")?;
        result.tell(rt)?;
        println!(rt; "")?;
    }
    Ok(())
}
