// What is printed.
use crate::written::nothing;
use faults::SheetFault;
use fixes::fix::{Direction, Fix, Flights, Passing};
use items::Side;
use lists::lent::{Encounter, Showing};
use probe::fault::{Lettered, ProbeFault};
use probe::minima::Sheets;
use probe::probing::probe;
use results::figure::Figure;
use std::fmt;
use tracks::{LAST, Track, Tracks};

fn letter(number: u8) -> char {
    if number <= LAST {
        char::from(b'A' + number)
    } else {
        '?'
    }
}

// A track by its letter. A half track has the letters of both its neighbours.
#[derive(Clone, Copy)]
struct Name(Track);

impl fmt::Display for Name {
    fn fmt<W: fmt::Write>(&self, f: &mut fmt::Formatter<W>) -> fmt::Result {
        let track = self.0;
        write!(f, "{}", letter(track.letter))?;
        if track.half {
            write!(f, "{}", letter(track.letter.saturating_add(1)))?;
        }
        Ok(())
    }
}

// A refused sheet, with the tracks of both flights that show why.
pub fn print_refused(
    rt: &HostRuntime,
    fault: SheetFault,
    at: &Showing<'_, Track>,
) -> anyhow::Result<()> {
    let number = fault.number();
    let e = at.encounter();
    let a = Name(e.value(Side::OfA, 0).unwrap_or(nothing()));
    let b = Name(e.value(Side::OfB, 0).unwrap_or(nothing()));
    println!(rt; "refused {number}: {a} {b}")?;
    Ok(())
}

// What the lateral sheet says of two tracks.
pub fn print_result(
    rt: &HostRuntime,
    a: Track,
    b: Track,
    said: Result<Figure, Lettered>,
) -> anyhow::Result<()> {
    let a = Name(a);
    let b = Name(b);
    match said {
        Ok(figure) => println!(rt; "{a} {b}: {} miles", figure.value)?,
        Err(refusal) => println!(rt; "{a} {b}: refused {}", refusal.fault.number())?,
    }
    Ok(())
}

// Two flights 45 miles apart at one level when they pass, and the same exchanged.
pub fn print_probe(
    rt: &HostRuntime,
    sheets: &Sheets<'_, Tracks>,
    e: &Encounter<'_, Track>,
) -> anyhow::Result<()> {
    let flights = Flights {
        a: Fix {
            level: 350,
            lateral: 0,
            time: 0,
        },
        b: Fix {
            level: 350,
            lateral: 450,
            time: 1200,
        },
        passing: Passing {
            direction: Direction::Opposite,
            time: 600,
            t: 600,
        },
    };
    print_verdict(rt, sheets, e, flights)?;
    print_verdict(rt, sheets, &e.exchanged(), flights.exchanged())
}

fn print_verdict(
    rt: &HostRuntime,
    sheets: &Sheets<'_, Tracks>,
    e: &Encounter<'_, Track>,
    flights: Flights,
) -> anyhow::Result<()> {
    match probe(sheets, e, flights) {
        Ok(verdict) => {
            let vertical = verdict.vertical;
            let lateral = verdict.lateral;
            let longitudinal = verdict.longitudinal;
            let separated = verdict.is_separated();
            println!(rt; "  margins {vertical} {lateral} {longitudinal}, separated: {separated}")?;
        }
        Err(fault) => println!(rt; "  probe {fault}")?,
    }
    Ok(())
}
