// The lines of an encounter.
use crate::cases::Case;
use fixes::verdict::Verdict;
use house::House;
use lists::lent::Encounter;
use probe::fault::{Lettered, ProbeFault};
use probe::minima::{Along, Minima, Sheets};
use probe::probing::probe;
use std::fmt;

// The minima, as the sheets give them.
#[derive(Clone, Copy)]
struct MinimaText(Result<Minima, Lettered>);

impl fmt::Display for MinimaText {
    fn fmt<W: fmt::Write>(&self, f: &mut fmt::Formatter<W>) -> fmt::Result {
        match self.0 {
            Ok(minima) => {
                let v = minima.vertical.value;
                let l = minima.lateral.value;
                match minima.along {
                    Along::Trail(g) => write!(f, "V {v} ft, L {l} nm, G {} min", g.value),
                    Along::Opposition(n) => {
                        write!(f, "V {v} ft, L {l} nm, N {} to {} min", n.from, n.to)
                    }
                }
            }
            Err(refusal) => write!(f, "none, {}", ProbeFault::from(refusal)),
        }
    }
}

// What a probe answers.
#[derive(Clone, Copy)]
struct AnswerText(Result<Verdict, ProbeFault>);

impl fmt::Display for AnswerText {
    fn fmt<W: fmt::Write>(&self, f: &mut fmt::Formatter<W>) -> fmt::Result {
        match self.0 {
            Ok(verdict) => {
                let v = verdict.vertical;
                let l = verdict.lateral;
                let g = verdict.longitudinal;
                let said = if verdict.is_separated() {
                    "separated"
                } else {
                    "not separated"
                };
                write!(f, "{v} ft, {l} tenths of a nm, {g} s: {said}")
            }
            Err(fault) => write!(f, "{fault}"),
        }
    }
}

// Prints the minima of an encounter, the margins with the verdict, and the same exchanged.
pub fn show(rt: &HostRuntime, sheets: &Sheets<'_, House>, case: Case) -> anyhow::Result<()> {
    let a = case.a.values();
    let b = case.b.values();
    let pair = case.values();
    let e = Encounter {
        a: &a,
        b: &b,
        pair: &pair,
    };
    let flights = case.flights();
    let minima = MinimaText(sheets.minima(flights.passing.direction, &e));
    let margins = AnswerText(probe(sheets, &e, flights));
    let exchanged = AnswerText(probe(sheets, &e.exchanged(), flights.exchanged()));
    println!(rt; "{}", case.name)?;
    println!(rt; "  minima     {minima}")?;
    println!(rt; "  margins    {margins}")?;
    println!(rt; "  exchanged  {exchanged}")?;
    Ok(())
}
