// Replays scripts of calls on sheets, and prints what is answered to each call and the contents at
// the end.

#![tactic(auto)]

mod levels;
mod periods;
mod telling;
mod writing;

use crate::telling::{Told, tell_answers, tell_contents};
use items::Counts;
use kinds::Kind;
use lists::lent::{Lists, Showing};
use measure::Measure;
use memory::encounter::EncounterMemory;
use memory::sheet::SheetMemory;
use names::Names;
use replay::playing::replay;
use replay::script::{Answer, Call, ReplayFault};
use replay::state::Sheet;
use results::ResultKind;
use results::figure::Figure;
use results::period::Period;
use std::fmt::Display;
use std::io;

fn tell_sheet(rt: &HostRuntime, sheet: &Sheet) -> io::Result<Counts> {
    match sheet {
        Sheet::Draft(draft) => {
            println!(rt; "a draft")?;
            Ok(draft.counts())
        }
        Sheet::Issued(issued) => {
            println!(rt; "issued")?;
            Ok(issued.counts())
        }
    }
}

fn tell_fault(rt: &HostRuntime, fault: ReplayFault) -> io::Result<()> {
    match fault {
        ReplayFault::Lists => println!(rt; "not replayed: a list is not of right length"),
        ReplayFault::Answers => println!(rt; "not replayed: too few places for answers"),
    }
}

// Replays a script, and prints the answers, the state and the contents at the end.
fn play<K: Kind, R: ResultKind + Told>(
    rt: &HostRuntime,
    calls: &[Call<'_, K::Value, K::Cell, R>],
    lists: &mut Lists<'_, K, R>,
    at: &mut Showing<'_, K::Value>,
    answers: &mut [Answer<R>],
) -> io::Result<()>
where
    K::Value: Display,
    K::Cell: Told,
{
    match replay(calls, lists, at, answers) {
        Ok(sheet) => {
            tell_answers(rt, answers)?;
            let counts = tell_sheet(rt, &sheet)?;
            tell_contents(rt, counts, lists)
        }
        Err(fault) => tell_fault(rt, fault),
    }
}

// The script over levels, then once more with too few places for answers.
fn play_levels(rt: &HostRuntime) -> io::Result<()> {
    let mut memory: SheetMemory<Measure, Figure> = SheetMemory::new(0, Figure { value: 0 });
    let mut encounter = EncounterMemory::new(0);
    let lists = &mut memory.lend();
    let at = &mut encounter.lend();
    let script = levels::script();
    println!(rt; "levels")?;
    play(rt, &script, lists, at, &mut [Answer::NotAllowed; 58])?;
    play(rt, &script, lists, at, &mut [Answer::NotAllowed; 57])
}

// A script on lists of which one is not of right length.
fn play_short(rt: &HostRuntime) -> io::Result<()> {
    let mut memory: SheetMemory<Measure, Figure> = SheetMemory::new(0, Figure { value: 0 });
    let mut encounter = EncounterMemory::new(0);
    let Lists {
        quantities,
        rows,
        entries,
        results,
    } = memory.lend();
    let mut lists: Lists<'_, Measure, Figure> = Lists {
        quantities,
        rows: &mut rows[..15],
        entries,
        results,
    };
    let at = &mut encounter.lend();
    let script = levels::writing();
    play(rt, &script, &mut lists, at, &mut [Answer::NotAllowed; 20])
}

// The script over names, with two places more for answers than calls.
fn play_names(rt: &HostRuntime) -> io::Result<()> {
    let mut memory: SheetMemory<Names, Period> = SheetMemory::new(0, Period { from: 0, to: 0 });
    let mut encounter = EncounterMemory::new(0);
    let lists = &mut memory.lend();
    let at = &mut encounter.lend();
    let script = periods::script();
    println!(rt; "names")?;
    play(rt, &script, lists, at, &mut [Answer::NotAllowed; 48])
}

fn main(rt: HostRuntime) -> io::Result<()> {
    play_levels(&rt)?;
    play_short(&rt)?;
    play_names(&rt)
}
