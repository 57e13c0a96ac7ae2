// Sheets over a kind from outside the house: the tracks of two flights. Nothing but this program and
// the crate of the kind knows it; the calls on a sheet, issue, look-up and the probe are used as
// they are.

#![tactic(auto)]

mod show;
mod written;

use crate::show::{print_probe, print_result};
use crate::written::{issue, nothing, track, write_half, write_plain, write_whole};
use anyhow::anyhow;
use lists::lent::{Encounter, Lists};
use memory::sheet::SheetMemory;
use probe::fault::Letter;
use probe::minima::{Sheet, Sheets};
use results::ResultKind;
use results::figure::Figure;
use results::period::Period;
use sheet::states::{Draft, Issued};
use tracks::Tracks;

// An issued sheet that has a default and no column.
fn plain<R: ResultKind>(
    rt: &HostRuntime,
    lists: &mut Lists<'_, Tracks, R>,
    res: R,
) -> anyhow::Result<Issued> {
    let mut draft = Draft::open();
    write_plain(&mut draft, lists, res).map_err(|_| anyhow!("a call is refused"))?;
    issue(rt, draft, lists)?.map_err(|_| anyhow!("a sheet is not issued"))
}

// The lateral sheet. Without a column for half tracks it is not issued, and the draft comes back.
fn lateral(rt: &HostRuntime, lists: &mut Lists<'_, Tracks, Figure>) -> anyhow::Result<Issued> {
    let mut draft = Draft::open();
    write_whole(&mut draft, lists).map_err(|_| anyhow!("a call is refused"))?;
    let Err(mut back) = issue(rt, draft, lists)? else {
        return Err(anyhow!("a hole was not seen"));
    };
    println!(rt; "so half tracks get a column of their own")?;
    write_half(&mut back, lists).map_err(|_| anyhow!("a call is refused"))?;
    issue(rt, back, lists)?.map_err(|_| anyhow!("a sheet is not issued"))
}

// Looks pairs of tracks up, and probes flights on them.
fn probe_pairs(rt: &HostRuntime, sheets: &Sheets<'_, Tracks>) -> anyhow::Result<()> {
    for (one, two) in [
        (track(0, false), track(2, false)),
        (track(0, true), track(1, false)),
        (track(3, true), track(3, true)),
        (track(25, true), track(0, false)),
    ] {
        // the lists of an encounter have 16 values
        let a = [one; 16];
        let b = [two; 16];
        let pair = [nothing(); 16];
        let e = Encounter {
            a: &a,
            b: &b,
            pair: &pair,
        };
        print_result(rt, one, two, sheets.l.look_up(Letter::L, &e))?;
        print_probe(rt, sheets, &e)?;
    }
    Ok(())
}

fn run(rt: &HostRuntime) -> anyhow::Result<()> {
    let mut l = SheetMemory::new(nothing(), Figure { value: 0 });
    let mut o = SheetMemory::new(nothing(), Figure { value: 0 });
    let mut n = SheetMemory::new(nothing(), Period { from: 0, to: 0 });
    let mut l_lists = l.lend();
    let mut o_lists = o.lend();
    let mut n_lists = n.lend();
    let l_issued = lateral(rt, &mut l_lists)?;
    let o_issued = plain(rt, &mut o_lists, Figure { value: 1000 })?;
    let n_issued = plain(rt, &mut n_lists, Period { from: -15, to: 15 })?;
    // The flights go opposite ways, so the sheet for the same direction is not looked up, and that of
    // vertical minima stands in its place.
    let sheets = Sheets {
        v: Sheet {
            issued: &o_issued,
            lists: &o_lists,
        },
        l: Sheet {
            issued: &l_issued,
            lists: &l_lists,
        },
        g: Sheet {
            issued: &o_issued,
            lists: &o_lists,
        },
        n: Sheet {
            issued: &n_issued,
            lists: &n_lists,
        },
    };
    probe_pairs(rt, &sheets)
}

fn main(rt: HostRuntime) -> anyhow::Result<()> {
    run(&rt)
}
