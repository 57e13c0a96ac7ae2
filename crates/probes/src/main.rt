// Probes published encounters by the published sheets, and prints for each the minima, the margins
// and the verdict, and the same with the flights exchanged.

#![tactic(auto)]

mod cases;
mod sheets;
mod table;

use crate::cases::cases;
use crate::sheets::{issue_page, issue_periods};
use crate::table::show;
use house::measure_value;
use memory::sheet::SheetMemory;
use probe::minima::{Sheet, Sheets};
use results::figure::Figure;
use results::period::Period;
use std::fs;

fn run(rt: &HostRuntime) -> anyhow::Result<()> {
    let vertical = fs::read(rt, "vertical.page")?;
    let lateral = fs::read(rt, "lateral.page")?;
    let same = fs::read(rt, "same-direction.page")?;
    let mut v = SheetMemory::new(measure_value(0), Figure { value: 0 });
    let mut l = SheetMemory::new(measure_value(0), Figure { value: 0 });
    let mut g = SheetMemory::new(measure_value(0), Figure { value: 0 });
    let mut n = SheetMemory::new(measure_value(0), Period { from: 0, to: 0 });
    let mut v_lists = v.lend();
    let mut l_lists = l.lend();
    let mut g_lists = g.lend();
    let mut n_lists = n.lend();
    let v_issued = issue_page(vertical.as_slice(), &mut v_lists)?;
    let l_issued = issue_page(lateral.as_slice(), &mut l_lists)?;
    let g_issued = issue_page(same.as_slice(), &mut g_lists)?;
    let n_issued = issue_periods(&mut n_lists)?;
    let sheets = Sheets {
        v: Sheet {
            issued: &v_issued,
            lists: &v_lists,
        },
        l: Sheet {
            issued: &l_issued,
            lists: &l_lists,
        },
        g: Sheet {
            issued: &g_issued,
            lists: &g_lists,
        },
        n: Sheet {
            issued: &n_issued,
            lists: &n_lists,
        },
    };
    for case in cases() {
        show(rt, &sheets, case)?;
    }
    Ok(())
}

fn main(rt: HostRuntime) -> anyhow::Result<()> {
    run(&rt)
}
