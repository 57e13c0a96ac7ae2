// Compares what the published analysis says of each table with what issue says of its page, one line
// a table: its page, the analysis, issue, whether the page is written back as it was read, and whether the
// first two agree.

#![tactic(auto)]

mod again;
mod analysed;
mod answers;
mod published;

use crate::again::is_written_back;
use crate::analysed::{
    Table, lateral, latitude, other_aircraft, rules, supersonic, teaching, turbojet, vertical,
};
use crate::answers::{answer_of, ask, needed, one_line};
use std::fs;

// Prints the line of a table.
fn show(rt: &HostRuntime, table: Table) -> anyhow::Result<()> {
    let heap = rt.alloc();
    let name = table.name;
    let path = format!(in heap; "{name}.page")?;
    let page = fs::read_to_string(rt, path.as_str())?;
    let text = ask(heap, page.as_str())?;
    let said = one_line(heap, text.as_str())?;
    let published = table.published;
    print!(rt; "{name}: {published} | {said}")?;
    let mut holds = published.answer() == Some(answer_of(text.as_str()));
    if let Some(listed) = published.listed() {
        let n = needed(heap, page.as_str(), listed)?;
        let all = listed.lines;
        print!(rt; ", {n} of {all} needed")?;
        holds = holds && n == all;
    }
    let mut out = vec![in heap; 0; 65536]?;
    let again = if is_written_back(page.as_bytes(), &mut out) {
        "written back"
    } else {
        "not written back"
    };
    let verdict = table.verdict(holds);
    println!(rt; " | {again} | {verdict}")?;
    Ok(())
}

fn show_all(rt: &HostRuntime, tables: &[Table]) -> anyhow::Result<()> {
    for table in tables {
        show(rt, *table)?;
    }
    Ok(())
}

fn run(rt: &HostRuntime) -> anyhow::Result<()> {
    show_all(rt, &vertical())?;
    show_all(rt, &lateral())?;
    show_all(rt, &latitude())?;
    show_all(rt, &rules())?;
    show_all(rt, &supersonic())?;
    show_all(rt, &turbojet())?;
    show_all(rt, &other_aircraft())?;
    show_all(rt, &teaching())
}

fn main(rt: HostRuntime) -> anyhow::Result<()> {
    run(&rt)
}
