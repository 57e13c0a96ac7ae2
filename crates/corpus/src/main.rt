// Runs every page of data/ through the report and prints each name with its answer, in the order
// of data/names.txt. What is to come out is in the file stdout.

#![tactic(auto)]

use page::report::answer;
use std::fs;

fn show(rt: &HostRuntime, name: &str) -> anyhow::Result<()> {
    let heap = rt.alloc();
    let path = format!(in heap; "{name}.page")?;
    let page = fs::read(rt, path.as_str())?;
    let report = answer(heap, page.as_slice())?;
    let text = report.text.as_str();
    print!(rt; "== {name}\n{text}")?;
    Ok(())
}

fn run(rt: &HostRuntime) -> anyhow::Result<()> {
    let names = fs::read_to_string(rt, "names.txt")?;
    for name in names.as_str().lines() {
        show(rt, name)?;
    }
    Ok(())
}

fn main(rt: HostRuntime) -> anyhow::Result<()> {
    run(&rt)
}
