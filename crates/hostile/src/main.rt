// Pages that mean harm: each gets its refusal at once, whatever it holds. Prints a line for each.

#![tactic(auto)]

use page::report::answer;
use std::alloc::{AllocError, Global};

// So many times the same bytes, and then an end.
fn repeated(heap: Global, part: &[u8], times: usize, end: &[u8]) -> Result<Vec<u8>, AllocError> {
    let mut page = part.repeat(heap, times)?;
    page.extend_from_slice(end)?;
    Ok(page)
}

// The answer to such a page, with a name.
fn show(rt: &HostRuntime, name: &str, part: &[u8], times: usize, end: &[u8]) -> anyhow::Result<()> {
    let heap = rt.alloc();
    let page = repeated(heap, part, times, end)?;
    let report = answer(heap, page.as_slice())?;
    let text = report.text.as_str();
    print!(rt; "{name}: {text}")?;
    Ok(())
}

// Pages that no line of can be read.
fn shapeless(rt: &HostRuntime) -> anyhow::Result<()> {
    show(rt, "nothing", b"", 0, b"")?;
    show(rt, "ten million zeros", b"\0", 10_000_000, b"")?;
    show(rt, "65,536 zeros", b"\0", 65_536, b"")?;
    show(rt, "65,536 bytes with an end", b"a", 65_531, b"\nend\n")?;
    show(rt, "65,537 bytes with an end", b"a", 65_532, b"\nend\n")?;
    show(rt, "high bytes", b"\xff", 60_000, b"\nend\n")?;
    show(rt, "empty lines", b"\n", 65_532, b"end\n")?;
    show(rt, "spaces", b" ", 65_531, b"\nend\n")?;
    show(rt, "no line end", b"flight measure 0 9 ", 3_000, b"")?;
    show(rt, "ends", b"end\n", 16_384, b"")
}

// Pages whose lines are well formed.
fn well_formed(rt: &HostRuntime) -> anyhow::Result<()> {
    show(rt, "quantities", b"flight measure 0 9\n", 3_000, b"end\n")?;
    show(rt, "rows", b"row 0 A\n", 8_000, b"end\n")?;
    show(rt, "columns", b"column 1\n", 7_000, b"end\n")?;
    show(rt, "nevers", b"never\n", 10_000, b"end\n")?;
    show(rt, "defaults", b"default 1\n", 6_000, b"end\n")?;
    show(rt, "a long field", b"9", 65_000, b" 9\nend\n")?;
    show(
        rt,
        "a count far above the limit",
        b"flight measure -1000000 1000000\n",
        16,
        b"row 0 A\nrow 1 A\nrow 2 A\nrow 3 A\nrow 4 A\nrow 5 A\nrow 6 A\nrow 7 A\nrow 8 A\nrow 9 A\nrow 10 A\nrow 11 A\nrow 12 A\nrow 13 A\nrow 14 A\nrow 15 A\ncolumn 1 0..9 0..9 0..9 0..9 0..9 0..9 0..9 0..9 0..9 0..9 0..9 0..9 0..9 0..9 0..9 0..9\ndefault 1\nend\n",
    )
}

fn run(rt: &HostRuntime) -> anyhow::Result<()> {
    shapeless(rt)?;
    well_formed(rt)
}

fn main(rt: HostRuntime) -> anyhow::Result<()> {
    run(&rt)
}
