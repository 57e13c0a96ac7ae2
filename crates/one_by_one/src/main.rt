// Reads a page on standard input and issues its sheet by going through the encounters made of starts
// one by one, where the program `jarrahclamp` goes by sets of columns. It prints what that program prints
// of a page that is read, so that what both say and what both cost can be compared.

#![tactic(auto)]

use calling::calls::PageLists;
use faults::SheetFault;
use house::{Value, measure_value};
use items::{Counts, Quantity};
use lists::lent::Showing;
use memory::encounter::EncounterMemory;
use memory::sheet::SheetMemory;
use printing::lines::{add_lines, issued_line, refusal_line, refused_line};
use reading::reading::{MOST_BYTES, read};
use results::figure::Figure;
use seeking::seek::find_fault_one_by_one;
use std::alloc::{AllocError, Global};
use std::io::Read;

// Are two flights shown with this refusal?
fn is_shown(fault: SheetFault) -> bool {
    matches!(
        fault,
        SheetFault::Gap | SheetFault::Clash { .. } | SheetFault::Asymmetry
    )
}

// The count of the sheet, or the first refusal.
fn issue(
    counts: Counts,
    lists: &PageLists<'_>,
    at: &mut Showing<'_, Value>,
) -> Result<u32, SheetFault> {
    let view = lists.checked(counts)?;
    find_fault_one_by_one(&view, at)
}

// What is printed of a sheet that is not issued.
fn refused(
    heap: Global,
    fault: SheetFault,
    quantities: &[Quantity<Value>],
    at: &Showing<'_, Value>,
) -> Result<String, AllocError> {
    let mut text = refused_line(heap, fault.number())?;
    if is_shown(fault) {
        add_lines(heap, &at.encounter(), quantities, &mut text)?;
    }
    Ok(text)
}

// What is printed of a sheet.
fn issued_text(
    heap: Global,
    counts: Counts,
    lists: &PageLists<'_>,
    at: &mut Showing<'_, Value>,
) -> Result<String, AllocError> {
    match issue(counts, lists, at) {
        Ok(count) => issued_line(heap, count),
        Err(fault) => {
            let named = lists.quantities.get(..counts.quantities).unwrap_or(&[]);
            refused(heap, fault, named, at)
        }
    }
}

// What is printed of a page.
fn text_of(heap: Global, page: &[u8]) -> Result<String, AllocError> {
    let mut sheet = SheetMemory::new(measure_value(0), Figure { value: 0 });
    let mut encounter = EncounterMemory::new(measure_value(0));
    let mut lists = sheet.lend();
    match read(page, &mut lists) {
        Ok(draft) => issued_text(heap, draft.counts(), &lists, &mut encounter.lend()),
        Err(refusal) => refusal_line(heap, refusal),
    }
}

fn run(rt: &HostRuntime) -> anyhow::Result<()> {
    let mut page = Vec::new(rt.alloc());
    let most = MOST_BYTES as u64 + 1;
    let _ = rt.stdin().take(most).read_to_end(&mut page)?;
    let text = text_of(rt.alloc(), page.as_slice())?;
    print!(rt; "{text}")?;
    Ok(())
}

fn main(rt: HostRuntime) -> anyhow::Result<()> {
    run(&rt)
}
