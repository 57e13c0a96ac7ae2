// The four sheets. All number the quantities alike, since one encounter serves them: of each
// flight 0 its level, 1 supersonic, 2 outside of the airspace with navigation minima, 3 its route,
// 4 west of 55° W, 5 meets the minima, 6 has part of its route in that airspace; of the pair
// 0 alike, 1 same or diverging tracks, 2 reported over the common point, 3 timed over it.
use anyhow::anyhow;
use calling::calls::PageLists;
use faults::SheetFault;
use house::{House, measure_value, name_value, names_cell};
use items::{Entry, Mode, Quantity, Row, Scope};
use lists::lent::Lists;
use memory::encounter::EncounterMemory;
use names::NameSet;
use reading::reading::read;
use results::ResultKind;
use results::period::Period;
use sheet::states::{Draft, Issued};

fn issue<R: ResultKind>(draft: Draft, lists: &Lists<'_, House, R>) -> anyhow::Result<Issued> {
    let mut encounter = EncounterMemory::new(measure_value(0));
    let mut at = encounter.lend();
    let (issued, _) = draft
        .issue(lists, &mut at)
        .map_err(|_| anyhow!("a sheet is not issued"))?;
    Ok(issued)
}

// Reads a page and issues its sheet.
pub fn issue_page(page: &[u8], lists: &mut PageLists<'_>) -> anyhow::Result<Issued> {
    let draft = read(page, lists).map_err(|_| anyhow!("a page is refused"))?;
    issue(draft, lists)
}

// From the passing time to 10 minutes after it for flights that reported over the common point,
// and 15 minutes about it for others.
fn write_periods(
    draft: &mut Draft,
    lists: &mut Lists<'_, House, Period>,
) -> Result<(), SheetFault> {
    // A count with no index: three quantities that are alike.
    for _ in 0..3 {
        draft.name_quantity(
            lists,
            Quantity {
                scope: Scope::Pair,
                least: name_value(0),
                greatest: name_value(1),
            },
        )?;
    }
    draft.add_row(
        lists,
        Row {
            quantity: 2,
            mode: Mode::Pair,
        },
    )?;
    draft.add_column(lists, Period { from: 0, to: 10 })?;
    draft.add_column(lists, Period { from: -15, to: 15 })?;
    draft.set_cell(lists, 0, 0, Entry::Cell(names_cell(NameSet { bits: 2 })))?;
    draft.set_cell(lists, 0, 1, Entry::Cell(names_cell(NameSet { bits: 1 })))
}

// Makes and issues the sheet of periods.
pub fn issue_periods(lists: &mut Lists<'_, House, Period>) -> anyhow::Result<Issued> {
    let mut draft = Draft::open();
    write_periods(&mut draft, lists).map_err(|_| anyhow!("a call is refused"))?;
    issue(draft, lists)
}
