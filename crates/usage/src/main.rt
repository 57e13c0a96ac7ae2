// The calls on a sheet in their order, as a program of one's own would make them: a draft is
// written and issued, the issued sheet is looked up and withdrawn.

#![tactic(auto)]

use faults::SheetFault;
use items::{Entry, Mode, Quantity, Row, Scope};
use lists::lent::{Lists, Showing};
use measure::{Band, Measure};
use memory::encounter::EncounterMemory;
use memory::sheet::SheetMemory;
use results::figure::Figure;
use sheet::states::Draft;
use std::io;

// Why the program stops.
#[derive(Drop)]
enum Stop {
    Refused(SheetFault),
    Output(io::Error),
}

impl From<SheetFault> for Stop {
    fn from(fault: SheetFault) -> Stop {
        Stop::Refused(fault)
    }
}

impl From<io::Error> for Stop {
    fn from(error: io::Error) -> Stop {
        Stop::Output(error)
    }
}

// Levels to 280 need 1000 feet, all others 2000.
fn write_levels(
    draft: &mut Draft,
    lists: &mut Lists<'_, Measure, Figure>,
) -> Result<(), SheetFault> {
    let levels = Quantity {
        scope: Scope::Flight,
        least: 0,
        greatest: 660,
    };
    let row = Row {
        quantity: 0,
        mode: Mode::Either,
    };
    let low = Band {
        lo: 0,
        hi: 280,
        inside: true,
    };
    draft.name_quantity(lists, levels)?;
    draft.add_row(lists, row)?;
    draft.add_column(lists, Figure { value: 1000 })?;
    draft.set_cell(lists, 0, 0, Entry::Cell(low))?;
    draft.set_default(lists, Figure { value: 2000 })
}

// Issues a sheet, looks its least values up and withdraws it.
fn go(
    rt: &HostRuntime,
    lists: &mut Lists<'_, Measure, Figure>,
    at: &mut Showing<'_, i32>,
) -> Result<(), Stop> {
    let mut draft = Draft::open();
    write_levels(&mut draft, lists)?;
    let (issued, count) = draft.issue(lists, at).map_err(|(_, fault)| fault)?;
    println!(rt; "issued {count}")?;
    let feet = issued.look_up(lists, &at.encounter())?.value;
    println!(rt; "{feet} feet")?;
    issued.withdraw(lists).map_err(|(_, fault)| fault)?;
    println!(rt; "withdrawn")?;
    Ok(())
}

fn main(rt: HostRuntime) -> io::Result<()> {
    let mut sheet = SheetMemory::new(0, Figure { value: 0 });
    let mut encounter = EncounterMemory::new(0);
    match go(&rt, &mut sheet.lend(), &mut encounter.lend()) {
        Ok(()) => Ok(()),
        Err(Stop::Refused(fault)) => {
            let number = fault.number();
            println!(rt; "refused {number}")
        }
        Err(Stop::Output(error)) => Err(error),
    }
}
