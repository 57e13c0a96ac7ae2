// The sheets, and how they are issued.
use crate::show::print_refused;
use faults::SheetFault;
use items::{Entry, Mode, Quantity, Row, Scope};
use lists::lent::Lists;
use memory::encounter::EncounterMemory;
use results::ResultKind;
use results::figure::Figure;
use sheet::states::{Draft, Issued};
use tracks::{Track, TrackCell, Tracks};

// A track by its letter's number, or the half track after it.
pub fn track(letter: u8, half: bool) -> Track {
    Track { letter, half }
}

// What an entry holds that no quantity needs.
pub fn nothing() -> Track {
    track(0, false)
}

// The track of each flight, from A to F.
pub fn tracks_of_flights() -> Quantity<Track> {
    Quantity {
        scope: Scope::Flight,
        least: track(0, false),
        greatest: track(5, false),
    }
}

// The same for all pairs of tracks.
pub fn write_plain<R: ResultKind>(
    draft: &mut Draft,
    lists: &mut Lists<'_, Tracks, R>,
    res: R,
) -> Result<(), SheetFault> {
    draft.name_quantity(lists, tracks_of_flights())?;
    draft.set_default(lists, res)
}

// Flights that are both on whole tracks need 60 miles.
pub fn write_whole(
    draft: &mut Draft,
    lists: &mut Lists<'_, Tracks, Figure>,
) -> Result<(), SheetFault> {
    draft.name_quantity(lists, tracks_of_flights())?;
    draft.add_row(
        lists,
        Row {
            quantity: 0,
            mode: Mode::Both,
        },
    )?;
    draft.add_row(
        lists,
        Row {
            quantity: 0,
            mode: Mode::Either,
        },
    )?;
    draft.add_column(lists, Figure { value: 60 })?;
    draft.set_cell(lists, 0, 0, Entry::Cell(TrackCell::Whole))
}

// Where one is on a half track, they need 30.
pub fn write_half(
    draft: &mut Draft,
    lists: &mut Lists<'_, Tracks, Figure>,
) -> Result<(), SheetFault> {
    draft.add_column(lists, Figure { value: 30 })?;
    draft.set_cell(lists, 1, 1, Entry::Cell(TrackCell::Half))
}

// Issues a draft and says what came of it. A draft that is refused comes back.
pub fn issue<R: ResultKind>(
    rt: &HostRuntime,
    draft: Draft,
    lists: &Lists<'_, Tracks, R>,
) -> anyhow::Result<Result<Issued, Draft>> {
    let mut encounter = EncounterMemory::new(nothing());
    let mut at = encounter.lend();
    match draft.issue(lists, &mut at) {
        Ok((issued, count)) => {
            println!(rt; "issued {count}")?;
            Ok(Ok(issued))
        }
        Err((back, fault)) => {
            print_refused(rt, fault, &at)?;
            Ok(Err(back))
        }
    }
}
