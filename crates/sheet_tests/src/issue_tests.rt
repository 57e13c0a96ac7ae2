// Tests of issue: each refusal with what it shows, and which entries of the encounter lists it writes.
use faults::SheetFault;
use items::{Entry, Mode, Quantity, Row, Scope};
use lists::lent::{Lists, Showing};
use memory::sheet::SheetMemory;
use names::{NameSet, Names};
use results::figure::Figure;
use sheet::states::Draft;
use std::test::Fail;

// A draft of one flight name from 1 to 2, with a row in a mode, columns that hold for name 2 and
// perhaps a default.
fn written(
    lists: &mut Lists<'_, Names, Figure>,
    mode: Mode,
    columns: &[i32],
    default: Option<i32>,
) -> Result<Draft, SheetFault> {
    let name = Quantity {
        scope: Scope::Flight,
        least: 1,
        greatest: 2,
    };
    let mut draft = Draft::open();
    draft.name_quantity(lists, name)?;
    draft.add_row(lists, Row { quantity: 0, mode })?;
    for (column, value) in columns.iter().enumerate() {
        draft.add_column(lists, Figure { value: *value })?;
        draft.set_cell(lists, 0, column, Entry::Cell(NameSet { bits: 4 }))?;
    }
    if let Some(value) = default {
        draft.set_default(lists, Figure { value })?;
    }
    Ok(draft)
}

// The number of the refusal, or 0, then A's first value, B's, A's second and the pair's first: five
// numbers, compared in one line.
// Arrays one too long, and no `EncounterMemory`, since lists of a wrong length are tried too.
fn issue(draft: Draft, lists: &Lists<'_, Names, Figure>, length: usize) -> [u32; 5] {
    let mut a = [9; 17];
    let mut b = [9; 17];
    let mut pair = [9; 17];
    let end = length.min(17);
    let mut at = Showing {
        a: &mut a[0..end],
        b: &mut b[0..end],
        pair: &mut pair[0..end],
    };
    let number = draft
        .issue(lists, &mut at)
        .err()
        .map_or(0, |(_, fault)| fault.number());
    [u32::from(number), a[0], b[0], a[1], pair[0]]
}

// The answers to four sheets, with encounter lists of a length.
fn answers(
    lists: &mut Lists<'_, Names, Figure>,
    length: usize,
) -> Result<[[u32; 5]; 4], SheetFault> {
    let gap = written(lists, Mode::Either, &[1], None)?;
    let gap = issue(gap, lists, length);
    let clash = written(lists, Mode::Both, &[1, 2], Some(3))?;
    let clash = issue(clash, lists, length);
    let lopsided = written(lists, Mode::A, &[1], Some(3))?;
    let lopsided = issue(lopsided, lists, length);
    let good = written(lists, Mode::Both, &[1], Some(3))?;
    let good = issue(good, lists, length);
    Ok([gap, clash, lopsided, good])
}

fn all(length: usize) -> Result<[[u32; 5]; 4], SheetFault> {
    let mut memory = SheetMemory::new(0, Figure { value: 0 });
    answers(&mut memory.lend(), length)
}

// What is shown stands in the needed entries, and the others are as they were.
#[test]
fn shown_encounters(rt: HostRuntime) -> Result<(), Fail> {
    let found = all(16).map_err(|_| Fail::new("a draft call was refused"))?;
    assert_eq!(rt; found[0], [16, 1, 1, 9, 9]);
    assert_eq!(rt; found[1], [17, 2, 2, 9, 9]);
    assert_eq!(rt; found[2], [18, 1, 2, 9, 9]);
    assert_eq!(rt; found[3], [0, 1, 1, 9, 9]);
    Ok(())
}

// Encounter lists that are too short or too long are refused and left alone.
#[test]
fn encounter_lists_of_wrong_length(rt: HostRuntime) -> Result<(), Fail> {
    for length in [15, 17] {
        let found = all(length).map_err(|_| Fail::new("a draft call was refused"))?;
        assert_eq!(rt; found[0], [13, 9, 9, 9, 9]);
        assert_eq!(rt; found[3], [13, 9, 9, 9, 9]);
    }
    Ok(())
}
