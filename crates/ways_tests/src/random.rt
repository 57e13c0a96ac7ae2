// Sheets made at random, small enough to be gone through one by one.
ghost use Rattle.std.specs.Prelude.{◌≤◌};

use faults::SheetFault;
use house::{Cell, House, Value, band_cell, measure_value, name_value, names_cell};
use items::{Entry, Mode, Quantity, Row, Scope};
use lists::lent::Lists;
use measure::Band;
use names::NameSet;
use results::figure::Figure;
use sheet::states::Draft;

// Numbers that look random, from a seed that is not 0.
#[derive(Clone, Copy)]
pub struct Random {
    state: u64,
}

impl Random {
    // Numbers from a seed.
    pub fn new(seed: u64) -> Random {
        Random { state: seed | 1 }
    }

    // A number below n, or 0 where n is 0.
    pub fn below(&mut self, n: u32) -> u32
        ensures { result ≤ n }
    {
        let mut x = self.state;
        x ^= x.wrapping_shl(13);
        x ^= x >> 7;
        x ^= x.wrapping_shl(17);
        self.state = x;
        ((x >> 33) % u64::from(n.max(1))) as u32
    }

    fn happens(&mut self, of: u32) -> bool {
        self.below(of) == 0
    }
}

type PageLists<'a> = Lists<'a, House, Figure>;

// Three quantities: a measure of each flight, a name of each flight and a measure of the pair.
fn quantities() -> [Quantity<Value>; 3] {
    [
        Quantity {
            scope: Scope::Flight,
            least: measure_value(0),
            greatest: measure_value(9),
        },
        Quantity {
            scope: Scope::Flight,
            least: name_value(0),
            greatest: name_value(3),
        },
        Quantity {
            scope: Scope::Pair,
            least: measure_value(-5),
            greatest: measure_value(5),
        },
    ]
}

// A mode for the quantities of a flight.
fn mode(random: &mut Random) -> Mode {
    match random.below(5) {
        0 => Mode::A,
        1 => Mode::B,
        2 => Mode::Either,
        _ => Mode::Both,
    }
}

fn row(random: &mut Random) -> Row {
    match random.below(3) {
        2 => Row {
            quantity: 2,
            mode: Mode::Pair,
        },
        k => Row {
            quantity: k as usize,
            mode: mode(random),
        },
    }
}

// A band of measures from lo on.
fn band(random: &mut Random, lo: i32) -> Cell {
    band_cell(Band {
        lo,
        hi: lo.saturating_add(random.below(9) as i32),
        inside: !random.happens(4),
    })
}

// A cell for the quantity that a row reads.
fn cell(random: &mut Random, quantity: usize) -> Cell {
    match quantity {
        0 => {
            let lo = random.below(10) as i32;
            band(random, lo)
        }
        1 => names_cell(NameSet {
            bits: random.below(15) + 1,
        }),
        _ => {
            let lo = random.below(11) as i32 - 5;
            band(random, lo)
        }
    }
}

// Cells in some of the rows of a column.
fn write_cells(
    random: &mut Random,
    draft: &mut Draft,
    lists: &mut PageLists<'_>,
    column: usize,
    rows: &[Row],
) -> Result<(), SheetFault> {
    for (i, row) in rows.iter().enumerate() {
        if !random.happens(3) {
            let cell = cell(random, row.quantity);
            draft.set_cell(lists, i, column, Entry::Cell(cell))?;
        }
    }
    Ok(())
}

// The rows of a sheet.
fn write_rows(
    random: &mut Random,
    draft: &mut Draft,
    lists: &mut PageLists<'_>,
    rows: &mut [Row],
) -> Result<(), SheetFault> {
    for place in rows {
        *place = row(random);
        draft.add_row(lists, *place)?;
    }
    Ok(())
}

fn write_columns(
    random: &mut Random,
    draft: &mut Draft,
    lists: &mut PageLists<'_>,
    rows: &[Row],
) -> Result<(), SheetFault> {
    for j in 0..random.below(6) as usize {
        let value = random.below(3) as i32 / 2;
        draft.add_column(lists, Figure { value })?;
        write_cells(random, draft, lists, j, rows)?;
    }
    Ok(())
}

fn write_nevers(
    random: &mut Random,
    draft: &mut Draft,
    lists: &mut PageLists<'_>,
    rows: &[Row],
) -> Result<(), SheetFault> {
    for j in 0..random.below(3) as usize {
        draft.add_never(lists)?;
        write_cells(random, draft, lists, 16 + j, rows)?;
    }
    Ok(())
}

// A sheet of at most four rows, five columns and two nevers, with a default three times of four.
pub fn write_sheet(
    random: &mut Random,
    draft: &mut Draft,
    lists: &mut PageLists<'_>,
) -> Result<(), SheetFault> {
    for quantity in quantities() {
        draft.name_quantity(lists, quantity)?;
    }
    let mut rows = [Row {
        quantity: 0,
        mode: Mode::A,
    }; 5];
    let n = 1 + random.below(4) as usize;
    let rows = &mut rows[..n];
    write_rows(random, draft, lists, rows)?;
    write_columns(random, draft, lists, rows)?;
    write_nevers(random, draft, lists, rows)?;
    if !random.happens(4) {
        draft.set_default(lists, Figure { value: 0 })?;
    }
    Ok(())
}
