// What the lines of a page say. A byte is the place in its line, from 1, at which a field starts:
// what a refusal of that field tells.
use house::{Cell, Value};
use items::{Entry, Quantity, Row};

// The word for a kind of condition.
#[derive(Clone, Copy)]
pub enum KindWord {
    Measure,
    Names,
    Clock,
}

// The first word of a line.
#[derive(Clone, Copy)]
pub enum Word {
    Flight,
    Pair,
    Row,
    Column,
    Never,
    Default,
    End,
}

// Which lines may still come: those of this section and of later ones.
#[derive(Clone, Copy)]
pub enum Section {
    Quantities,
    Rows,
    Columns,
    Nevers,
    Ends,
}

// What a line `flight ..` or `pair ..` says.
#[derive(Clone, Copy)]
pub struct QuantityLine {
    pub quantity: Quantity<Value>,
    pub least_byte: usize,
}

// What a line `row ..` says.
#[derive(Clone, Copy)]
pub struct RowLine {
    pub row: Row,
    pub quantity_byte: usize,
    pub mode_byte: usize,
}

// An entry of a line `column ..` or `never ..`, with its place.
#[derive(Clone, Copy)]
pub struct Placed {
    pub entry: Entry<Cell>,
    pub byte: usize,
}
