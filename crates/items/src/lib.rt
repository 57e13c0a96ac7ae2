// The items of a sheet.

#![tactic(auto)]

// Does each flight have a value of its own, or have both one together?
#[derive(Clone, Copy, PartialEq, Eq)]
pub enum Scope {
    Flight,
    Pair,
}

// Whose value it is: that of flight A, of flight B, or of the pair.
#[derive(Clone, Copy, PartialEq, Eq)]
pub enum Side {
    OfA,
    OfB,
    OfPair,
}

// What flights are told apart by: a value of its own for each flight, or one for the pair, from
// a least to a greatest.
#[derive(Clone, Copy)]
pub struct Quantity<V> {
    pub scope: Scope,
    pub least: V,
    pub greatest: V,
}

// How a row tests its quantity: A's value, B's, both, at least one of them, or the pair's.
#[derive(Clone, Copy, PartialEq, Eq)]
pub enum Mode {
    A,
    B,
    Both,
    Either,
    Pair,
}

// A row reads one quantity in a mode.
#[derive(Clone, Copy)]
pub struct Row {
    pub quantity: usize,
    pub mode: Mode,
}

// An entry of a column: a cell, or any, which always holds. `None` would read as no entry.
#[derive(Clone, Copy)]
pub enum Entry<C> {
    Any,
    Cell(C),
}

// How much of its four lists a sheet uses: so many quantities, rows, columns and nevers from the
// front of theirs, and whether it has a default result. No ghost field keeps them in bounds: the
// definitions reckon with all such counts, and `Draft`, `Issued` and `View` say it of theirs.
#[derive(Clone, Copy)]
pub struct Counts {
    pub quantities: usize,
    pub rows: usize,
    pub columns: usize,
    pub nevers: usize,
    pub default: bool,
}
