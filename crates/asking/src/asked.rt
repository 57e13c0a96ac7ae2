// A draft call that a line asks for.
use edits::edit::Edit;
use house::{Cell, Value};
use results::figure::Figure;

// The fields of a line that a refusal of its call may find wrong, by the bytes at which they start.
#[derive(Clone, Copy)]
pub enum Wrong {
    Nowhere,
    // The least value of a range.
    Range(usize),
    // The number of a row's quantity, and its mode.
    Row { quantity: usize, mode: usize },
    Figure(usize),
    Entry(usize),
}

// The call, and which of the line's fields its refusal may find wrong.
#[derive(Clone, Copy)]
pub struct Asked {
    pub edit: Edit<Value, Cell, Figure>,
    pub wrong: Wrong,
}
