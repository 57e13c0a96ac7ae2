// Sets of columns, one bit each: bit j is column j, and bit 16 + n is never n. Issue goes through the
// encounters made of starts by such sets, and reads no entry again for each of them.

#![tactic(auto)]

use items::Scope;

// The columns and nevers that an encounter meets, and those that it meets with the flights exchanged.
#[derive(Clone, Copy, PartialEq, Eq)]
pub struct Met {
    pub here: u32,
    pub exchanged: u32,
}

// A start of a quantity, and where entries hold for it in the rows that read the quantity: `of_a` has
// the columns whose entries all hold in rows of mode A, both and pair, `of_b` likewise in rows of mode B,
// both and pair; of each row of mode either, in order, `either` has the columns whose entry holds.
#[derive(Clone, Copy)]
pub struct Mark<V> {
    pub value: V,
    pub of_a: u32,
    pub of_b: u32,
    // as many as there are rows of mode either that read the quantity
    pub eithers: usize,
    pub either: [u32; 16],
}

// Where the marks of a quantity lie in a list of marks: from one place up to another.
#[derive(Clone, Copy)]
pub struct Span {
    pub scope: Scope,
    pub quantity: usize,
    pub from: usize,
    pub to: usize,
}
