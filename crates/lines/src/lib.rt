// Reading the lines of a page: the fields of a line in turn, and what each kind of line says.

#![tactic(auto)]

pub mod cursor;
pub mod fields;
pub mod lines;
pub mod pages;
pub mod reader;
