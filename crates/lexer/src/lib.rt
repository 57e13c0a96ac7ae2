// Reading a page's text: words, numbers and cells, each of which is one field of a line.

#![tactic(auto)]

pub mod cells;
pub mod numbers;
pub mod parts;
pub mod words;
