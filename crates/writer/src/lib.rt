// Writing the lines of a page into a buffer that the caller lends.

#![tactic(auto)]

pub mod buffer;
pub mod fields;
pub mod lines;
mod words;
