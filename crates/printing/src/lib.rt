// What the program prints: values as on a page, and the lines of its answer.

#![tactic(auto)]

pub mod lines;
pub mod values;
