// The way through the encounters made of starts, by sets of columns.

#![tactic(auto)]

pub mod narrow;
pub mod pairs;
pub mod walk;
