// The starts of a quantity, and how many encounters are made of them.

#![tactic(auto)]

pub mod count;
pub mod next;
