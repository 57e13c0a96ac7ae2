// The draft calls that the lines of a page ask for.

#![tactic(auto)]

pub mod asked;
pub mod asking;
