// What a sheet says of encounters, told from the sets of columns and nevers that they meet.

#![tactic(auto)]

pub mod bits;
pub mod judge;
pub mod met;
pub mod sought;
mod unlike;
