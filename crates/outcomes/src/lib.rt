// What a sheet says of an encounter.

#![tactic(auto)]

pub mod judge;
pub mod outcome;
mod row;
