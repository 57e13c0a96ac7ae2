// The marks of the starts of a sheet: for each start of a quantity, the columns whose entries hold for
// it. Issue makes them once, and then reads no entry again.

#![tactic(auto)]

pub mod counting;
pub mod filling;
pub mod marking;
mod row;
