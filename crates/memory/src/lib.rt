// Memory for a sheet and for an encounter: the lists themselves, to be lent to the calls. Arrays and no
// `Vec`: nothing is on the heap but the program's answer.

#![tactic(auto)]

pub mod encounter;
pub mod sheet;
