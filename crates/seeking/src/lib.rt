// The earliest encounter made of starts that has a fault.

#![tactic(auto)]

pub mod marked;
pub mod one_by_one;
pub mod seek;
