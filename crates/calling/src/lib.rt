// The calls of each kind of line.

#![tactic(auto)]

pub mod calls;
