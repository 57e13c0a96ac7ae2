// The probe: two flights compared by four issued sheets.

#![tactic(auto)]

pub mod fault;
pub mod minima;
pub mod probing;
