// Looking an encounter up in a sheet: its questions in their order, and the result.

#![tactic(auto)]

pub mod answer;
pub mod range;
