// By how much two flights keep their minima.

#![tactic(auto)]

pub mod margin;
