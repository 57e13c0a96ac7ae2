// Two flights at a common point: where they are, within which limits, and what a probe finds.

#![tactic(auto)]

pub mod fix;
pub mod verdict;
