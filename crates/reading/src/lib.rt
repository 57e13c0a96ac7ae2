// Reading a page: its lines in turn, each with its draft calls, down to the first refusal.

#![tactic(auto)]

pub mod reading;
