// The way through the encounters made of starts.

#![tactic(auto)]

pub mod odometer;
