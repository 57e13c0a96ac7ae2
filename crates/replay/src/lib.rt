#![tactic(auto)]

pub mod playing;
pub mod script;
pub mod state;
mod steps;
