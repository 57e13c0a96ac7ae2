// What the program answers to a page.

#![tactic(auto)]

pub mod report;
pub mod told;
