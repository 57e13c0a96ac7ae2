// The edits of a draft: what each asks of the sheet, and what it writes.

#![tactic(auto)]

pub mod edit;
pub mod making;
mod questions;
mod writes;
