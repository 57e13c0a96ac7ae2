// The text of a page: what its lines say, what each text means, and that writing and reading agree.

#![tactic(auto)]

pub mod promises;
pub mod types;
