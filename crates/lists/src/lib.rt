// The lists that hold a sheet, and the first question of every call: are they of right length,
// and is each entry in use one that the draft calls would accept?

#![tactic(auto)]

pub mod encounter;
pub mod first_question;
pub mod in_use;
pub mod lent;
pub mod places;
pub mod view;
