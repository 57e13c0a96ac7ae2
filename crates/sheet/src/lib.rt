// A sheet: a decision table over two flights, as a draft that its calls write, and as an issued
// sheet that can be looked up. Both are plain numbers; what they count lies in the caller's lists.

#![tactic(auto)]

pub mod draft_calls;
pub mod issuing;
pub mod looking;
pub mod states;
pub mod withdrawing;
