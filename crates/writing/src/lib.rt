// Writing a draft as a page into a buffer that the caller lends.

#![tactic(auto)]

mod gathering;
mod sections;
mod set_bits;
pub mod writing;
