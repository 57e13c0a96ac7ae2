// What reading a page and writing one mean, and that each undoes the other.
//
// The definitions are in specs/: Reads and Writes. The function below stands for a theorem: its
// contract is the statement, and it computes nothing.

#![tactic(auto)]

ghost use Rattle.pages.specs.ThereAndBack.{ThereAndBack};

// A page that was read is written back byte for byte, and one that was written reads back to the
// same contents.
pub fn there_and_back()
    ensures { ThereAndBack }
{}
