// Figures: whole numbers from -1,000,000 to 1,000,000. Two are equal when the numbers are.
ghost use Rattle.results.specs.Figures.{figures};
ghost use Rattle.results.specs.Results.{Plain};
ghost use Rattle.std.proofs.Common.{rules};

use crate::ResultKind;

// A result that is one number, such as a minimum in feet.
#[derive(Clone, Copy, PartialEq, Eq)]
pub struct Figure {
    pub value: i32,
}

impl ResultKind for Figure {
    ghost results = { figures };

    ghost equal = { Prim.search rules };

    fn is_lawful(self) -> bool {
        -1_000_000 <= self.value && self.value <= 1_000_000
    }

    fn same(self, other: Figure) -> bool {
        self == other
    }
}

// Two figures are equal exactly when they are the same figure. The contract names the kind's meaning,
// so each kind of result has such a function.
pub fn figures_are_plain()
    ensures { Plain figures }
{}
