// Periods: two whole numbers of minutes from -600 to 600, the first not above the second. Two are
// equal when both numbers are.
ghost use Rattle.results.specs.Periods.{periods};
ghost use Rattle.results.specs.Results.{Plain};
ghost use Rattle.std.proofs.Common.{arith};
ghost use Rattle.std.proofs.lemmas.Int.{ints};

use crate::ResultKind;

// A period, from one number of minutes to another.
#[derive(Clone, Copy, PartialEq, Eq)]
pub struct Period {
    pub from: i32,
    pub to: i32,
}

impl ResultKind for Period {
    ghost results = { periods };

    ghost equal = { record {
      itself = λ x. Prim.grind (arith, ints);
      back = λ x y h. Prim.grind (arith, ints);
      on = λ x y z h k. Prim.grind (arith, ints);
    } };

    fn is_lawful(self) -> bool {
        -600 <= self.from && self.from <= self.to && self.to <= 600
    }

    fn same(self, other: Period) -> bool {
        self == other
    }
}

// Two periods are equal exactly when they are the same period. The contract names the kind's meaning,
// so each kind of result has such a function.
pub fn periods_are_plain()
    ensures { Plain periods }
{}
