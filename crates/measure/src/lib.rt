// Measures: whole numbers from -1,000,000 to 1,000,000. A cell is a band from lo to hi, both
// included, and means inside or outside of it. Its stops are lo and the number after hi.
//
// Every i32 can be asked about; one beyond the limits is no value, and no band's end.

#![tactic(auto)]

ghost use Rattle.std.specs.Prelude.{◌≡◌, not, pos, ◌+ℤ◌, if◌then◌else◌};
ghost use Rattle.std.proofs.Common.{ap, arith};
ghost use Rattle.kinds.specs.Meaning.{earlier, later};
ghost use Rattle.measure.specs.Measures.{measure, measure_rank, is_measure};
ghost use Rattle.std.proofs.lemmas.Int.{ints};
ghost use Rattle.kinds.proofs.Earliest.{two-later, two-before};
ghost use Rattle.measure.specs.MeasureKindLemmas.{same-within};

use kinds::{Kind, earlier_by};

// The greatest measure; the least is minus it.
pub const LIMIT: i32 = 1_000_000;

// From lo to hi, both included: inside it or outside.
#[derive(Clone, Copy)]
pub struct Band {
    pub lo: i32,
    pub hi: i32,
    pub inside: bool,
}

// The kind of measures.
#[derive(Clone, Copy)]
pub struct Measure;

// Is it within the limits?
fn is_measure(z: i32) -> bool
    ensures { result ≡ is_measure z }
{
    -LIMIT <= z && z <= LIMIT
}

// The number z, if it is a measure and after another.
// One function for all kinds, passed their order and test, would make each call longer than this body.
fn measure_after(after: i32, z: i32) -> Option<i32>
    ensures { result ≡ later measure_rank is_measure after z }
{
    (after < z && is_measure(z)).then_some(z)
}

// The number after z, if it is a measure and after another.
fn measure_past(after: i32, z: i32) -> Option<i32>
    ensures { result ≡ later measure_rank is_measure after (z +ℤ pos 1) }
{
    measure_after(after, z.saturating_add(1))
}

impl Kind for Measure {
    type Value = i32;

    type Cell = Band;

    ghost meaning = { measure };

    ghost lawful = { record {
      bounded = λ v. omega arith;
      distinct = λ v w p q e. Prim.grind (arith, ints);
      ordered = λ a z r. Prim.grind (arith, ints);
      between = λ a z v r p q. Prim.grind (arith, ints);
      later = λ c v s e. two-later measure_rank is_measure v c.lo (c.hi +ℤ pos 1) s e;
      steady = λ c a z v w r f p q k h.
          ap (λ t. (if c.inside then t else not t)) (same-within c v w (Prim.grind (arith, ints)) (Prim.grind (arith, ints)) (Prim.grind (arith, ints)) (Prim.grind (arith, ints)) q
          (two-before measure_rank is_measure v w c.lo (c.hi +ℤ pos 1) h));
    } };

    fn at_or_before(a: i32, b: i32) -> bool {
        a <= b
    }

    fn is_range(least: i32, greatest: i32) -> bool {
        is_measure(least) && is_measure(greatest) && least <= greatest
    }

    fn fits(cell: Band, _least: i32, _greatest: i32) -> bool {
        is_measure(cell.lo) && is_measure(cell.hi) && cell.lo <= cell.hi
    }

    fn holds(cell: Band, value: i32) -> bool {
        (cell.lo <= value && value <= cell.hi) == cell.inside
    }

    fn next_stop(cell: Band, after: i32) -> Option<i32> {
        earlier_by(
            measure_after(after, cell.lo),
            measure_past(after, cell.hi),
            |x, y| x <= y,
        )
    }
}
