// Names: the numbers 0 to 31. A cell is a set of them that is not empty. It has a stop at each
// number above 0 of which just one, it or the number before it, is in the set.
//
// Every u32 can be asked about; one above 31 is no name and in no set.

#![tactic(auto)]

ghost use Rattle.std.specs.Prelude.{◌≡◌, ◌+◌, ◌-◌, ◌<◌};
ghost use Rattle.std.proofs.Common.{ap, ◌∙◌, arith};
ghost use Rattle.names.specs.NameSets.{names, has, turns, first_from};
ghost use Rattle.std.proofs.lemmas.Bool.Decides.{nat_tests};
ghost use Rattle.names.specs.Runs.{first_range, first-misses, same-run};
ghost use Rattle.names.specs.NamesKindLemmas.{plain};

use kinds::Kind;

// How many names there are.
pub const NAMES: u32 = 32;

// A set of names: name n is in it where bit n is 1.
#[derive(Clone, Copy)]
pub struct NameSet {
    pub bits: u32,
}

// The kind of names.
#[derive(Clone, Copy)]
pub struct Names;

impl NameSet {
    // Is the name in the set?
    pub fn contains(self, name: u32) -> bool
        ensures { result ≡ has self name }
    {
        name < NAMES && (self.bits >> name) % 2 == 1
    }

    // Is just one of a name and the one before it in the set?
    fn turns_at(self, name: u32) -> bool
        requires { 0 < name }
        ensures { result ≡ turns self name }
    {
        self.contains(name) != self.contains(name - 1)
    }
}

impl Kind for Names {
    type Value = u32;

    type Cell = NameSet;

    ghost meaning = { names };

    ghost lawful = { record {
      bounded = λ v. omega arith;
      distinct = λ v w p q e. Prim.grind (arith, nat_tests);
      ordered = λ a z r. Prim.grind (arith, nat_tests);
      between = λ a z v r p q. Prim.grind (arith, nat_tests);
      later = λ c v s e. let r = first_range (turns c) (v + 1) (31 - v) s e in (omega arith, Prim.grind (arith, nat_tests));
      steady = λ c a z v w r f p q k h.
          let z< : z < 32 = Prim.grind (arith, nat_tests) in
          let w≡ : v + (w - v) ≡ w = omega arith in
          same-run (has c) v (w - v) (λ j i l. first-misses (turns c) (v + 1) (31 - v) w (plain w (first_from (turns c) (v + 1) (31 - v)) h) j (omega arith) (omega arith) (omega arith)) ∙ ap (has c) w≡;
    } };

    fn at_or_before(a: u32, b: u32) -> bool {
        a <= b
    }

    fn is_range(least: u32, greatest: u32) -> bool {
        least < NAMES && greatest < NAMES && least <= greatest
    }

    fn fits(cell: NameSet, _least: u32, _greatest: u32) -> bool {
        cell.bits != 0
    }

    fn holds(cell: NameSet, value: u32) -> bool {
        cell.contains(value)
    }

    fn next_stop(cell: NameSet, after: u32) -> Option<u32> {
        (after.saturating_add(1)..NAMES).find(|w| cell.turns_at(*w))
    }
}
