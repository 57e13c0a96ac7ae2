// The values that a quantity can have in an encounter, A's beside B's.
ghost use Rattle.std.specs.Prelude.{◌≡◌, ◌<◌, length};

use items::Scope;
use sets::Mark;

// The pairs of a quantity's marks that are still to come, A's mark the slower one. A value of the
// pair stands beside itself.
#[derive(Drop)]
pub struct Pairs<'a, V> {
    scope: Scope,
    all: &'a [Mark<V>],
    // those of A, the first of them the one whose pairs come next
    of_a: &'a [Mark<V>],
    // those of B that come beside it
    of_b: &'a [Mark<V>],
    ghost some: { 0 < length of_a.now → 0 < length all.now },
    ghost beside: { 0 < length of_a.now → 0 < length of_b.now },
}

impl<'a, V> Pairs<'a, V> {
    ghost use Rattle.sets.specs.Walks.{pairs as pairs_of};
    ghost use Rattle.walking.specs.Ways.{pairs_left};

    // All pairs of the marks of a quantity.
    pub fn new(scope: Scope, all: &'a [Mark<V>]) -> Pairs<'a, V>
        ensures { pairs_left result ≡ pairs_of scope all.now }
    {
        Pairs {
            scope,
            all,
            of_a: all,
            of_b: all,
        }
    }
}

impl<'a, V> Iterator for Pairs<'a, V> {
    ghost use Rattle.std.specs.Iterator.{YieldsFirstBy, item_count};
    ghost use Rattle.walking.specs.Ways.{pairs_left};

    type Item = (&'a Mark<V>, &'a Mark<V>);

    ghost next_gives = { YieldsFirstBy (λ p. (p.0.now, p.1.now)) pairs_left };

    ghost remaining = { item_count pairs_left };

    fn next(&mut self) -> Option<(&'a Mark<V>, &'a Mark<V>)> {
        let (x, of_a) = self.of_a.split_first()?;
        if matches!(self.scope, Scope::Pair) {
            self.of_a = of_a;
            return Some((x, x));
        }
        let (y, of_b) = self.of_b.split_first()?;
        self.of_b = of_b;
        if of_b.is_empty() {
            self.of_a = of_a;
            self.of_b = self.all;
        }
        Some((x, y))
    }
}
