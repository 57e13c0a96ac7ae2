// The values of an encounter.
ghost use Rattle.std.specs.Prelude.{◌≡◌};
ghost use Rattle.items.specs.declared.Side.TheVariants.{OfA, OfB};
ghost use Rattle.lists.specs.Held.{SameShowing, encounter_of, shown};
ghost use Rattle.tables.specs.Contents.{put as put_of, value_at, whole};

use crate::lent::{Encounter, Showing};
use crate::places::put;
use items::Side;

impl<'a, V> Encounter<'a, V> {
    // The same encounter with the flights exchanged.
    pub fn exchanged(&self) -> Encounter<'a, V>
        ensures { encounter_of result ≡ record { a = self.now.b.now; b = self.now.a.now; pair = self.now.pair.now } }
    {
        Encounter {
            a: self.b,
            b: self.a,
            pair: self.pair,
        }
    }

    // Are the three lists of right length?
    pub fn is_whole(&self) -> bool
        ensures { result ≡ whole (encounter_of self.now) }
    {
        self.a.len() == 16 && self.b.len() == 16 && self.pair.len() == 16
    }
}

impl<'a, V: Copy> Encounter<'a, V> {
    // The value of a quantity in one of the lists, if there is one.
    pub fn value(&self, side: Side, quantity: usize) -> Option<V>
        ensures { result ≡ value_at (encounter_of self.now) side quantity }
    {
        let values = match side {
            Side::OfA => self.a,
            Side::OfB => self.b,
            Side::OfPair => self.pair,
        };
        values.get(quantity).copied()
    }
}

impl<'a, V> Showing<'a, V> {
    // The encounter that is shown.
    pub fn encounter(&self) -> Encounter<'_, V>
        ensures { encounter_of result ≡ shown self.now }
    {
        Encounter {
            a: self.a,
            b: self.b,
            pair: self.pair,
        }
    }
}

impl<'a, V: Copy> Showing<'a, V> {
    // Puts the value of a quantity into one of the lists, where there is a place for it.
    pub fn put(&mut self, side: Side, quantity: usize, value: V)
        ensures after { shown self.new ≡ put_of side quantity value (shown self.old) }
        ensures lent { SameShowing self.old self.new }
    {
        match side {
            Side::OfA => put(self.a, quantity, value),
            Side::OfB => put(self.b, quantity, value),
            Side::OfPair => put(self.pair, quantity, value),
        }
    }

    // Puts a value into A's list and into B's.
    pub fn put_both(&mut self, quantity: usize, value: V)
        ensures after { shown self.new ≡ put_of OfB quantity value (put_of OfA quantity value (shown self.old)) }
        ensures lent { SameShowing self.old self.new }
    {
        self.put(Side::OfA, quantity, value);
        self.put(Side::OfB, quantity, value);
    }
}
