// Going through the encounters made of starts one by one, in the caller's lists: the first needed
// value turns slowest, the last one fastest. Values that no quantity needs are left alone.
//
// A quantity and its number are two parameters, as `enumerate` gives them.
ghost use Rattle.std.specs.Prelude.{◌≡◌, [], ◌∷◌};
ghost use Rattle.lists.specs.Held.{SameShowing, encounter_of, seen, shown};
ghost use Rattle.turning.specs.Turning.{at_least, places_of};
ghost use Rattle.tables.specs.Contents.{places, value_at};
ghost use Rattle.tables.specs.Starts.{next_at, reset as reset_of, turned};

use items::{Quantity, Scope, Side};
use kinds::Kind;
use lists::lent::{Encounter, Showing};
use lists::view::View;
use results::ResultKind;
use starts::next::next_start;

// Puts the quantity's least value into the lists that it needs. A `match` on the scope here and below,
// since each function that has one does another thing with it.
fn reset_quantity<V: Copy>(i: usize, q: Quantity<V>, at: &mut Showing<'_, V>)
    ensures after { shown at.new ≡ at_least i q.least q.scope (shown at.old) }
    ensures lent { SameShowing at.old at.new }
{
    match q.scope {
        Scope::Flight => at.put_both(i, q.least),
        Scope::Pair => at.put(Side::OfPair, i, q.least),
    }
}

// Puts every needed value to its least.
pub fn reset<K: Kind, R: ResultKind>(view: &View<'_, K, R>, at: &mut Showing<'_, K::Value>)
    ensures after { shown at.new ≡ reset_of K.Kind.meaning (seen view.now) (places (seen view.now)) (shown at.old) }
    ensures lent { SameShowing at.old at.new }
{
    for (i, q) in view.quantities_in_use().iter().enumerate() {
        reset_quantity(i, *q, at);
    }
}

// The start after the value of one side, if there is a value.
fn next_at<K: Kind, R: ResultKind>(
    view: &View<'_, K, R>,
    side: Side,
    i: usize,
    q: Quantity<K::Value>,
    e: &Encounter<'_, K::Value>,
) -> Option<K::Value>
    ensures { result ≡ next_at K.Kind.meaning (seen view.now) (record { side = side; number = i; quantity = q }) (value_at (encounter_of e.now) side i) }
{
    next_start(view, i, q.greatest, e.value(side, i)?)
}

// Moves one value on to its next start, or back to its least: did it move on?
fn turn_value<K: Kind, R: ResultKind>(
    view: &View<'_, K, R>,
    side: Side,
    i: usize,
    q: Quantity<K::Value>,
    at: &mut Showing<'_, K::Value>,
) -> bool
    ensures after { (result, shown at.new) ≡ turned K.Kind.meaning (seen view.now) (record { side = side; number = i; quantity = q } ∷ []) (shown at.old) }
    ensures lent { SameShowing at.old at.new }
{
    let next = next_at(view, side, i, q, &at.encounter());
    at.put(side, i, next.unwrap_or(q.least));
    next.is_some()
}

// Turns the values of one quantity, B's before A's.
fn turn_quantity<K: Kind, R: ResultKind>(
    view: &View<'_, K, R>,
    i: usize,
    q: Quantity<K::Value>,
    at: &mut Showing<'_, K::Value>,
) -> bool
    ensures after { (result, shown at.new) ≡ turned K.Kind.meaning (seen view.now) (places_of i q q.scope) (shown at.old) }
    ensures lent { SameShowing at.old at.new }
{
    match q.scope {
        Scope::Flight => {
            turn_value(view, Side::OfB, i, q, at) || turn_value(view, Side::OfA, i, q, at)
        }
        Scope::Pair => turn_value(view, Side::OfPair, i, q, at),
    }
}

// Goes on to the next encounter made of starts; after the last one, back to the first and false.
pub fn turn<K: Kind, R: ResultKind>(view: &View<'_, K, R>, at: &mut Showing<'_, K::Value>) -> bool
    ensures after { (result, shown at.new) ≡ turned K.Kind.meaning (seen view.now) (places (seen view.now)) (shown at.old) }
    ensures lent { SameShowing at.old at.new }
{
    // tried with `any`, its closure with and without clauses of its own, and with a `fold` that carries
    // the lists; after each it stayed open what the lists show
    for (i, q) in view.quantities_in_use().iter().enumerate().rev() {
        if turn_quantity(view, i, *q, at) {
            return true;
        }
    }
    false
}
