// Is every needed value in range?
ghost use Rattle.std.specs.Prelude.{◌≡◌};
ghost use Rattle.lists.specs.Held.{encounter_of, seen};
ghost use Rattle.lookups.specs.Steps.{asked_at, asked_from, asked_of};
ghost use Rattle.tables.specs.Contents.{within};

use faults::LookupFault;
use items::{Quantity, Scope, Side};
use kinds::Kind;
use lists::lent::Encounter;
use lists::view::View;
use results::ResultKind;

// Is there a value, and is it in the quantity's range?
fn is_within<K: Kind>(quantity: Quantity<K::Value>, value: Option<K::Value>) -> bool
    ensures { result ≡ within K.Kind.meaning quantity value }
{
    value.is_some_and(|v| K::at_or_before(quantity.least, v)
        && K::at_or_before(v, quantity.greatest))
}

// Asks the value of a quantity in one of the lists.
// `side` and `quantity` stay two parameters: `value` and `OutOfRange` name the two, so a pair would be taken apart.
// An `if`, since `then_some(()).ok_or(..)` would build an answer to throw it away.
fn ask<K: Kind>(
    q: Quantity<K::Value>,
    side: Side,
    quantity: usize,
    e: &Encounter<'_, K::Value>,
) -> Result<(), LookupFault>
    ensures { result ≡ asked_at K.Kind.meaning (encounter_of e.now) q side quantity }
{
    if is_within::<K>(q, e.value(side, quantity)) {
        Ok(())
    } else {
        Err(LookupFault::OutOfRange { side, quantity })
    }
}

// Asks the values of a quantity, A's before B's. Five functions match a scope, and each does another
// thing with it: a list of sides to go through would hide that the order is the rule.
fn ask_flights<K: Kind>(
    q: Quantity<K::Value>,
    quantity: usize,
    e: &Encounter<'_, K::Value>,
) -> Result<(), LookupFault>
    ensures { result ≡ asked_of K.Kind.meaning (encounter_of e.now) q quantity }
{
    match q.scope {
        Scope::Flight => {
            ask::<K>(q, Side::OfA, quantity, e)?;
            ask::<K>(q, Side::OfB, quantity, e)
        }
        Scope::Pair => ask::<K>(q, Side::OfPair, quantity, e),
    }
}

// Asks every needed value, the lowest quantity first.
pub fn ask_all<K: Kind, R: ResultKind>(
    view: &View<'_, K, R>,
    e: &Encounter<'_, K::Value>,
) -> Result<(), LookupFault>
    ensures { result ≡ asked_from K.Kind.meaning (encounter_of e.now) 0 (seen view.now).quantities }
{
    for (i, q) in view.quantities_in_use().iter().enumerate() {
        ask_flights::<K>(*q, i, e)?;
    }
    Ok(())
}
