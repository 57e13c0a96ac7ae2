// What a row reads of an encounter, and whether an entry holds there.
ghost use Rattle.std.specs.Prelude.{◌≡◌};
ghost use Rattle.lists.specs.Held.{encounter_of};
ghost use Rattle.tables.specs.Outcomes.{entry_holds, holds_for, test as test_of};

use items::{Entry, Mode, Row, Side};
use kinds::Kind;
use lists::lent::Encounter;

// Does the cell hold for the value, if there is one?
fn holds_for<K: Kind>(cell: K::Cell, value: Option<K::Value>) -> bool
    ensures { result ≡ holds_for K.Kind.meaning cell value }
{
    value.is_some_and(|v| K::holds(cell, v))
}

// Does the cell hold for a quantity, in a mode?
fn test<K: Kind>(mode: Mode, cell: K::Cell, quantity: usize, e: &Encounter<'_, K::Value>) -> bool
    ensures { result ≡ test_of K.Kind.meaning mode cell quantity (encounter_of e.now) }
{
    match mode {
        Mode::A => holds_for::<K>(cell, e.value(Side::OfA, quantity)),
        Mode::B => holds_for::<K>(cell, e.value(Side::OfB, quantity)),
        Mode::Both => {
            holds_for::<K>(cell, e.value(Side::OfA, quantity))
                && holds_for::<K>(cell, e.value(Side::OfB, quantity))
        }
        Mode::Either => {
            holds_for::<K>(cell, e.value(Side::OfA, quantity))
                || holds_for::<K>(cell, e.value(Side::OfB, quantity))
        }
        Mode::Pair => holds_for::<K>(cell, e.value(Side::OfPair, quantity)),
    }
}

// Does the entry hold in a row? Any always does.
pub(crate) fn entry_holds<K: Kind>(
    row: Row,
    cell: Entry<K::Cell>,
    e: &Encounter<'_, K::Value>,
) -> bool
    ensures { result ≡ entry_holds K.Kind.meaning row cell (encounter_of e.now) }
{
    match cell {
        Entry::Any => true,
        Entry::Cell(cell) => test::<K>(row.mode, cell, row.quantity, e),
    }
}
