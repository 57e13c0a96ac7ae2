// The columns whose entry in a row holds for a value.
ghost use Rattle.std.specs.Prelude.{◌≡◌, ◌+◌, ◌*◌, ◌<◌, slice_index_or};
ghost use Rattle.marks.specs.Joins.{WithToo};
ghost use Rattle.items.specs.declared.Entry.TheVariants.{Any};
ghost use Rattle.sets.specs.Marks.{held};
ghost use Rattle.sets.specs.Sets.{Has};

use items::Entry;
use kinds::Kind;
use lists::view::View;
use results::ResultKind;

// Does the entry hold for the value? Any always does.
fn holds<K: Kind>(cell: Entry<K::Cell>, value: K::Value) -> bool
    ensures { result ≡ held K.Kind.meaning cell value }
{
    match cell {
        Entry::Any => true,
        Entry::Cell(cell) => K::holds(cell, value),
    }
}

// The set with a column too, if the column belongs there.
fn with(set: u32, column: usize, too: bool) -> u32
    requires { column < 24 }
    ensures { WithToo set column too result }
{
    set | u32::from(too) << column
}

// The columns and nevers whose entry in a row holds for the value.
pub(crate) fn row_set<K: Kind, R: ResultKind>(
    view: &View<'_, K, R>,
    row: usize,
    value: K::Value,
) -> u32
    requires { row < view.now.counts.rows }
    ensures { Has result (λ k. held K.Kind.meaning (slice_index_or view.now.entries.now (24 * row + k) Any) value) }
{
    let mut set = 0;
    for (k, entry) in view.entries[24 * row..24 * row + 24].iter().enumerate() {
        set = with(set, k, holds::<K>(*entry, value));
    }
    set
}
