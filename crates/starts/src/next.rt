// The start after a value: the earliest stop after it, over all cells in rows that read the
// quantity, up to its greatest value.
//
// A view and a column or a quantity's number are two parameters: a struct of both would be made at each call.
ghost use Rattle.std.specs.Prelude.{◌≡◌, ◌<◌, ◌≤◌, ◌==◌};
ghost use Rattle.lists.specs.Held.{seen};
ghost use Rattle.starts.specs.Stops.{cells_from, stop_of};
ghost use Rattle.tables.specs.Starts.{cells_of, earliest, next, reading};
ghost use Rattle.tables.specs.Storage.{column_of};

use items::{Entry, Row};
use kinds::{Kind, earlier_stop};
use lists::view::View;
use results::ResultKind;

// Does the row read the quantity?
fn reads(row: Row, quantity: usize) -> bool
    ensures { result ≡ (row.quantity == quantity) }
{
    row.quantity == quantity
}

// The next stop of an entry. Any has none.
fn entry_stop<K: Kind>(entry: Entry<K::Cell>, after: K::Value) -> Option<K::Value>
    ensures { result ≡ stop_of K.Kind.meaning «entry» after }
{
    match entry {
        Entry::Any => None,
        Entry::Cell(cell) => K::next_stop(cell, after),
    }
}

// The earliest stop of a column's cells in rows that read the quantity. Never n is column 16 + n. All
// its callers ask below 24, and `View::column` takes every number.
fn column_stop<K: Kind, R: ResultKind>(
    view: &View<'_, K, R>,
    column: usize,
    quantity: usize,
    after: K::Value,
) -> Option<K::Value>
    requires { column < 24 }
    ensures { result ≡ earliest K.Kind.meaning (reading quantity (seen view.now).rows (column_of view.now.entries.now view.now.counts.rows column)) after }
{
    view.column(column)
        .filter(|(row, _)| reads(*row, quantity))
        .fold(
            None,
            |stop, (_, entry)| earlier_stop::<K>(stop, entry_stop::<K>(entry, after)),
        )
}

// The earliest stop over the columns from one to another.
fn columns_stop<K: Kind, R: ResultKind>(
    view: &View<'_, K, R>,
    from: usize,
    to: usize,
    quantity: usize,
    after: K::Value,
) -> Option<K::Value>
    requires { to ≤ 24 }
    ensures { result ≡ earliest K.Kind.meaning (cells_from view.now quantity from to) after }
{
    (from..to).fold(None, |stop, j| {
        earlier_stop::<K>(stop, column_stop(view, j, quantity, after))
    })
}

// The earliest stop over all columns and nevers.
fn earliest_stop<K: Kind, R: ResultKind>(
    view: &View<'_, K, R>,
    quantity: usize,
    after: K::Value,
) -> Option<K::Value>
    ensures { result ≡ earliest K.Kind.meaning (cells_of (seen view.now) quantity) after }
{
    let columns = columns_stop(view, 0, view.counts.columns, quantity, after);
    let nevers = columns_stop(view, 16, 16 + view.counts.nevers, quantity, after);
    earlier_stop::<K>(columns, nevers)
}

// The start after a value, unless it would lie after the greatest one.
pub fn next_start<K: Kind, R: ResultKind>(
    view: &View<'_, K, R>,
    quantity: usize,
    greatest: K::Value,
    after: K::Value,
) -> Option<K::Value>
    ensures { result ≡ next K.Kind.meaning (cells_of (seen view.now) quantity) greatest after }
{
    earliest_stop(view, quantity, after).filter(|stop| K::at_or_before(*stop, greatest))
}
