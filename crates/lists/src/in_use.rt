// The parts of a sheet's lists that are in use.
//
// A view and a number are two parameters: what the two make is the column, or the item.
ghost use Rattle.std.specs.Prelude.{◌≡◌, length, min, take, zip};
ghost use Rattle.lists.specs.Held.{seen};
ghost use Rattle.lists.specs.Rows.{rows_left};
ghost use Rattle.std.specs.Iterator.{YieldsFirst, at_most};
ghost use Rattle.tables.specs.Storage.{column_of};

use crate::view::{Column, View};
use items::{Entry, Quantity, Row};
use kinds::Kind;

impl<'a, K: Kind> Iterator for Column<'a, K> {
    type Item = (Row, Entry<K::Cell>);

    ghost next_gives = { YieldsFirst rows_left };

    ghost remaining = { λ s. at_most (length s.rows.now) };

    #[tactic(auto, using(crate::proofs::Rowwise::column_rest))]
    fn next(&mut self) -> Option<(Row, Entry<K::Cell>)> {
        let (row, rows) = self.rows.split_first()?;
        let (here, entries) = self.entries.split_at(24);
        self.rows = rows;
        self.entries = entries;
        Some((*row, here[self.column]))
    }
}

impl<'a, K: Kind, R> View<'a, K, R> {
    // The quantities in use.
    pub fn quantities_in_use(&self) -> &'a [Quantity<K::Value>]
        ensures { result.now ≡ (seen self.now).quantities }
    {
        &self.quantities[..self.counts.quantities]
    }

    // The rows in use.
    pub fn rows_in_use(&self) -> &'a [Row]
        ensures { result.now ≡ (seen self.now).rows }
    {
        &self.rows[..self.counts.rows]
    }

    // The results of the columns in use.
    pub fn results_in_use(&self) -> &'a [R]
        ensures { result.now ≡ take self.now.counts.columns self.now.results.now }
    {
        &self.results[..self.counts.columns]
    }

    // The rows in use, each with its entry in a column. Never n is column 16 + n; of a greater number
    // the last never's entries are given.
    pub fn column(&self, column: usize) -> Column<'a, K>
        ensures { rows_left result ≡ zip (seen self.now).rows (column_of self.now.entries.now self.now.counts.rows (min column 23)) }
    {
        Column {
            rows: self.rows_in_use(),
            entries: self.entries,
            column: column.min(23),
        }
    }
}

impl<'a, K: Kind, R: Copy> View<'a, K, R> {
    // The default result, if there is one. `then` would take the lists into a closure and say no less.
    pub fn default_result(&self) -> Option<R>
        ensures { result ≡ (seen self.now).default }
    {
        if self.counts.default {
            self.results.get(16).copied()
        } else {
            None
        }
    }
}
