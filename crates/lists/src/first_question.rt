// Are the lists of right length, and is each entry in use one that the draft calls would accept?
ghost use Rattle.std.specs.Prelude.{◌≡◌, ◌<◌, ◌&&◌, length, OnOk, IfErr, true};
ghost use Rattle.faults.specs.declared.SheetFault.TheVariants.{Lists as WrongLists};
ghost use Rattle.lists.specs.Held.{FirstAnswer, Looked, lists_of, seen};
ghost use Rattle.std.specs.List.{slice_get};
ghost use Rattle.tables.specs.Acceptance.{acceptable, default_lawful, entries_lawful, entry_lawful, mode_fits, range_lawful, row_lawful};
ghost use Rattle.tables.specs.Calls.{lawful_at};
ghost use Rattle.tables.specs.Storage.{Bounded, column_of, in_order, right_lengths};
ghost use Rattle.tables.specs.Words.{all_of};

use crate::lent::Lists;
use crate::view::View;
use faults::SheetFault;
use items::{Counts, Entry, Mode, Quantity, Row, Scope};
use kinds::Kind;
use results::ResultKind;

// Is the mode for quantities of this scope?
fn mode_fits(mode: Mode, scope: Scope) -> bool
    ensures { result ≡ mode_fits mode scope }
{
    (mode == Mode::Pair) == (scope == Scope::Pair)
}

impl<'a, K: Kind, R: ResultKind> View<'a, K, R> {
    // How many quantities the sheet has.
    pub fn quantity_count(&self) -> usize
        ensures { result ≡ length (seen self.now).quantities }
    {
        self.quantities_in_use().len()
    }

    // How many rows the sheet has.
    pub fn row_count(&self) -> usize
        ensures { result ≡ length (seen self.now).rows }
    {
        self.rows_in_use().len()
    }

    // How many columns bear a result.
    pub fn column_count(&self) -> usize
        ensures { result ≡ length (seen self.now).columns }
    {
        self.results_in_use().len()
    }

    // How many nevers the sheet has. No list holds one item a never, so this reads the count.
    pub fn never_count(&self) -> usize
        ensures { result ≡ length (seen self.now).nevers }
    {
        self.counts.nevers
    }

    // A quantity in use.
    pub fn quantity(&self, i: usize) -> Option<Quantity<K::Value>>
        ensures { result ≡ slice_get (seen self.now).quantities i }
    {
        self.quantities_in_use().get(i).copied()
    }

    // A row in use.
    pub fn row(&self, i: usize) -> Option<Row>
        ensures { result ≡ slice_get (seen self.now).rows i }
    {
        self.rows_in_use().get(i).copied()
    }

    // Does the row read a quantity in use, in a mode that fits it?
    pub fn row_is_lawful(&self, row: Row) -> bool
        ensures { result ≡ row_lawful K.Kind.meaning (seen self.now).quantities row }
    {
        self.quantity(row.quantity)
            .is_some_and(|q| mode_fits(row.mode, q.scope))
    }

    // Is the entry any, or a cell that is lawful for the row's range?
    pub fn entry_is_lawful(&self, row: Row, entry: Entry<K::Cell>) -> bool
        ensures { result ≡ entry_lawful K.Kind.meaning (seen self.now).quantities row «entry» }
    {
        match entry {
            Entry::Any => true,
            Entry::Cell(cell) => self
                .quantity(row.quantity)
                .is_some_and(|q| K::fits(cell, q.least, q.greatest)),
        }
    }

    // Is the entry lawful in a row in use?
    pub fn accepts(&self, row: usize, entry: Entry<K::Cell>) -> bool
        ensures { result ≡ lawful_at K.Kind.meaning R.ResultKind.results (seen self.now).quantities (slice_get (seen self.now).rows row) «entry» }
    {
        self.row(row)
            .is_some_and(move |row| self.entry_is_lawful(row, entry))
    }

    fn ranges_are_lawful(&self) -> bool
        ensures { result ≡ all_of (range_lawful K.Kind.meaning) (seen self.now).quantities }
    {
        self.quantities_in_use()
            .iter()
            .all(|q| K::is_range(q.least, q.greatest))
    }

    fn rows_are_lawful(&self) -> bool
        ensures { result ≡ all_of (row_lawful K.Kind.meaning (seen self.now).quantities) (seen self.now).rows }
    {
        self.rows_in_use()
            .iter()
            .all(|row| self.row_is_lawful(*row))
    }

    // Are the entries of a column lawful, in the rows in use? Never n is column 16 + n. All its callers
    // ask below 24, and `View::column` takes every number: a type for such numbers would say it twice.
    fn column_is_lawful(&self, column: usize) -> bool
        requires { column < 24 }
        ensures { result ≡ entries_lawful K.Kind.meaning (seen self.now).quantities (seen self.now).rows (column_of self.now.entries.now self.now.counts.rows column) }
    {
        self.column(column)
            .all(|(row, entry)| self.entry_is_lawful(row, entry))
    }

    fn columns_are_lawful(&self) -> bool
        ensures { result ≡ all_of (λ k. entries_lawful K.Kind.meaning (seen self.now).quantities (seen self.now).rows k.entries && R.ResultKind.results.lawful k.result) (seen self.now).columns }
    {
        self.results_in_use()
            .iter()
            .enumerate()
            .all(|(j, res)| self.column_is_lawful(j) && res.is_lawful())
    }

    fn nevers_are_lawful(&self) -> bool
        ensures { result ≡ all_of (entries_lawful K.Kind.meaning (seen self.now).quantities (seen self.now).rows) (seen self.now).nevers }
    {
        (0..self.counts.nevers).all(|j| self.column_is_lawful(16 + j))
    }

    fn default_is_lawful(&self) -> bool
        ensures { result ≡ default_lawful R.ResultKind.results (seen self.now).default }
    {
        self.default_result().is_none_or(|res| res.is_lawful())
    }

    // Is each entry in use one that the draft calls would accept?
    pub fn is_acceptable(&self) -> bool
        ensures { result ≡ acceptable K.Kind.meaning R.ResultKind.results (seen self.now) }
    {
        self.ranges_are_lawful()
            && self.rows_are_lawful()
            && self.columns_are_lawful()
            && self.nevers_are_lawful()
            && self.default_is_lawful()
    }
}

impl<'a, K: Kind, R: ResultKind> Lists<'a, K, R> {
    // Are the four lists of right length?
    pub fn are_long(&self) -> bool
        ensures { result ≡ right_lengths (lists_of self.now) }
    {
        self.quantities.len() == 16
            && self.rows.len() == 16
            && self.entries.len() == 384
            && self.results.len() == 17
    }

    // A view of lists of right length, with counts that are within bounds. `then` would take the view
    // into a closure and say no less.
    fn view(&self, counts: Counts) -> Option<View<'_, K, R>>
        requires { Bounded counts }
        ensures { Looked counts self.now result }
    {
        if self.are_long() {
            Some(View {
                counts,
                quantities: self.quantities,
                rows: self.rows,
                entries: self.entries,
                results: self.results,
            })
        } else {
            None
        }
    }

    // The sheet that the lists hold, if the first question is answered yes.
    fn asked(&self, counts: Counts) -> Result<View<'_, K, R>, SheetFault>
        requires { Bounded counts }
        ensures { FirstAnswer K.Kind.meaning R.ResultKind.results counts self.now result }
    {
        self.view(counts)
            .filter(|view| view.is_acceptable())
            .ok_or(SheetFault::Lists)
    }

    // The sheet that the lists hold, if the first question is answered yes. Counts that no draft can
    // have are refused too.
    pub fn checked(&self, counts: Counts) -> Result<View<'_, K, R>, SheetFault>
        ensures answer { Bounded counts → FirstAnswer K.Kind.meaning R.ResultKind.results counts self.now result }
        ensures few { OnOk result (Bounded counts) }
        ensures told { IfErr result (λ f. f ≡ WrongLists) }
    {
        if counts.quantities <= 16
            && counts.rows <= 16
            && counts.columns <= 16
            && counts.nevers <= 8
        {
            self.asked(counts)
        } else {
            Err(SheetFault::Lists)
        }
    }

    // Is the first question answered yes? It is not for counts that no draft can have.
    pub fn in_order(&self, counts: Counts) -> bool
        ensures answer { Bounded counts → result ≡ in_order K.Kind.meaning R.ResultKind.results counts (lists_of self.now) }
        ensures few { result ≡ true → Bounded counts }
    {
        self.checked(counts).is_ok()
    }
}
