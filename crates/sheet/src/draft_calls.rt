// The calls that write a draft. Each first asks whether the lists are of right length and hold
// only what draft calls accept, then its own questions in order; the first that is answered no
// refuses the call, and nothing is changed. Made in a run of calls from open on, each does what the
// definitions say of the contents that the calls make.
ghost use Rattle.edits.specs.Meant.{edit_of};
ghost use Rattle.lists.specs.Held.{SameLists, lists_of};
ghost use Rattle.sheet.specs.Making.{MadeRightly};
ghost use Rattle.tables.specs.Calls.{add_column, add_never, add_row, clear_default, name_quantity, set_cell, set_default, strike_column, strike_never};

use crate::states::Draft;
use edits::edit::Edit;
use edits::making::make;
use faults::SheetFault;
use items::{Entry, Quantity, Row};
use kinds::Kind;
use lists::lent::Lists;
use results::ResultKind;

impl Draft {
    // Makes an edit, or tells the first refusal.
    pub fn make<K: Kind, R: ResultKind>(
        &mut self,
        lists: &mut Lists<'_, K, R>,
        edit: Edit<K::Value, K::Cell, R>,
    ) -> Result<(), SheetFault>
        ensures made { MadeRightly K.Kind.meaning R.ResultKind.results (edit_of edit) self.old.counts (lists_of lists.old) self.new.counts (lists_of lists.new) result }
        ensures lent { SameLists lists.old lists.new }
    {
        self.counts = make(self.counts, lists, edit)?;
        Ok(())
    }

    // Names one more quantity.
    pub fn name_quantity<K: Kind, R: ResultKind>(
        &mut self,
        lists: &mut Lists<'_, K, R>,
        quantity: Quantity<K::Value>,
    ) -> Result<(), SheetFault>
        ensures made { MadeRightly K.Kind.meaning R.ResultKind.results (name_quantity quantity) self.old.counts (lists_of lists.old) self.new.counts (lists_of lists.new) result }
        ensures lent { SameLists lists.old lists.new }
    {
        self.make(lists, Edit::NameQuantity(quantity))
    }

    // Adds a row, its entries all any.
    pub fn add_row<K: Kind, R: ResultKind>(
        &mut self,
        lists: &mut Lists<'_, K, R>,
        row: Row,
    ) -> Result<(), SheetFault>
        ensures made { MadeRightly K.Kind.meaning R.ResultKind.results (add_row row) self.old.counts (lists_of lists.old) self.new.counts (lists_of lists.new) result }
        ensures lent { SameLists lists.old lists.new }
    {
        self.make(lists, Edit::AddRow(row))
    }

    // Adds a column that bears a result, its entries all any.
    pub fn add_column<K: Kind, R: ResultKind>(
        &mut self,
        lists: &mut Lists<'_, K, R>,
        res: R,
    ) -> Result<(), SheetFault>
        ensures made { MadeRightly K.Kind.meaning R.ResultKind.results (add_column res) self.old.counts (lists_of lists.old) self.new.counts (lists_of lists.new) result }
        ensures lent { SameLists lists.old lists.new }
    {
        self.make(lists, Edit::AddColumn(res))
    }

    // Adds a never, its entries all any.
    pub fn add_never<K: Kind, R: ResultKind>(
        &mut self,
        lists: &mut Lists<'_, K, R>,
    ) -> Result<(), SheetFault>
        ensures made { MadeRightly K.Kind.meaning R.ResultKind.results add_never self.old.counts (lists_of lists.old) self.new.counts (lists_of lists.new) result }
        ensures lent { SameLists lists.old lists.new }
    {
        self.make(lists, Edit::AddNever)
    }

    // Puts an entry in place, also any. Never n is column 16 + n.
    pub fn set_cell<K: Kind, R: ResultKind>(
        &mut self,
        lists: &mut Lists<'_, K, R>,
        row: usize,
        column: usize,
        entry: Entry<K::Cell>,
    ) -> Result<(), SheetFault>
        ensures made { MadeRightly K.Kind.meaning R.ResultKind.results (set_cell row column «entry») self.old.counts (lists_of lists.old) self.new.counts (lists_of lists.new) result }
        ensures lent { SameLists lists.old lists.new }
    {
        self.make(lists, Edit::SetCell { row, column, entry })
    }

    // Puts the default result in place.
    pub fn set_default<K: Kind, R: ResultKind>(
        &mut self,
        lists: &mut Lists<'_, K, R>,
        res: R,
    ) -> Result<(), SheetFault>
        ensures made { MadeRightly K.Kind.meaning R.ResultKind.results (set_default res) self.old.counts (lists_of lists.old) self.new.counts (lists_of lists.new) result }
        ensures lent { SameLists lists.old lists.new }
    {
        self.make(lists, Edit::SetDefault(res))
    }

    // Takes out any default result.
    pub fn clear_default<K: Kind, R: ResultKind>(
        &mut self,
        lists: &mut Lists<'_, K, R>,
    ) -> Result<(), SheetFault>
        ensures made { MadeRightly K.Kind.meaning R.ResultKind.results clear_default self.old.counts (lists_of lists.old) self.new.counts (lists_of lists.new) result }
        ensures lent { SameLists lists.old lists.new }
    {
        self.make(lists, Edit::ClearDefault)
    }

    // Takes out the last column.
    pub fn strike_column<K: Kind, R: ResultKind>(
        &mut self,
        lists: &mut Lists<'_, K, R>,
    ) -> Result<(), SheetFault>
        ensures made { MadeRightly K.Kind.meaning R.ResultKind.results strike_column self.old.counts (lists_of lists.old) self.new.counts (lists_of lists.new) result }
        ensures lent { SameLists lists.old lists.new }
    {
        self.make(lists, Edit::StrikeColumn)
    }

    // Takes out the last never.
    pub fn strike_never<K: Kind, R: ResultKind>(
        &mut self,
        lists: &mut Lists<'_, K, R>,
    ) -> Result<(), SheetFault>
        ensures made { MadeRightly K.Kind.meaning R.ResultKind.results strike_never self.old.counts (lists_of lists.old) self.new.counts (lists_of lists.new) result }
        ensures lent { SameLists lists.old lists.new }
    {
        self.make(lists, Edit::StrikeNever)
    }
}
