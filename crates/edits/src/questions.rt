// The questions of each edit of a sheet in order; the first that is answered no refuses it.
ghost use Rattle.std.specs.Prelude.{◌≡◌, ◌&&◌, [], ◌∷◌, length, nat_lt};
ghost use Rattle.edits.specs.Meant.{edit_of, told};
ghost use Rattle.faults.specs.declared.SheetFault.TheVariants.{NothingToStrike, UnlawfulResult};
ghost use Rattle.lists.specs.Held.{seen};
ghost use Rattle.tables.specs.Calls.{add_column, add_never, add_row, asked, column_exists, first_no, name_quantity, set_cell, set_default, strike_column, strike_never};

use crate::edit::Edit;
use faults::{KindFault, SheetFault};
use items::{Entry, Quantity, Row};
use kinds::Kind;
use lists::view::View;
use results::ResultKind;

// One question: the fault is that of a no. An `if`, since `then_some(()).ok_or(..)` would build an
// answer to throw it away.
fn refuse_unless(yes: bool, fault: SheetFault) -> Result<(), SheetFault>
    ensures { result ≡ told (first_no ((yes, fault) ∷ [])) }
{
    if yes { Ok(()) } else { Err(fault) }
}

fn ask_result<R: ResultKind>(res: R) -> Result<(), SheetFault>
    ensures { result ≡ told (first_no ((R.ResultKind.results.lawful res, UnlawfulResult) ∷ [])) }
{
    refuse_unless(res.is_lawful(), SheetFault::UnlawfulResult)
}

fn ask_quantity<K: Kind, R: ResultKind>(
    view: &View<'_, K, R>,
    quantity: Quantity<K::Value>,
) -> Result<(), SheetFault>
    ensures { result ≡ told (first_no (asked K.Kind.meaning R.ResultKind.results (name_quantity quantity) (seen view.now))) }
{
    refuse_unless(view.quantity_count() < 16, SheetFault::TooManyQuantities)?;
    refuse_unless(
        K::is_range(quantity.least, quantity.greatest),
        KindFault::Range.into(),
    )
}

fn ask_row<K: Kind, R: ResultKind>(view: &View<'_, K, R>, row: Row) -> Result<(), SheetFault>
    ensures { result ≡ told (first_no (asked K.Kind.meaning R.ResultKind.results (add_row row) (seen view.now))) }
{
    refuse_unless(view.row_count() < 16, SheetFault::TooManyRows)?;
    refuse_unless(
        row.quantity < view.quantity_count(),
        SheetFault::NoSuchQuantity,
    )?;
    refuse_unless(view.row_is_lawful(row), SheetFault::WrongMode)
}

fn ask_column<K: Kind, R: ResultKind>(view: &View<'_, K, R>, res: R) -> Result<(), SheetFault>
    ensures { result ≡ told (first_no (asked K.Kind.meaning R.ResultKind.results (add_column res) (seen view.now))) }
{
    refuse_unless(view.column_count() < 16, SheetFault::TooManyColumns)?;
    ask_result(res)
}

fn ask_never<K: Kind, R: ResultKind>(view: &View<'_, K, R>) -> Result<(), SheetFault>
    ensures { result ≡ told (first_no (asked K.Kind.meaning R.ResultKind.results add_never (seen view.now))) }
{
    refuse_unless(view.never_count() < 8, SheetFault::TooManyNevers)
}

// Is there such a column, or such a never? Never n is column 16 + n.
fn has_column<K: Kind, R: ResultKind>(view: &View<'_, K, R>, column: usize) -> bool
    ensures { result ≡ column_exists (seen view.now) column }
{
    if column < 16 {
        column < view.column_count()
    } else {
        column - 16 < view.never_count()
    }
}

fn has_place<K: Kind, R: ResultKind>(view: &View<'_, K, R>, row: usize, column: usize) -> bool
    ensures { result ≡ (nat_lt row (length (seen view.now).rows) && column_exists (seen view.now) column) }
{
    row < view.row_count() && has_column(view, column)
}

fn ask_cell<K: Kind, R: ResultKind>(
    view: &View<'_, K, R>,
    row: usize,
    column: usize,
    entry: Entry<K::Cell>,
) -> Result<(), SheetFault>
    ensures { result ≡ told (first_no (asked K.Kind.meaning R.ResultKind.results (set_cell row column «entry») (seen view.now))) }
{
    refuse_unless(has_place(view, row, column), SheetFault::NoSuchPlace)?;
    refuse_unless(view.accepts(row, entry), KindFault::Cell.into())
}

fn ask_strike(count: usize) -> Result<(), SheetFault>
    ensures { result ≡ told (first_no ((nat_lt 0 count, NothingToStrike) ∷ [])) }
{
    refuse_unless(count > 0, SheetFault::NothingToStrike)
}

// The questions of an edit.
pub(crate) fn ask<K: Kind, R: ResultKind>(
    view: &View<'_, K, R>,
    edit: Edit<K::Value, K::Cell, R>,
) -> Result<(), SheetFault>
    ensures { result ≡ told (first_no (asked K.Kind.meaning R.ResultKind.results (edit_of edit) (seen view.now))) }
{
    match edit {
        Edit::NameQuantity(quantity) => ask_quantity(view, quantity),
        Edit::AddRow(row) => ask_row(view, row),
        Edit::AddColumn(result) => ask_column(view, result),
        Edit::AddNever => ask_never(view),
        Edit::SetCell { row, column, entry } => ask_cell(view, row, column, entry),
        Edit::SetDefault(result) => ask_result(result),
        Edit::ClearDefault => Ok(()),
        Edit::StrikeColumn => ask_strike(view.column_count()),
        Edit::StrikeNever => ask_strike(view.never_count()),
    }
}
