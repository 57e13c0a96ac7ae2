// The edits of a script, over any kind.
use edits::edit::Edit;
use items::{Entry, Mode, Quantity, Row, Scope};
use replay::script::Call;

// Names a quantity.
pub fn name<'a, V, C, R>(scope: Scope, least: V, greatest: V) -> Call<'a, V, C, R> {
    Call::Edit(Edit::NameQuantity(Quantity {
        scope,
        least,
        greatest,
    }))
}

// Adds a row.
pub fn row<'a, V, C, R>(quantity: usize, mode: Mode) -> Call<'a, V, C, R> {
    Call::Edit(Edit::AddRow(Row { quantity, mode }))
}

// Adds a column with a result.
pub fn column<'a, V, C, R>(res: R) -> Call<'a, V, C, R> {
    Call::Edit(Edit::AddColumn(res))
}

// Sets the default result.
pub fn default<'a, V, C, R>(res: R) -> Call<'a, V, C, R> {
    Call::Edit(Edit::SetDefault(res))
}

// Sets an entry. Never n is column 16 + n.
pub fn set<'a, V, C, R>(row: usize, column: usize, entry: Entry<C>) -> Call<'a, V, C, R> {
    Call::Edit(Edit::SetCell { row, column, entry })
}
