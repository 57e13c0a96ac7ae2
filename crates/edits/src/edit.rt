// The calls that alter a draft, with what they are given.
use items::{Entry, Quantity, Row};

// One call that alters a draft.
#[derive(Clone, Copy)]
pub enum Edit<V, C, R> {
    NameQuantity(Quantity<V>),
    AddRow(Row),
    // A column that bears a result.
    AddColumn(R),
    AddNever,
    // Never n is column 16 + n. The row and the column stay two fields, since each use takes them apart.
    SetCell {
        row: usize,
        column: usize,
        entry: Entry<C>,
    },
    SetDefault(R),
    ClearDefault,
    StrikeColumn,
    StrikeNever,
}
