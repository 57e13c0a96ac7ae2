// What a caller lends: the four lists that hold a sheet, and the three of an encounter.
use items::{Entry, Quantity, Row};
use kinds::Kind;

// The four lists of a sheet, slices of fixed length that the caller lends: 16 quantities; 16 rows; 384 entries, 24 a row, 16 for the columns
// and then 8 for the nevers; 17 results, the default last.
// Counts go beside them, not in them: they are the sheet's, and the lists the caller's.
// `SameLists` relates the lists before a call and after it, so it is no invariant of one value.
#[derive(Drop)]
pub struct Lists<'a, K: Kind, R> {
    pub quantities: &'a mut [Quantity<K::Value>],
    pub rows: &'a mut [Row],
    pub entries: &'a mut [Entry<K::Cell>],
    pub results: &'a mut [R],
}

// The three lists of an encounter, 16 values each, in which issue shows what it found: A's
// values, B's and the pair's, by quantity. The sheet's lists go beside it: each is lent by itself, and a
// struct would have to say of each that it is lent as before.
// `SameShowing` relates the lists before a call and after it, so it is no invariant of one value.
#[derive(Drop)]
pub struct Showing<'a, V> {
    pub a: &'a mut [V],
    pub b: &'a mut [V],
    pub pair: &'a mut [V],
}

// An encounter to look at: A's values, B's and the pair's, by quantity.
#[derive(Clone, Copy)]
pub struct Encounter<'a, V> {
    pub a: &'a [V],
    pub b: &'a [V],
    pub pair: &'a [V],
}
