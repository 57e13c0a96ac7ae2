// A sheet to look at.
ghost use Rattle.std.specs.Prelude.{◌≡◌, ◌*◌, ◌<◌, ◌≤◌, length};
ghost use Rattle.tables.specs.Storage.{Bounded};

use items::{Counts, Entry, Quantity, Row};
use kinds::Kind;

// Lists of right length, and how much of them a sheet uses.
// An encounter goes beside it: each call brings one, so a struct of both would be made at every call.
#[derive(Drop)]
pub struct View<'a, K: Kind, R> {
    pub counts: Counts,
    pub quantities: &'a [Quantity<K::Value>],
    pub rows: &'a [Row],
    pub entries: &'a [Entry<K::Cell>],
    pub results: &'a [R],
    ghost few: { Bounded counts },
    ghost all_quantities: { length quantities.now ≡ 16 },
    ghost all_rows: { length rows.now ≡ 16 },
    ghost all_entries: { length entries.now ≡ 384 },
    ghost all_results: { length results.now ≡ 17 },
}

// The rows of a sheet that are still to come, each with its entry in one column. The entries lie
// 24 a row; never n is column 16 + n.
#[derive(Drop)]
pub struct Column<'a, K: Kind> {
    pub rows: &'a [Row],
    pub entries: &'a [Entry<K::Cell>],
    pub column: usize,
    ghost among: { column < 24 },
    ghost enough: { 24 * length rows.now ≤ length entries.now },
}
