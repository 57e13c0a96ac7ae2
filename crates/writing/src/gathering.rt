// The entries of a column, which lie 24 apart in the list of entries.
ghost use Rattle.std.specs.Prelude.{◌≡◌, ◌<◌, take};
ghost use Rattle.tables.specs.Storage.{column_of};

use house::{Cell, House};
use items::Entry;
use lists::view::View;
use results::figure::Figure;

// A sheet that a page can carry: figures over the joined house kinds.
pub type PageView<'a> = View<'a, House, Figure>;

// The entries of a column in the rows in use, in front. Never n is column 16 + n. All its callers ask
// below 24, and an entry is read by its place, which has to lie in the list.
// An array beside the count of rows: nothing is on the heap.
pub(crate) fn gathered(view: &PageView<'_>, column: usize) -> [Entry<Cell>; 16]
    requires { column < 24 }
    ensures { take view.now.counts.rows result ≡ column_of view.now.entries.now view.now.counts.rows column }
{
    // Over `view.column` it stays open that a turn's place is below 16.
    let mut all = [Entry::Any; 16];
    for i in 0..view.counts.rows {
        all[i] = view.entries[24 * i + column];
    }
    all
}
