// What each edit writes once it is accepted, and how much of the lists is in use after it.
ghost use Rattle.std.specs.Prelude.{◌≡◌, ℕ, ◌+◌, ◌*◌, ◌<◌, map};
ghost use Rattle.edits.specs.Meant.{Room, edit_of};
ghost use Rattle.lists.specs.Held.{SameLists, lists_of};
ghost use Rattle.std.specs.List.{range_with_len};
ghost use Rattle.tables.specs.Calls.{add_column, add_row};
ghost use Rattle.tables.specs.Storage.{Bounded, counts_after, lists_after, wiped};

use crate::edit::Edit;
use items::{Counts, Entry, Row};
use kinds::Kind;
use lists::lent::Lists;
use lists::places::put;

// Sets entries to any: as many as the count, each the step after the one before it.
fn clear<C: Copy>(entries: &mut [Entry<C>], first: usize, step: usize, count: usize)
    requires { (k : ℕ) → k < count → step * k + first < 768 }
    ensures { entries.new ≡ wiped entries.old (map (λ k. step * k + first) (range_with_len 0 count)) }
{
    // by index: tried with `skip`, `step_by` and `take` of `iter_mut`, and with `get_mut`; after each it
    // stayed open what the entries are
    for k in 0..count {
        put(entries, step * k + first, Entry::Any);
    }
}

// Adds a row whose entries are all any.
fn write_row<K: Kind, R>(counts: Counts, lists: &mut Lists<'_, K, R>, row: Row)
    requires { counts.rows < 16 }
    ensures left { lists_of lists.new ≡ lists_after (add_row row) counts (lists_of lists.old) }
    ensures lent { SameLists lists.old lists.new }
{
    put(lists.rows, counts.rows, row);
    clear(lists.entries, 24 * counts.rows, 1, 24);
}

// Adds a column with a result, its entries all any.
fn write_column<K: Kind, R: Copy>(counts: Counts, lists: &mut Lists<'_, K, R>, res: R)
    requires { counts.columns < 16 }
    ensures left { lists_of lists.new ≡ lists_after (add_column res) counts (lists_of lists.old) }
    ensures lent { SameLists lists.old lists.new }
{
    put(lists.results, counts.columns, res);
    clear(lists.entries, counts.columns, 24, 16);
}

// What an accepted edit writes.
pub(crate) fn write<K: Kind, R: Copy>(
    counts: Counts,
    lists: &mut Lists<'_, K, R>,
    edit: Edit<K::Value, K::Cell, R>,
)
    requires { Room edit counts }
    ensures left { lists_of lists.new ≡ lists_after (edit_of edit) counts (lists_of lists.old) }
    ensures lent { SameLists lists.old lists.new }
{
    match edit {
        Edit::NameQuantity(quantity) => put(lists.quantities, counts.quantities, quantity),
        Edit::AddRow(row) => write_row(counts, lists, row),
        Edit::AddColumn(result) => write_column(counts, lists, result),
        Edit::AddNever => clear(lists.entries, 16 + counts.nevers, 24, 16),
        Edit::SetCell { row, column, entry } => put(lists.entries, 24 * row + column, entry),
        Edit::SetDefault(result) => put(lists.results, 16, result),
        Edit::ClearDefault | Edit::StrikeColumn | Edit::StrikeNever => {}
    }
}

// How much of the lists is in use after an accepted edit.
pub(crate) fn count<V, C, R>(counts: Counts, edit: &Edit<V, C, R>) -> Counts
    requires { Room edit.now counts }
    ensures { result ≡ counts_after (edit_of edit.now) counts }
{
    let mut after = counts;
    match edit {
        Edit::NameQuantity(_) => after.quantities += 1,
        Edit::AddRow(_) => after.rows += 1,
        Edit::AddColumn(_) => after.columns += 1,
        Edit::AddNever => after.nevers += 1,
        Edit::SetCell { .. } => {}
        Edit::SetDefault(_) => after.default = true,
        Edit::ClearDefault => after.default = false,
        Edit::StrikeColumn => after.columns -= 1,
        Edit::StrikeNever => after.nevers -= 1,
    }
    after
}
