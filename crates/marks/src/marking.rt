// The mark of one value of a quantity.
ghost use Rattle.std.specs.Prelude.{◌≡◌, ◌<◌, length};
ghost use Rattle.lists.specs.Held.{seen};
ghost use Rattle.marks.specs.Joins.{Joined, blank_mark};
ghost use Rattle.sets.specs.Marks.{Marked};
ghost use Rattle.tables.specs.Storage.{column_of};

use crate::row::row_set;
use items::Mode;
use kinds::Kind;
use lists::view::View;
use results::ResultKind;
use sets::Mark;

// The mark of a value that no row reads.
pub fn blank<V>(value: V) -> Mark<V>
    ensures { result ≡ blank_mark value }
{
    Mark {
        value,
        of_a: u32::MAX,
        of_b: u32::MAX,
        eithers: 0,
        either: [0; 16],
    }
}

// Puts what holds in one more row among what a mark has, as the row's mode says.
fn join<V>(mark: &mut Mark<V>, mode: Mode, set: u32)
    requires { mark.old.eithers < 16 }
    ensures { Joined mark.old mode set mark.new }
{
    match mode {
        Mode::A => mark.of_a &= set,
        Mode::B => mark.of_b &= set,
        Mode::Both | Mode::Pair => {
            mark.of_a &= set;
            mark.of_b &= set;
        }
        Mode::Either => {
            mark.either[mark.eithers] = set;
            mark.eithers += 1;
        }
    }
}

// The mark of a value: where entries hold for it in the rows that read the quantity.
pub fn mark<K: Kind, R: ResultKind>(
    view: &View<'_, K, R>,
    quantity: usize,
    value: K::Value,
) -> Mark<K::Value>
    ensures { Marked K.Kind.meaning (seen view.now).rows (λ k. column_of view.now.entries.now view.now.counts.rows k) quantity value result }
{
    let mut mark = blank(value);
    for (i, row) in view.rows_in_use().iter().enumerate() {
        if row.quantity == quantity {
            join(&mut mark, row.mode, row_set(view, i, value));
        }
    }
    mark
}
