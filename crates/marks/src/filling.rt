// The marks of the starts of all quantities, one quantity after the other.
//
// A quantity and its number are two parameters, as `enumerate` gives them, and the view is a third: a
// struct of them would be made for each quantity and taken apart again.
ghost use Rattle.std.specs.Prelude.{◌≡◌, ◌+◌, ◌<◌, ◌&&◌, true, MatchOption, length, nat_le, take};
ghost use Rattle.lists.specs.Held.{seen};
ghost use Rattle.marks.specs.Fills.{MarkedTo, starts_in_all};
ghost use Rattle.sets.specs.Marks.{AllSpanned};
ghost use Rattle.tables.specs.Starts.{cells_of, starts as starts_of};
ghost use Rattle.tables.specs.Storage.{column_of};

use crate::marking::mark;
use items::Quantity;
use kinds::Kind;
use lists::view::View;
use results::ResultKind;
use sets::{Mark, Span};
use starts::next::next_start;

// A sheet over the kinds of the house has no more starts than this: each of its 16 quantities has its
// least value and the stops of its cells, and each of 384 cells has at most two stops. A set of names
// may have 31 stops, but a quantity of names has at most 32 starts, which is less than one more than
// two for each of the 24 cells of one row.
pub const MOST_STARTS: usize = 784;

// Writes the marks of the starts of quantity i, from a place on: the place after the last, or none
// where there is no room for them all.
fn mark_starts<K: Kind, R: ResultKind>(
    view: &View<'_, K, R>,
    i: usize,
    q: Quantity<K::Value>,
    marks: &mut [Mark<K::Value>],
    from: usize,
) -> Option<usize>
    ensures { MatchOption result
        (length marks.new < from + length (starts_of K.Kind.meaning (cells_of (seen view.now) i) q))
        (λ to. MarkedTo K.Kind.meaning (seen view.now) (λ k. column_of view.now.entries.now view.now.counts.rows k) i q marks.old marks.new from to) }
{
    let mut at = q.least;
    for place in from..marks.len() {
        marks[place] = mark(view, i, at);
        let Some(next) = next_start(view, i, q.greatest, at) else {
            return Some(place + 1);
        };
        at = next;
    }
    None
}

// Writes the marks of the starts of all quantities, and where those of each lie. False where there is
// no room for them all.
pub fn fill<K: Kind, R: ResultKind>(
    view: &View<'_, K, R>,
    marks: &mut [Mark<K::Value>],
    spans: &mut [Span],
) -> bool
    ensures room { result ≡ (nat_le (length (seen view.now).quantities) (length spans.new) && nat_le (starts_in_all K.Kind.meaning (seen view.now) 0 (seen view.now).quantities) (length marks.new)) }
    ensures filled { result ≡ true → AllSpanned K.Kind.meaning (seen view.now) (λ k. column_of view.now.entries.now view.now.counts.rows k) marks.new 0
        (seen view.now).quantities (take (length (seen view.now).quantities) spans.new) }
{
    if spans.len() < view.counts.quantities {
        return false;
    }
    let mut at = 0;
    for (i, q) in view.quantities_in_use().iter().enumerate() {
        let Some(to) = mark_starts(view, i, *q, marks, at) else {
            return false;
        };
        spans[i] = Span {
            scope: q.scope,
            quantity: i,
            from: at,
            to,
        };
        at = to;
    }
    true
}
