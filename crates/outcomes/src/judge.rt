// The outcome of an encounter.
//
// A view and a column are two parameters: `View::column` is what the two make, and lasts for one use.
ghost use Rattle.std.specs.Prelude.{◌≡◌, ◌<◌, not, ◌&&◌, [], slice_index_or};
ghost use Rattle.lists.specs.Held.{encounter_of, seen};
ghost use Rattle.outcomes.specs.Meant.{met_from, outcome_of};
ghost use Rattle.tables.specs.Outcomes.{judged as judged_of, met, outcome as outcome_in, some_met, unequal};
ghost use Rattle.tables.specs.Storage.{column_of};

use crate::outcome::{Outcome, clash_or_answer};
use crate::row::entry_holds;
use kinds::Kind;
use lists::lent::Encounter;
use lists::view::View;
use results::ResultKind;

// Do all entries of a column hold? Never n is column 16 + n. All its callers ask below 24, and
// `View::column` takes every number: a type for such numbers would say it twice.
fn is_met<K: Kind, R: ResultKind>(
    view: &View<'_, K, R>,
    column: usize,
    e: &Encounter<'_, K::Value>,
) -> bool
    requires { column < 24 }
    ensures { result ≡ met K.Kind.meaning (seen view.now).rows (column_of view.now.entries.now view.now.counts.rows column) (encounter_of e.now) }
{
    view.column(column)
        .all(|(row, entry)| entry_holds::<K>(row, entry, e))
}

// Does the encounter meet a column or a never? Never n is column 16 + n, and there are none beyond.
pub fn meets_column<K: Kind, R: ResultKind>(
    view: &View<'_, K, R>,
    column: usize,
    e: &Encounter<'_, K::Value>,
) -> bool
    ensures { column < 24 → result ≡ met K.Kind.meaning (seen view.now).rows (column_of view.now.entries.now view.now.counts.rows column) (encounter_of e.now) }
{
    column < 24 && is_met(view, column, e)
}

// Is a never met?
fn is_barred<K: Kind, R: ResultKind>(view: &View<'_, K, R>, e: &Encounter<'_, K::Value>) -> bool
    ensures { result ≡ some_met K.Kind.meaning (seen view.now).rows (seen view.now).nevers (encounter_of e.now) }
{
    (0..view.counts.nevers).any(|j| is_met(view, 16 + j, e))
}

// Is a column met, with a result unequal to the given one?
fn differs<K: Kind, R: ResultKind>(
    view: &View<'_, K, R>,
    column: usize,
    res: R,
    e: &Encounter<'_, K::Value>,
) -> bool
    requires { column < view.now.counts.columns }
    ensures { result ≡ (met K.Kind.meaning (seen view.now).rows (column_of view.now.entries.now view.now.counts.rows column) (encounter_of e.now) && not (R.ResultKind.results.same res (slice_index_or view.now.results.now column res))) }
{
    is_met(view, column, e) && !res.same(view.results[column])
}

// The first column met from one on whose result is unequal to the given one.
fn next_unequal<K: Kind, R: ResultKind>(
    view: &View<'_, K, R>,
    from: usize,
    res: R,
    e: &Encounter<'_, K::Value>,
) -> Option<usize>
    ensures { result ≡ unequal R.ResultKind.results res (met_from K.Kind.meaning view.now (encounter_of e.now) from) }
{
    (from..view.counts.columns).find(|j| differs(view, *j, res, e))
}

// What an encounter gets that meets no column.
pub fn unmet<K: Kind, R: ResultKind>(view: &View<'_, K, R>) -> Outcome<R>
    ensures { outcome_of result ≡ judged_of R.ResultKind.results (seen view.now).default [] }
{
    view.default_result()
        .map_or(Outcome::Gap, |res| Outcome::Answer(res))
}

// What an encounter that is not barred gets from the columns and the default.
fn judged<K: Kind, R: ResultKind>(view: &View<'_, K, R>, e: &Encounter<'_, K::Value>) -> Outcome<R>
    ensures { outcome_of result ≡ judged_of R.ResultKind.results (seen view.now).default (met_from K.Kind.meaning view.now (encounter_of e.now) 0) }
{
    for (j, res) in view.results_in_use().iter().enumerate() {
        if is_met(view, j, e) {
            return clash_or_answer(j, *res, next_unequal(view, j + 1, *res, e));
        }
    }
    unmet(view)
}

// What the sheet says of an encounter.
pub fn outcome<K: Kind, R: ResultKind>(
    view: &View<'_, K, R>,
    e: &Encounter<'_, K::Value>,
) -> Outcome<R>
    ensures { outcome_of result ≡ outcome_in K.Kind.meaning R.ResultKind.results (seen view.now) (encounter_of e.now) }
{
    if is_barred(view, e) {
        Outcome::Barred
    } else {
        judged(view, e)
    }
}
