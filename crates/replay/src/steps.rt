// One call of a script. One that the sheet's state does not allow does nothing.
ghost use Rattle.std.specs.Prelude.{◌≡◌};
ghost use Rattle.edits.specs.Meant.{edit_of};
ghost use Rattle.lists.specs.Held.{SameLists, SameShowing, encounter_of, lists_of, shown};
ghost use Rattle.replay.specs.Scripts.{call_of};
ghost use Rattle.replay.specs.States.{counts_of, status_of};
ghost use Rattle.replay.specs.Steps.{Stepped, step_shown};
ghost use Rattle.tables.specs.Calls.{draft, edit as editing, issued, look_up as looking_up, try_issue, withdraw as withdrawing};

use crate::script::{Answer, Call};
use crate::state::Sheet;
use edits::edit::Edit;
use kinds::Kind;
use lists::lent::{Encounter, Lists, Showing};
use results::ResultKind;
use sheet::states::{Draft, Issued};

// Told by a match: an `impl From` for edits and one for look-ups would overlap at results `()`.
fn edit<K: Kind, R: ResultKind>(
    mut before: Draft,
    lists: &mut Lists<'_, K, R>,
    given: Edit<K::Value, K::Cell, R>,
) -> (Sheet, Answer<R>)
    ensures stepped { Stepped K.Kind.meaning R.ResultKind.results before.counts (lists_of lists.old) (editing (edit_of given)) draft (status_of result.0) (counts_of result.0) (lists_of lists.new) result.1 }
    ensures lent { SameLists lists.old lists.new }
{
    let said = match before.make(lists, given) {
        Ok(()) => Answer::Done,
        Err(fault) => Answer::Refused(fault),
    };
    (Sheet::Draft(before), said)
}

fn issue<K: Kind, R: ResultKind>(
    before: Draft,
    lists: &Lists<'_, K, R>,
    at: &mut Showing<'_, K::Value>,
) -> (Sheet, Answer<R>)
    ensures stepped { Stepped K.Kind.meaning R.ResultKind.results before.counts (lists_of lists.now) (try_issue (shown at.old)) draft (status_of result.0) (counts_of result.0) (lists_of lists.now) result.1 }
    ensures showing { shown at.new ≡ step_shown K.Kind.meaning R.ResultKind.results before.counts (lists_of lists.now) (try_issue (shown at.old)) draft (shown at.old) }
    ensures lent_showing { SameShowing at.old at.new }
{
    match before.issue(lists, at) {
        Ok((sheet, count)) => (Sheet::Issued(sheet), Answer::Issued(count)),
        Err((sheet, fault)) => (Sheet::Draft(sheet), Answer::Refused(fault)),
    }
}

fn look_up<K: Kind, R: ResultKind>(
    before: Issued,
    lists: &Lists<'_, K, R>,
    e: &Encounter<'_, K::Value>,
) -> (Sheet, Answer<R>)
    ensures { Stepped K.Kind.meaning R.ResultKind.results before.counts (lists_of lists.now) (looking_up (encounter_of e.now)) issued (status_of result.0) (counts_of result.0) (lists_of lists.now) result.1 }
{
    let said = match before.look_up(lists, e) {
        Ok(found) => Answer::Found(found),
        Err(fault) => Answer::Refused(fault),
    };
    (Sheet::Issued(before), said)
}

fn withdraw<K: Kind, R: ResultKind>(before: Issued, lists: &Lists<'_, K, R>) -> (Sheet, Answer<R>)
    ensures { Stepped K.Kind.meaning R.ResultKind.results before.counts (lists_of lists.now) withdrawing issued (status_of result.0) (counts_of result.0) (lists_of lists.now) result.1 }
{
    match before.withdraw(lists) {
        Ok(sheet) => (Sheet::Draft(sheet), Answer::Done),
        Err((sheet, fault)) => (Sheet::Issued(sheet), Answer::Refused(fault)),
    }
}

// Makes one call, and gives the sheet and the answer. A draft allows edits and issue, an issued
// sheet look-up and withdraw.
pub(crate) fn step<K: Kind, R: ResultKind>(
    sheet: Sheet,
    lists: &mut Lists<'_, K, R>,
    at: &mut Showing<'_, K::Value>,
    call: &Call<'_, K::Value, K::Cell, R>,
) -> (Sheet, Answer<R>)
    ensures stepped { Stepped K.Kind.meaning R.ResultKind.results (counts_of sheet) (lists_of lists.old) (call_of call.now (shown at.old)) (status_of sheet) (status_of result.0) (counts_of result.0) (lists_of lists.new) result.1 }
    ensures showing { shown at.new ≡ step_shown K.Kind.meaning R.ResultKind.results (counts_of sheet) (lists_of lists.old) (call_of call.now (shown at.old)) (status_of sheet) (shown at.old) }
    ensures lent { SameLists lists.old lists.new }
    ensures lent_showing { SameShowing at.old at.new }
{
    match (sheet, call) {
        (Sheet::Draft(before), Call::Edit(given)) => edit(before, lists, *given),
        (Sheet::Draft(before), Call::Issue) => issue(before, lists, at),
        (Sheet::Issued(before), Call::LookUp(e)) => look_up(before, lists, e),
        (Sheet::Issued(before), Call::Withdraw) => withdraw(before, lists),
        (before, _) => (before, Answer::NotAllowed),
    }
}
