// Replaying a script from open on.
//
// Lists and what shows an encounter are two parameters, as the calls of a sheet take them.
ghost use Rattle.std.specs.Prelude.{◌≡◌, ◌≤◌, true, length, slice_set};
ghost use Rattle.lists.specs.Held.{SameLists, SameShowing, lists_of, shown};
ghost use Rattle.replay.specs.Replays.{Replayed, ReplayedTo};
ghost use Rattle.replay.specs.Scripts.{call_of};
ghost use Rattle.replay.specs.States.{counts_of, status_of};
ghost use Rattle.replay.specs.Steps.{Stepped, step_answer, step_shown};
ghost use Rattle.tables.specs.Storage.{right_lengths};

use crate::script::{Answer, Call, ReplayFault};
use crate::state::Sheet;
use crate::steps::step;
use kinds::Kind;
use lists::lent::{Lists, Showing};
use lists::places::put;
use results::ResultKind;
use sheet::states::Draft;

// Makes one call, and writes its answer at place i.
fn answer<K: Kind, R: ResultKind>(
    sheet: Sheet,
    lists: &mut Lists<'_, K, R>,
    at: &mut Showing<'_, K::Value>,
    call: &Call<'_, K::Value, K::Cell, R>,
    answers: &mut [Answer<R>],
    i: usize,
) -> Sheet
    ensures stepped { Stepped K.Kind.meaning R.ResultKind.results (counts_of sheet) (lists_of lists.old) (call_of call.now (shown at.old)) (status_of sheet) (status_of result) (counts_of result) (lists_of lists.new) (step_answer K.Kind.meaning R.ResultKind.results (counts_of sheet) (lists_of lists.old) (call_of call.now (shown at.old)) (status_of sheet)) }
    ensures answered { answers.new ≡ slice_set answers.old i (step_answer K.Kind.meaning R.ResultKind.results (counts_of sheet) (lists_of lists.old) (call_of call.now (shown at.old)) (status_of sheet)) }
    ensures showing { shown at.new ≡ step_shown K.Kind.meaning R.ResultKind.results (counts_of sheet) (lists_of lists.old) (call_of call.now (shown at.old)) (status_of sheet) (shown at.old) }
    ensures lent { SameLists lists.old lists.new }
    ensures lent_showing { SameShowing at.old at.new }
{
    let (after, said) = step(sheet, lists, at, call);
    put(answers, i, said);
    after
}

// Makes every call and writes an answer for each.
fn play<K: Kind, R: ResultKind>(
    calls: &[Call<'_, K::Value, K::Cell, R>],
    lists: &mut Lists<'_, K, R>,
    at: &mut Showing<'_, K::Value>,
    answers: &mut [Answer<R>],
) -> Sheet
    requires lengths { right_lengths (lists_of lists.old) ≡ true }
    requires room { length calls.now ≤ length answers.old }
    ensures replayed { ReplayedTo K.Kind.meaning R.ResultKind.results calls.now (lists_of lists.old) (shown at.old) answers.old result (lists_of lists.new) (shown at.new) answers.new }
    ensures lent { SameLists lists.old lists.new }
    ensures lent_showing { SameShowing at.old at.new }
{
    let mut sheet = Sheet::Draft(Draft::open());
    for (i, call) in calls.iter().enumerate() {
        sheet = answer(sheet, lists, at, call, answers, i);
    }
    sheet
}

// Replays a script: from open on every call is made that the sheet's state allows, and an answer is
// written for each call, from the first place on. The sheet at the end is given back.
pub fn replay<K: Kind, R: ResultKind>(
    calls: &[Call<'_, K::Value, K::Cell, R>],
    lists: &mut Lists<'_, K, R>,
    at: &mut Showing<'_, K::Value>,
    answers: &mut [Answer<R>],
) -> Result<Sheet, ReplayFault>
    ensures replayed { Replayed K.Kind.meaning R.ResultKind.results calls.now (lists_of lists.old) (shown at.old) answers.old result (lists_of lists.new) (shown at.new) answers.new }
    ensures lent { SameLists lists.old lists.new }
    ensures lent_showing { SameShowing at.old at.new }
{
    if !lists.are_long() {
        return Err(ReplayFault::Lists);
    }
    if answers.len() < calls.len() {
        return Err(ReplayFault::Answers);
    }
    Ok(play(calls, lists, at, answers))
}
