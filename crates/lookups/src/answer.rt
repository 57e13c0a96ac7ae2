// What a look-up answers.
ghost use Rattle.std.specs.Prelude.{◌≡◌, OnOk};
ghost use Rattle.lists.specs.Held.{encounter_of, lists_of, seen};
ghost use Rattle.lookups.specs.Steps.{asked_from, before, outcome_told};
ghost use Rattle.outcomes.specs.Meant.{outcome_of};
ghost use Rattle.tables.specs.Answers.{look_up_answer};
ghost use Rattle.tables.specs.Lookups.{look_up, told};
ghost use Rattle.tables.specs.Outcomes.{outcome as outcome_in};
ghost use Rattle.tables.specs.Storage.{Bounded};

use crate::range::ask_all;
use faults::{LookupFault, SheetFault};
use items::Counts;
use kinds::Kind;
use lists::lent::{Encounter, Lists};
use lists::view::View;
use outcomes::judge::outcome;
use outcomes::outcome::Outcome;
use results::ResultKind;

// The result of an outcome, or why there is none.
fn result_of<R: ResultKind>(outcome: Outcome<R>) -> Result<R, LookupFault>
    ensures { result ≡ outcome_told (outcome_of outcome) }
{
    match outcome {
        Outcome::Barred => Err(LookupFault::Barred),
        Outcome::Gap => Err(LookupFault::Gap),
        Outcome::Clash { .. } => Err(LookupFault::Clash),
        Outcome::Answer(result) => Ok(result),
    }
}

// The result for an encounter, or why there is none.
fn result<K: Kind, R: ResultKind>(
    view: &View<'_, K, R>,
    e: &Encounter<'_, K::Value>,
) -> Result<R, LookupFault>
    ensures { result ≡ before (asked_from K.Kind.meaning (encounter_of e.now) 0 (seen view.now).quantities) (outcome_told (outcome_in K.Kind.meaning R.ResultKind.results (seen view.now) (encounter_of e.now))) }
{
    ask_all(view, e)?;
    result_of(outcome(view, e))
}

// The answer of a sheet whose lists are in order.
fn answer<K: Kind, R: ResultKind>(
    view: &View<'_, K, R>,
    e: &Encounter<'_, K::Value>,
) -> Result<R, SheetFault>
    ensures { result ≡ told (look_up K.Kind.meaning R.ResultKind.results (seen view.now) (encounter_of e.now)) }
{
    if !e.is_whole() {
        return Err(SheetFault::EncounterLists);
    }
    Ok(result(view, e)?)
}

// The answer from counts and lists, whatever the lists hold. Counts that no sheet can have are refused.
pub fn look_up_in<K: Kind, R: ResultKind>(
    counts: Counts,
    lists: &Lists<'_, K, R>,
    e: &Encounter<'_, K::Value>,
) -> Result<R, SheetFault>
    ensures answer { Bounded counts → result ≡ look_up_answer K.Kind.meaning R.ResultKind.results counts (lists_of lists.now) (encounter_of e.now) }
    ensures few { OnOk result (Bounded counts) }
{
    answer(&lists.checked(counts)?, e)
}
