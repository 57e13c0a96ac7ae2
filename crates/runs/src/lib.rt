// What a sheet stands for in a run of calls, and the theorems above it.
//
// The definitions are in specs/Standing. Each function below stands for a theorem: its contract is
// the statement, over every kind of condition and every kind of result, and it computes nothing.

#![tactic(auto)]

ghost use Rattle.std.specs.Prelude.{◌≡◌, true, List, []};
ghost use Rattle.items.specs.declared.Counts.{Counts};
ghost use Rattle.runs.specs.Standing.{Stands};
ghost use Rattle.tables.specs.Calls.{Call, Status, draft};
ghost use Rattle.tables.specs.Storage.{Lists, RightLengths, in_order, opened_on};

use kinds::Kind;
use results::ResultKind;

// An opened draft stands for no calls, whatever lists of right length hold.
pub fn an_opened_draft_stands_for_no_calls<K: Kind, R: ResultKind>()
    ensures { (l : Lists K.Value K.Cell R) → RightLengths l → Stands K.Kind.meaning R.ResultKind.results [] draft (opened_on l).counts l }
{}

// Of a sheet that stands for some calls, the first question of the next call is answered yes.
pub fn a_sheet_that_stands_is_in_order<K: Kind, R: ResultKind>()
    ensures { (calls : List (Call K.Value K.Cell R)) (s : Status) (n : Counts) (l : Lists K.Value K.Cell R)
        → Stands K.Kind.meaning R.ResultKind.results calls s n l → in_order K.Kind.meaning R.ResultKind.results n l ≡ true }
{}
