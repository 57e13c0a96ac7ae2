// What a sheet means, and the theorems above the definitions.
//
// The definitions are in specs/: Contents, Acceptance, Outcomes, Starts, Issues, Lookups, Calls,
// Storage and Margins. Each function below stands for a theorem: its contract is the statement,
// over every kind of condition and every kind of result, and it computes nothing.

#![tactic(auto)]

ghost use Rattle.std.specs.Prelude.{◌≡◌, List, None, Decides};
ghost use Rattle.items.specs.declared.Counts.{Counts};
ghost use Rattle.tables.specs.Acceptance.{Acceptable, acceptable};
ghost use Rattle.tables.specs.Bridges.{StartsGoOn, CountIsProduct, Bridge, MadeOfStarts, OneByOne};
ghost use Rattle.tables.specs.Calls.{Call, Edit, asked, first_no};
ghost use Rattle.tables.specs.Contents.{Contents, Encounter};
ghost use Rattle.tables.specs.Edits.{EditedRightly};
ghost use Rattle.tables.specs.Issued.{IssuedRightly};
ghost use Rattle.tables.specs.LookedUp.{LookedUpRightly};
ghost use Rattle.tables.specs.Margins.{MarginsMean};
ghost use Rattle.tables.specs.Promises.{Makeable, StoredRightly, EveryRun};
ghost use Rattle.tables.specs.Rows.{ReadRightly};
ghost use Rattle.tables.specs.Storage.{Lists, Bounded, RightLengths, contents_of, in_order};

use kinds::Kind;
use results::ResultKind;

// A row reads the values that its mode says, and a column is met when each of its entries holds.
pub fn rows_read_rightly<K: Kind>()
    ensures { (e : Encounter K.Value) → ReadRightly K.Kind.meaning e }
{}

// The starts of a range are its least value and then the earliest stops, up to its greatest.
pub fn starts_are_the_stops<K: Kind>()
    ensures { StartsGoOn K.Kind.meaning }
{}

// Each encounter in range has the outcomes of one made of starts. Those are as many as the count,
// the product of the numbers of starts, and stand in order; the way from the least values on
// comes to all of them.
pub fn starts_stand_for_all<K: Kind, R: ResultKind>()
    ensures bridge { (c : Contents K.Value K.Cell R) → Acceptable K.Kind.meaning R.ResultKind.results c → Bridge K.Kind.meaning R.ResultKind.results c }
    ensures counted { (c : Contents K.Value K.Cell R) → Acceptable K.Kind.meaning R.ResultKind.results c → CountIsProduct K.Kind.meaning R.ResultKind.results c }
    ensures made { (c : Contents K.Value K.Cell R) → Acceptable K.Kind.meaning R.ResultKind.results c → MadeOfStarts K.Kind.meaning R.ResultKind.results c }
    ensures examined { (c : Contents K.Value K.Cell R) → Acceptable K.Kind.meaning R.ResultKind.results c → OneByOne K.Kind.meaning R.ResultKind.results c }
{}

// Issue tells the truth of all encounters in range, and leaves in the encounter lists what it should.
pub fn issue_answers_rightly<K: Kind, R: ResultKind>()
    ensures { (c : Contents K.Value K.Cell R) → Acceptable K.Kind.meaning R.ResultKind.results c
        → (lent : Encounter K.Value) → IssuedRightly K.Kind.meaning R.ResultKind.results c lent }
{}

// Look-up tells the truth of an encounter, whatever the sheet.
pub fn look_up_answers_rightly<K: Kind, R: ResultKind>()
    ensures { (c : Contents K.Value K.Cell R) (e : Encounter K.Value) → LookedUpRightly K.Kind.meaning R.ResultKind.results c e }
{}

// An edit changes its item and nothing else.
pub fn edits_change_their_item<K: Kind, R: ResultKind>()
    ensures { (k : Edit K.Value K.Cell R) (c : Contents K.Value K.Cell R) → EditedRightly K.Kind.meaning R.ResultKind.results k c }
{}

// What an accepted edit writes into counts and lists holds the edited contents.
pub fn edits_are_stored_rightly<K: Kind, R: ResultKind>()
    ensures { (k : Edit K.Value K.Cell R) (n : Counts) (l : Lists K.Value K.Cell R) → Bounded n → RightLengths l
        → first_no (asked K.Kind.meaning R.ResultKind.results k (contents_of n l)) ≡ None → StoredRightly k n l }
{}

// The first question of every call, as a test of contents, and of counts and lists. What it
// accepts is just what calls can make.
pub fn first_question_is_decided<K: Kind, R: ResultKind>()
    ensures contents { (c : Contents K.Value K.Cell R) → Decides (acceptable K.Kind.meaning R.ResultKind.results c) (Acceptable K.Kind.meaning R.ResultKind.results c) }
    ensures lists { (n : Counts) (l : Lists K.Value K.Cell R) → Decides (in_order K.Kind.meaning R.ResultKind.results n l) (RightLengths l × Acceptable K.Kind.meaning R.ResultKind.results (contents_of n l)) }
    ensures makeable { (c : Contents K.Value K.Cell R) → Acceptable K.Kind.meaning R.ResultKind.results c → Makeable K.Kind.meaning R.ResultKind.results c }
{}

// The law over runs.
pub fn every_run_is_right<K: Kind, R: ResultKind>()
    ensures { (calls : List (Call K.Value K.Cell R)) → EveryRun K.Kind.meaning R.ResultKind.results calls }
{}

// The margins are the same with the flights exchanged, and tell whether a minimum is kept.
pub fn margins_mean_what_they_say()
    ensures { MarginsMean }
{}
