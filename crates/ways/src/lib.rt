// The way by sets of columns finds what the encounters made of starts, gone through one by one, would show.
//
// The function below stands for a theorem, as those of `tables` do: its contract is the statement,
// over every kind of condition and every kind of result, and it computes nothing.

#![tactic(auto)]

ghost use Rattle.std.specs.Prelude.{ℕ, List};
ghost use Rattle.items.specs.declared.Counts.{Counts};
ghost use Rattle.items.specs.declared.Entry.{Entry};
ghost use Rattle.sets.specs.declared.Mark.{Mark};
ghost use Rattle.sets.specs.declared.Span.{Span};
ghost use Rattle.tables.specs.Acceptance.{Acceptable};
ghost use Rattle.tables.specs.Contents.{Contents};
ghost use Rattle.ways.specs.Ways.{FindTheEarliest, WalksFind};

use kinds::Kind;
use results::ResultKind;

// With the marks of all starts, what is sought by what an encounter meets is first found by sets
// where it is first found among the encounters made of starts; a way by sets shows that encounter,
// or the one that it began with where there is none, and alters needed values alone.
pub fn ways_find_the_earliest<K: Kind, R: ResultKind>()
    ensures earliest { (n : Counts) (c : Contents K.Value K.Cell R) → Acceptable K.Kind.meaning R.ResultKind.results c
        → (column : ℕ → List (Entry K.Cell)) (marks : List (Mark K.Value)) (spans : List Span) → FindTheEarliest K.Kind.meaning n c column marks spans }
    ensures walks { (n : Counts) (c : Contents K.Value K.Cell R) → Acceptable K.Kind.meaning R.ResultKind.results c
        → (column : ℕ → List (Entry K.Cell)) (marks : List (Mark K.Value)) (spans : List Span) → WalksFind K.Kind.meaning n c column marks spans }
{}
