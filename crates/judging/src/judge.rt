// The outcome of an encounter, told from the set of columns and nevers that it meets.
ghost use Rattle.std.specs.Prelude.{◌≡◌, ◌<◌, IfSome};
ghost use Rattle.judging.specs.Judged.{Meets, Unlike, columns_outcome, lowest_in, results_of, set_outcome};
ghost use Rattle.lists.specs.Held.{seen};
ghost use Rattle.outcomes.specs.Meant.{outcome_of};
ghost use Rattle.std.specs.List.{slice_get};
ghost use Rattle.tables.specs.Outcomes.{clash_or_answer as clash_or_answer_of, outcome as outcome_in};

use crate::unlike::unlike_table;
use kinds::Kind;
use lists::view::View;
use outcomes::judge::unmet;
use outcomes::outcome::Outcome;
use results::ResultKind;

// The bits of the columns, and of the nevers.
const COLUMNS: u32 = 0xffff;

const NEVERS: u32 = 0xff_0000;

// A sheet, and which of its results are unequal: bit k of `unlike[j]` says that those of columns j and
// k are, where both are in use.
#[derive(Drop)]
pub struct Judge<'a, K: Kind, R> {
    pub view: &'a View<'a, K, R>,
    pub unlike: [u32; 16],
}

// What the lowest column met gives, with those met whose results are unequal to its result.
fn clash_or_answer<R: ResultKind>(lowest: usize, res: R, unlike: u32) -> Outcome<R>
    ensures { outcome_of result ≡ clash_or_answer_of R.ResultKind.results (lowest, res) (lowest_in unlike) }
{
    if unlike == 0 {
        Outcome::Answer(res)
    } else {
        Outcome::Clash {
            lowest,
            other: unlike.trailing_zeros() as usize,
        }
    }
}

impl<'a, K: Kind, R: ResultKind> Judge<'a, K, R> {
    // A judge of the sheet. All results are compared here, and none later.
    pub fn new(view: &'a View<'a, K, R>) -> Judge<'a, K, R>
        ensures shows { result.view.now ≡ view.now }
        ensures unlike { Unlike R.ResultKind.results result }
    {
        Judge {
            view,
            unlike: unlike_table(view.results_in_use()),
        }
    }

    // The result of a column, if it is in use.
    fn result(&self, column: usize) -> Option<R>
        ensures value { result ≡ slice_get (results_of self.now) column }
        ensures in_use { IfSome result (λ _. column < self.now.view.now.counts.columns) }
    {
        self.view.results_in_use().get(column).copied()
    }

    // What a set of columns gives. Of the empty set the lowest number is 32, which no column has.
    fn columns_outcome(&self, columns: u32) -> Outcome<R>
        ensures { outcome_of result ≡ columns_outcome R.ResultKind.results self.now columns }
    {
        let lowest = columns.trailing_zeros() as usize;
        match self.result(lowest) {
            Some(res) => clash_or_answer(lowest, res, columns & self.unlike[lowest]),
            None => unmet(self.view),
        }
    }

    // What a set of columns and nevers gives.
    fn set_outcome(&self, set: u32) -> Outcome<R>
        ensures { outcome_of result ≡ set_outcome R.ResultKind.results self.now set }
    {
        if set & NEVERS == 0 {
            self.columns_outcome(set & COLUMNS)
        } else {
            Outcome::Barred
        }
    }

    // What the sheet says of an encounter that meets the set.
    pub fn outcome(&self, set: u32) -> Outcome<R>
        ensures told { outcome_of result ≡ set_outcome R.ResultKind.results self.now set }
        ensures means { Unlike R.ResultKind.results self.now → (e : _) → Meets K.Kind.meaning self.now.view.now set e
            → outcome_of result ≡ outcome_in K.Kind.meaning R.ResultKind.results (seen self.now.view.now) e }
    {
        self.set_outcome(set)
    }
}
