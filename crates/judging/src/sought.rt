// What issue seeks among encounters, told from what they meet. Each has a name, so that its contract
// says what.
ghost use Rattle.std.specs.Prelude.{◌≡◌, not};
ghost use Rattle.judging.specs.Judged.{MeetsBoth, Unlike, asymmetry_by, clash_by, fault_by, gap_by, open_by, set_outcome};
ghost use Rattle.judging.specs.Sought.{asymmetry_in, clash_in, fault_in, gap_in, open_in};
ghost use Rattle.lists.specs.Held.{seen};
ghost use Rattle.outcomes.specs.Meant.{outcome_of};
ghost use Rattle.tables.specs.Contents.{exchange};
ghost use Rattle.tables.specs.Outcomes.{alike, outcome as outcome_in};

use crate::judge::Judge;
use kinds::Kind;
use outcomes::outcome::Outcome;
use results::ResultKind;
use sets::Met;

impl<'a, K: Kind, R: ResultKind> Judge<'a, K, R> {
    // Is the encounter not barred?
    pub fn is_open(&self, met: Met) -> bool
        ensures told { result ≡ open_by R.ResultKind.results self.now met }
        ensures means { Unlike R.ResultKind.results self.now → (e : _) → MeetsBoth K.Kind.meaning self.now.view.now met e
            → result ≡ open_in K.Kind.meaning R.ResultKind.results (seen self.now.view.now) e }
    {
        !self.outcome(met.here).is_barred()
    }

    // Does it meet no column, without a default?
    pub fn is_gap(&self, met: Met) -> bool
        ensures told { result ≡ gap_by R.ResultKind.results self.now met }
        ensures means { Unlike R.ResultKind.results self.now → (e : _) → MeetsBoth K.Kind.meaning self.now.view.now met e
            → result ≡ gap_in K.Kind.meaning R.ResultKind.results (seen self.now.view.now) e }
    {
        self.outcome(met.here).is_gap()
    }

    // Do two columns that it meets have unequal results?
    pub fn is_clash(&self, met: Met) -> bool
        ensures told { result ≡ clash_by R.ResultKind.results self.now met }
        ensures means { Unlike R.ResultKind.results self.now → (e : _) → MeetsBoth K.Kind.meaning self.now.view.now met e
            → result ≡ clash_in K.Kind.meaning R.ResultKind.results (seen self.now.view.now) e }
    {
        self.outcome(met.here).is_clash()
    }

    // Does the outcome with the flights exchanged differ from the one given?
    fn differs_exchanged(&self, here: Outcome<R>, met: Met) -> bool
        ensures told { result ≡ not (alike R.ResultKind.results (outcome_of here) (set_outcome R.ResultKind.results self.now met.exchanged)) }
        ensures means { Unlike R.ResultKind.results self.now → (e : _) → MeetsBoth K.Kind.meaning self.now.view.now met e
            → result ≡ not (alike R.ResultKind.results (outcome_of here) (outcome_in K.Kind.meaning R.ResultKind.results (seen self.now.view.now) (exchange (seen self.now.view.now) e))) }
    {
        !here.is_like(self.outcome(met.exchanged))
    }

    // Does its outcome differ from that with the flights exchanged? Not where both meet the same.
    pub fn is_asymmetric(&self, met: Met) -> bool
        ensures told { result ≡ asymmetry_by R.ResultKind.results self.now met }
        ensures means { Unlike R.ResultKind.results self.now → (e : _) → MeetsBoth K.Kind.meaning self.now.view.now met e
            → result ≡ asymmetry_in K.Kind.meaning R.ResultKind.results (seen self.now.view.now) e }
    {
        met.here != met.exchanged && self.differs_exchanged(self.outcome(met.here), met)
    }

    // Is it a gap, a clash or an asymmetry?
    pub fn is_faulty(&self, met: Met) -> bool
        ensures told { result ≡ fault_by R.ResultKind.results self.now met }
        ensures means { Unlike R.ResultKind.results self.now → (e : _) → MeetsBoth K.Kind.meaning self.now.view.now met e
            → result ≡ fault_in K.Kind.meaning R.ResultKind.results (seen self.now.view.now) e }
    {
        let here = self.outcome(met.here);
        here.is_gap()
            || here.is_clash()
            || (met.here != met.exchanged && self.differs_exchanged(here, met))
    }
}
