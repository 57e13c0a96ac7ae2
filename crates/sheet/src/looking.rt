// Looking up in an issued sheet.
ghost use Rattle.std.specs.Prelude.{◌≡◌, List};
ghost use Rattle.lists.specs.Held.{encounter_of, lists_of};
ghost use Rattle.runs.specs.Standing.{LookUpInRun, Stands};
ghost use Rattle.tables.specs.Answers.{look_up_answer};
ghost use Rattle.tables.specs.Calls.{Call, issued};
ghost use Rattle.tables.specs.LookedUp.{LookedUpRightly};
ghost use Rattle.tables.specs.Storage.{contents_of};

use crate::states::Issued;
use faults::SheetFault;
use kinds::Kind;
use lists::lent::{Encounter, Lists};
use lookups::answer::look_up_in;
use results::ResultKind;

impl Issued {
    // The result for an encounter, or why there is none. Nothing is written.
    pub fn look_up<K: Kind, R: ResultKind>(
        &self,
        lists: &Lists<'_, K, R>,
        e: &Encounter<'_, K::Value>,
    ) -> Result<R, SheetFault>
        ensures answer { result ≡ look_up_answer K.Kind.meaning R.ResultKind.results self.now.counts (lists_of lists.now) (encounter_of e.now) }
        ensures rightly { LookedUpRightly K.Kind.meaning R.ResultKind.results (contents_of self.now.counts (lists_of lists.now)) (encounter_of e.now) }
        ensures in_run { (calls : List (Call K.Value K.Cell R)) → Stands K.Kind.meaning R.ResultKind.results calls issued self.now.counts (lists_of lists.now)
            → LookUpInRun K.Kind.meaning R.ResultKind.results calls (encounter_of e.now) self.now.counts (lists_of lists.now) result }
    {
        look_up_in(self.counts, lists, e)
    }
}
