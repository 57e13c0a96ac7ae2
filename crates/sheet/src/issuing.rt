// Issuing a draft.
ghost use Rattle.std.specs.Prelude.{◌≡◌, true, List};
ghost use Rattle.lists.specs.Held.{SameShowing, lists_of, shown};
ghost use Rattle.runs.specs.Standing.{IssueInRun, Stands};
ghost use Rattle.sheet.specs.Issuing.{IssuedBy, counts_by, said_by, status_by};
ghost use Rattle.tables.specs.Answers.{issue_answer, issue_writes};
ghost use Rattle.tables.specs.Calls.{Call, draft};
ghost use Rattle.tables.specs.Issued.{IssuedRightly};
ghost use Rattle.tables.specs.Storage.{contents_of, in_order};

use crate::states::{Draft, Issued};
use examining::examine;
use faults::SheetFault;
use kinds::Kind;
use lists::lent::{Lists, Showing};
use results::ResultKind;

impl Draft {
    // An issued sheet and its count, or the draft and the first refusal.
    fn examined<K: Kind, R: ResultKind>(
        self,
        lists: &Lists<'_, K, R>,
        at: &mut Showing<'_, K::Value>,
    ) -> Result<(Issued, u32), (Draft, SheetFault)>
        ensures answer { IssuedBy (issue_answer K.Kind.meaning R.ResultKind.results self.counts (lists_of lists.now) (shown at.old)) self result }
        ensures left { shown at.new ≡ issue_writes K.Kind.meaning R.ResultKind.results self.counts (lists_of lists.now) (shown at.old) }
        ensures lent { SameShowing at.old at.new }
    {
        match examine(self.counts, lists, at) {
            Ok(count) => Ok((self.into_issued(), count)),
            Err(fault) => Err((self, fault)),
        }
    }

    // Turns the draft into an issued sheet and tells its count, or gives the draft back with the
    // first refusal. The encounter lists then show the earliest encounter with the fault, or the
    // least values; whatever is answered holds of all encounters in range.
    pub fn issue<K: Kind, R: ResultKind>(
        self,
        lists: &Lists<'_, K, R>,
        at: &mut Showing<'_, K::Value>,
    ) -> Result<(Issued, u32), (Draft, SheetFault)>
        ensures answer { IssuedBy (issue_answer K.Kind.meaning R.ResultKind.results self.counts (lists_of lists.now) (shown at.old)) self result }
        ensures left { shown at.new ≡ issue_writes K.Kind.meaning R.ResultKind.results self.counts (lists_of lists.now) (shown at.old) }
        ensures lent { SameShowing at.old at.new }
        ensures rightly { in_order K.Kind.meaning R.ResultKind.results self.counts (lists_of lists.now) ≡ true
            → IssuedRightly K.Kind.meaning R.ResultKind.results (contents_of self.counts (lists_of lists.now)) (shown at.old) }
        ensures in_run { (calls : List (Call K.Value K.Cell R)) → Stands K.Kind.meaning R.ResultKind.results calls draft self.counts (lists_of lists.now)
            → IssueInRun K.Kind.meaning R.ResultKind.results calls (shown at.old) (status_by result) (counts_by result) (lists_of lists.now) (shown at.new) (said_by result) }
    {
        self.examined(lists, at)
    }
}
