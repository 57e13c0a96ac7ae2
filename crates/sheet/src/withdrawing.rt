// Withdrawing an issued sheet.
ghost use Rattle.std.specs.Prelude.{List};
ghost use Rattle.lists.specs.Held.{lists_of};
ghost use Rattle.runs.specs.Standing.{Stands, WithdrawInRun};
ghost use Rattle.sheet.specs.Withdrawn.{Withdrawn, counts_by, refusal_by, status_by};
ghost use Rattle.tables.specs.Calls.{Call, issued};
ghost use Rattle.tables.specs.Storage.{in_order};

use crate::states::{Draft, Issued};
use faults::SheetFault;
use kinds::Kind;
use lists::lent::Lists;
use results::ResultKind;

impl Issued {
    // The draft, where the first question is answered yes.
    fn freed<K: Kind, R: ResultKind>(
        self,
        lists: &Lists<'_, K, R>,
    ) -> Result<Draft, (Issued, SheetFault)>
        ensures { Withdrawn (in_order K.Kind.meaning R.ResultKind.results self.counts (lists_of lists.now)) self result }
    {
        if lists.in_order(self.counts) {
            Ok(self.into_draft())
        } else {
            Err((self, SheetFault::Lists))
        }
    }

    // Gives the draft with the same contents; where the first question is answered no, the issued
    // sheet comes back. In a run of calls that never happens.
    pub fn withdraw<K: Kind, R: ResultKind>(
        self,
        lists: &Lists<'_, K, R>,
    ) -> Result<Draft, (Issued, SheetFault)>
        ensures answer { Withdrawn (in_order K.Kind.meaning R.ResultKind.results self.counts (lists_of lists.now)) self result }
        ensures in_run { (calls : List (Call K.Value K.Cell R)) → Stands K.Kind.meaning R.ResultKind.results calls issued self.counts (lists_of lists.now)
            → WithdrawInRun K.Kind.meaning R.ResultKind.results calls (status_by result) (counts_by result) (lists_of lists.now) (refusal_by result) }
    {
        self.freed(lists)
    }
}
