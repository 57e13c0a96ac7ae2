// What issue finds: the first question, and then the earliest encounter with a fault.

#![tactic(auto)]

ghost use Rattle.std.specs.Prelude.{◌≡◌, true};
ghost use Rattle.lists.specs.Held.{SameShowing, lists_of, shown};
ghost use Rattle.tables.specs.Answers.{issue_answer, issue_writes};
ghost use Rattle.tables.specs.Issued.{IssuedRightly};
ghost use Rattle.tables.specs.Storage.{Bounded, contents_of, in_order};

use faults::SheetFault;
use items::Counts;
use kinds::Kind;
use lists::lent::{Lists, Showing};
use results::ResultKind;
use seeking::seek::find_fault;

// The count of the sheet that the lists hold, or the first refusal, with what the encounter lists
// show then; and what that says of all encounters in range.
pub fn examine<K: Kind, R: ResultKind>(
    counts: Counts,
    lists: &Lists<'_, K, R>,
    at: &mut Showing<'_, K::Value>,
) -> Result<u32, SheetFault>
    ensures answer { Bounded counts → result ≡ issue_answer K.Kind.meaning R.ResultKind.results counts (lists_of lists.now) (shown at.old) }
    ensures left { Bounded counts → shown at.new ≡ issue_writes K.Kind.meaning R.ResultKind.results counts (lists_of lists.now) (shown at.old) }
    ensures lent { SameShowing at.old at.new }
    ensures rightly { in_order K.Kind.meaning R.ResultKind.results counts (lists_of lists.now) ≡ true
        → IssuedRightly K.Kind.meaning R.ResultKind.results (contents_of counts (lists_of lists.now)) (shown at.old) }
{
    let view = lists.checked(counts)?;
    find_fault(&view, at)
}
