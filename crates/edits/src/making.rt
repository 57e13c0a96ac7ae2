// Making an edit: its questions first, and then what it writes.
ghost use Rattle.std.specs.Prelude.{◌≡◌, IfOk, OnErr, OnOk};
ghost use Rattle.edits.specs.Meant.{EditLeaves, edit_of, given, ok_or, told};
ghost use Rattle.lists.specs.Held.{SameLists, lists_of};
ghost use Rattle.tables.specs.Answers.{edit_answer};
ghost use Rattle.tables.specs.Storage.{Bounded, counts_after};

use crate::edit::Edit;
use crate::questions::ask;
use crate::writes::{count, write};
use faults::SheetFault;
use items::Counts;
use kinds::Kind;
use lists::lent::Lists;
use results::ResultKind;

// The first question of every call, and then those of the edit.
fn permitted<K: Kind, R: ResultKind>(
    counts: Counts,
    lists: &Lists<'_, K, R>,
    edit: Edit<K::Value, K::Cell, R>,
) -> Result<(), SheetFault>
    ensures answer { Bounded counts → result ≡ told (edit_answer K.Kind.meaning R.ResultKind.results counts (lists_of lists.now) (edit_of edit)) }
    ensures few { OnOk result (Bounded counts) }
{
    let view = lists.checked(counts)?;
    ask(&view, edit)
}

// Makes an edit: how much of the lists is in use after it, or the first refusal, with nothing
// written. Counts that no draft can have are refused.
pub fn make<K: Kind, R: ResultKind>(
    counts: Counts,
    lists: &mut Lists<'_, K, R>,
    edit: Edit<K::Value, K::Cell, R>,
) -> Result<Counts, SheetFault>
    ensures answer { Bounded counts → result ≡ given (edit_answer K.Kind.meaning R.ResultKind.results counts (lists_of lists.old) (edit_of edit)) (counts_after (edit_of edit) counts) }
    ensures left { Bounded counts → EditLeaves K.Kind.meaning R.ResultKind.results (edit_of edit) counts (lists_of lists.old) (ok_or result counts) (lists_of lists.new) }
    ensures few { IfOk result (λ n. Bounded n) }
    ensures refused { OnOk result (Bounded counts) }
    ensures kept { OnErr result (lists_of lists.new ≡ lists_of lists.old) }
    ensures lent { SameLists lists.old lists.new }
{
    permitted(counts, lists, edit)?;
    write(counts, lists, edit);
    Ok(count(counts, &edit))
}
