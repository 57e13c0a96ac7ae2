// Seeking one by one, for a sheet of more starts than are marked.
ghost use Rattle.std.specs.Prelude.{◌≡◌, true, length};
ghost use Rattle.lists.specs.Held.{SameShowing, seen, shown};
ghost use Rattle.seeking.specs.Seeks.{Ended, Sought, TellsOf, Tests};
ghost use Rattle.tables.specs.Acceptance.{Acceptable};
ghost use Rattle.tables.specs.Contents.{places, whole};
ghost use Rattle.tables.specs.Starts.{count as count_of, remaining, reset as reset_of};
ghost use Rattle.walking.specs.Sought.{Answers};

use judging::met::met_at;
use kinds::Kind;
use lists::lent::{Encounter, Showing};
use lists::view::View;
use results::ResultKind;
use sets::Met;
use turning::odometer::{reset, turn};

// Goes on from the encounter shown, of which and after which there are `count` in all, to the
// earliest one that is sought; where there is none, the needed values are at their least.
fn seek_on<K: Kind, R: ResultKind, F: Fn(&Encounter<'_, K::Value>) -> bool>(
    view: &View<'_, K, R>,
    count: u32,
    is_sought: F,
    at: &mut Showing<'_, K::Value>,
) -> bool
    requires { F.IsAlwaysCallable is_sought }
    ensures after { (sought : _) → Tests F.Fn is_sought sought
        → Acceptable K.Kind.meaning R.ResultKind.results (seen view.now) → whole (shown at.old) ≡ true
        → length (remaining K.Kind.meaning (seen view.now) (places (seen view.now)) (shown at.old)) ≡ count
        → Ended K.Kind.meaning (seen view.now) sought
        (remaining K.Kind.meaning (seen view.now) (places (seen view.now)) (shown at.old))
        (reset_of K.Kind.meaning (seen view.now) (places (seen view.now)) (shown at.old)) result (shown at.new) }
    ensures lent { SameShowing at.old at.new }
{
    // a count with no index: it bounds the way, so that the loop ends
    for _ in 0..count {
        if is_sought(&at.encounter()) {
            return true;
        }
        if !turn(view, at) {
            return false;
        }
    }
    false
}

// Shows the earliest encounter made of starts that is sought, of `count` in all; where there is
// none, the needed values are at their least. Those made of starts are the same for all encounters
// with the same other values.
pub(crate) fn seek_one_by_one<K: Kind, R: ResultKind, F: Fn(Met) -> bool>(
    view: &View<'_, K, R>,
    count: u32,
    is_sought: &F,
    at: &mut Showing<'_, K::Value>,
) -> bool
    requires { F.IsAlwaysCallable is_sought.now }
    ensures after { count ≡ count_of K.Kind.meaning (seen view.now) → (g f : _) → Answers F.Fn is_sought.now g
        → TellsOf K.Kind.meaning view.now g f → Sought K.Kind.meaning R.ResultKind.results (seen view.now) f (shown at.old) result (shown at.new) }
    ensures lent { SameShowing at.old at.new }
{
    reset(view, at);
    seek_on(view, count, |e| is_sought(met_at(view, e)), at)
}
