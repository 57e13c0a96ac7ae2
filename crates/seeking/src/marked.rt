// Seeking by the marks of the starts.
ghost use Rattle.std.specs.Prelude.{◌≡◌};
ghost use Rattle.lists.specs.Held.{SameShowing, seen, shown};
ghost use Rattle.ways.specs.Ways.{AllInUse};
ghost use Rattle.seeking.specs.Seeks.{Sought, SpannedBy, TellsOf};
ghost use Rattle.walking.specs.Sought.{Answers};

use judging::bits::in_use;
use kinds::Kind;
use lists::lent::Showing;
use lists::view::View;
use results::ResultKind;
use sets::{Mark, Met, Span};
use turning::odometer::reset;
use walking::walk::walk;

// What an encounter meets before any of its values is known: all columns and nevers in use.
fn all_in_use<K: Kind, R>(view: &View<'_, K, R>) -> Met
    ensures { AllInUse view.now.counts result }
{
    let in_use = in_use(view);
    Met {
        here: in_use,
        exchanged: in_use,
    }
}

// Shows the earliest encounter made of starts that is sought; where there is none, the needed values
// are at their least.
pub(crate) fn seek_by_marks<K: Kind, R: ResultKind, F: Fn(Met) -> bool>(
    view: &View<'_, K, R>,
    marks: &[Mark<K::Value>],
    spans: &[Span],
    is_sought: &F,
    at: &mut Showing<'_, K::Value>,
) -> bool
    requires { F.IsAlwaysCallable is_sought.now }
    ensures after { SpannedBy K.Kind.meaning view.now marks.now spans.now → (g f : _) → Answers F.Fn is_sought.now g
        → TellsOf K.Kind.meaning view.now g f → Sought K.Kind.meaning R.ResultKind.results (seen view.now) f (shown at.old) result (shown at.new) }
    ensures lent { SameShowing at.old at.new }
{
    if walk(marks, spans, all_in_use(view), is_sought, at) {
        return true;
    }
    reset(view, at);
    false
}
