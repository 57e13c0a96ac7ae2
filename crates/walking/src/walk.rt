// The way through the encounters made of the starts of some quantities, to the earliest one whose
// sets are sought.
ghost use Rattle.std.specs.Prelude.{◌≡◌, ◌↔◌, IsTrue};
ghost use Rattle.std.specs.List.{between};
ghost use Rattle.lists.specs.Held.{SameShowing, shown};
ghost use Rattle.sets.specs.Walks.{Walked, put_pair};
ghost use Rattle.walking.specs.Sought.{Answers};

use crate::narrow::narrowed;
use crate::pairs::Pairs;
use items::{Scope, Side};
use lists::lent::Showing;
use sets::{Mark, Met, Span};

// The marks of a quantity; where the span reaches past the list, those that there are.
fn marks_of<'a, V>(marks: &'a [Mark<V>], span: Span) -> &'a [Mark<V>]
    ensures { result.now ≡ between span.from span.to marks.now }
{
    marks
        .get(span.from..span.to.min(marks.len()))
        .unwrap_or(&[])
}

// Puts the values of two marks into the lists.
fn put_pair<V: Copy>(span: Span, x: &Mark<V>, y: &Mark<V>, at: &mut Showing<'_, V>)
    ensures after { shown at.new ≡ put_pair span.scope span.quantity (x.now, y.now) (shown at.old) }
    ensures lent { SameShowing at.old at.new }
{
    match span.scope {
        Scope::Flight => {
            at.put(Side::OfA, span.quantity, x.value);
            at.put(Side::OfB, span.quantity, y.value);
        }
        Scope::Pair => at.put(Side::OfPair, span.quantity, x.value),
    }
}

// Are the sets those of the pair before?
fn is_same(last: Option<Met>, next: Met) -> bool
    ensures { IsTrue result ↔ last ≡ Some next }
{
    last == Some(next)
}

// Is there an encounter made of the starts of the spans that is sought? The earliest one is put
// into the lists, and where there is none they stay as they are.
pub fn walk<V: Copy, F: Fn(Met) -> bool>(
    marks: &[Mark<V>],
    spans: &[Span],
    met: Met,
    is_sought: &F,
    at: &mut Showing<'_, V>,
) -> bool
    requires { F.IsAlwaysCallable is_sought.now }
    ensures walked { (sought : _) → Answers F.Fn is_sought.now sought
        → Walked sought marks.now spans.now met (shown at.old) result (shown at.new) }
    ensures lent { SameShowing at.old at.new }
{
    let Some((span, rest)) = spans.split_first() else {
        return is_sought(met);
    };
    let mut last = None;
    for (x, y) in Pairs::new(span.scope, marks_of(marks, *span)) {
        let next = narrowed(x, y, met);
        // below the same sets as those of the pair before nothing is sought either
        if is_same(last, next) {
            continue;
        }
        if walk(marks, rest, next, is_sought, at) {
            put_pair(*span, x, y, at);
            return true;
        }
        last = Some(next);
    }
    false
}
