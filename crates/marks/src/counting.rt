// How many encounters are made of starts, where the starts are marked.
ghost use Rattle.std.specs.Prelude.{◌≡◌, ◌-◌, ◌*◌, ◌≤◌, List, length, take};
ghost use Rattle.lists.specs.Held.{seen};
ghost use Rattle.sets.specs.Marks.{AllSpanned};
ghost use Rattle.sets.specs.declared.Mark.{Mark};
ghost use Rattle.starts.specs.Counted.{within_limit};
ghost use Rattle.tables.specs.Bridges.{taken};
ghost use Rattle.tables.specs.Starts.{count as count_of};
ghost use Rattle.tables.specs.Storage.{column_of};

use items::Scope;
use kinds::Kind;
use lists::view::View;
use results::ResultKind;
use sets::Span;
use starts::count::LIMIT;

// A product with one more factor, unless it passes the limit.
fn times(product: u32, n: usize) -> Option<u32>
    requires { product ≤ 1048576 }
    ensures { result ≡ within_limit (product * n) }
{
    if product == 0 {
        return Some(0);
    }
    let most = LIMIT / product;
    if n > most as usize {
        return None;
    }
    Some(product * n as u32)
}

// A product with the number of marks of one more quantity, that of a flight quantity twice.
fn times_marks(product: u32, span: Span) -> Option<u32>
    requires { product ≤ 1048576 }
    ensures { result ≡ within_limit (product * taken span.scope (span.to - span.from)) }
{
    let n = span.to.saturating_sub(span.from);
    let once = times(product, n)?;
    match span.scope {
        Scope::Flight => times(once, n),
        Scope::Pair => Some(once),
    }
}

// The number of encounters made of starts, if it is within the limit, where the spans are those of the
// marks of all starts: the product of the numbers of marks, each flight quantity's taken twice.
pub fn count_marked<K: Kind, R: ResultKind>(view: &View<'_, K, R>, spans: &[Span]) -> Option<u32>
    ensures { (marks : List (Mark K.Value))
        → AllSpanned K.Kind.meaning (seen view.now) (λ k. column_of view.now.entries.now view.now.counts.rows k) marks 0
        (seen view.now).quantities (take (length (seen view.now).quantities) spans.now)
        → result ≡ within_limit (count_of K.Kind.meaning (seen view.now)) }
{
    let in_use = view.counts.quantities.min(spans.len());
    let mut product = 1;
    for span in &spans[..in_use] {
        product = times_marks(product, *span)?;
    }
    Some(product)
}
