// How many encounters are made of starts, as far as issue wants to know.
//
// A quantity and its number are two parameters, as `enumerate` gives them, and the view is a third: a
// struct of them would be made for each quantity and taken apart in each function.
ghost use Rattle.std.specs.Prelude.{◌≡◌, ◌+◌, ◌*◌, ◌≤◌, min};
ghost use Rattle.lists.specs.Held.{seen};
ghost use Rattle.starts.specs.Counted.{starts_of, within_limit};
ghost use Rattle.tables.specs.Bridges.{taken};
ghost use Rattle.tables.specs.Starts.{count as count_of};

use crate::next::next_start;
use items::{Quantity, Scope};
use kinds::Kind;
use lists::view::View;
use results::ResultKind;
use std::iter::successors;

// The greatest count that a sheet may have.
pub const LIMIT: u32 = 1_048_576;

// The number of starts of a quantity, or one more than `most` if there are more than that.
fn starts_up_to<K: Kind, R: ResultKind>(
    view: &View<'_, K, R>,
    i: usize,
    q: Quantity<K::Value>,
    most: u32,
) -> u32
    requires { most ≤ 1048576 }
    ensures { result ≡ min (starts_of K.Kind.meaning (seen view.now) i q.least q.greatest) (most + 1) }
{
    let starts = successors(Some(q.least), |at| next_start(view, i, q.greatest, *at));
    starts.take(most as usize + 1).count() as u32
}

// A product with the number of starts of one more place, unless it passes the limit.
fn times_starts<K: Kind, R: ResultKind>(
    view: &View<'_, K, R>,
    i: usize,
    q: Quantity<K::Value>,
    product: u32,
) -> Option<u32>
    requires { product ≤ 1048576 }
    ensures { result ≡ within_limit (product * starts_of K.Kind.meaning (seen view.now) i q.least q.greatest) }
{
    if product == 0 {
        return Some(0);
    }
    let most = LIMIT / product;
    let n = starts_up_to(view, i, q, most);
    if n > most {
        return None;
    }
    Some(product * n)
}

// A product with the numbers of starts of the places of one more quantity: of a flight quantity twice.
// A `match` on the scope, since each function that has one does another thing with it.
fn times_quantity<K: Kind, R: ResultKind>(
    view: &View<'_, K, R>,
    i: usize,
    q: Quantity<K::Value>,
    product: u32,
) -> Option<u32>
    requires { product ≤ 1048576 }
    ensures { result ≡ within_limit (product * taken q.scope (starts_of K.Kind.meaning (seen view.now) i q.least q.greatest)) }
{
    let once = times_starts(view, i, q, product)?;
    match q.scope {
        Scope::Flight => times_starts(view, i, q, once),
        Scope::Pair => Some(once),
    }
}

// The product of the numbers of starts, each flight quantity taken twice, if it is within the
// limit. Counting stops as soon as the limit is passed.
pub fn count<K: Kind, R: ResultKind>(view: &View<'_, K, R>) -> Option<u32>
    ensures { result ≡ within_limit (count_of K.Kind.meaning (seen view.now)) }
{
    let mut product = 1;
    for (i, q) in view.quantities_in_use().iter().enumerate() {
        product = times_quantity(view, i, *q, product)?;
    }
    Some(product)
}
