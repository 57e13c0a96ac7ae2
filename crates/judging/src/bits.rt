// The columns and nevers in use as a set, and the bits of a set.
ghost use Rattle.std.specs.Prelude.{◌≡◌, ◌<◌};
ghost use Rattle.judging.specs.Judged.{has as has_of};
ghost use Rattle.sets.specs.Sets.{Has, in_use as in_use_of};
ghost use Rattle.tables.specs.Storage.{Bounded};

use items::Counts;
use kinds::Kind;
use lists::view::View;

// The columns and the nevers in use.
#[tactic(auto, using(crate::proofs::SetBits::has_in_use))]
fn in_use_of(counts: Counts) -> u32
    requires { Bounded counts }
    ensures { Has result (in_use_of counts) }
{
    let columns = (1u32 << counts.columns) - 1;
    let nevers = (1u32 << counts.nevers) - 1;
    (nevers << 16) | columns
}

// The columns and the nevers in use.
pub fn in_use<K: Kind, R>(view: &View<'_, K, R>) -> u32
    ensures { Has result (in_use_of view.now.counts) }
{
    in_use_of(view.counts)
}

// Is a column, or a never, in the set?
pub(crate) fn has(set: u32, column: usize) -> bool
    requires { column < 32 }
    ensures { result ≡ has_of set column }
{
    (set >> column) & 1 == 1
}
