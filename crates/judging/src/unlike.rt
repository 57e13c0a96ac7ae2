// Which results of a sheet are unequal.
ghost use Rattle.std.specs.Prelude.{◌≡◌, ℕ, ◌<◌, ◌≤◌, not, length, slice_index_or};
ghost use Rattle.judging.specs.Judged.{UnlikeTable};
ghost use Rattle.sets.specs.Sets.{bit};
ghost use Rattle.std.specs.Int.{bit_at};

use results::ResultKind;

// Do two results mean different things?
fn differ<R: ResultKind>(a: R, b: R) -> bool
    ensures { result ≡ not (R.ResultKind.results.same a b) }
{
    !a.same(b)
}

// The numbers of the results that are unequal to the given one, one bit each.
fn unlike<R: ResultKind>(results: &[R], res: R) -> u32
    requires { length results.now ≤ 16 }
    ensures { (k : ℕ) → k < length results.now → bit_at result k ≡ bit (not (R.ResultKind.results.same res (slice_index_or results.now k res))) }
{
    let mut set = 0;
    for (k, other) in results.iter().enumerate() {
        if differ(res, *other) {
            set |= 1 << k;
        }
    }
    set
}

// Of each result, the numbers of those that are unequal to it.
pub(crate) fn unlike_table<R: ResultKind>(results: &[R]) -> [u32; 16]
    requires { length results.now ≤ 16 }
    ensures { UnlikeTable R.ResultKind.results results.now result }
{
    let mut table = [0; 16];
    for (j, res) in results.iter().enumerate() {
        table[j] = unlike(results, *res);
    }
    table
}
