// The margins of two flights over their minima, for any numbers whatever: none can overflow. Two fixes
// and not `Flights`: what flights share plays no part in three of the margins.
ghost use Rattle.std.specs.Prelude.{◌≡◌, neg_ℤ, pos, negsuc, ◌-ℤ◌, ◌*ℤ◌, ◌≤ℤ◌};
ghost use Rattle.tables.specs.Margins.{difference, lateral_margin, margin_at, minutes_after, opposite_margin, same_margin, vertical_margin};

use fixes::fix::{Fix, Passing};
use results::figure::Figure;
use results::period::Period;

// Differences are absolute.
fn apart(a: i32, b: i32) -> u32
    ensures { pos result ≡ difference a b }
{
    a.abs_diff(b)
}

// A difference over a minimum. ONE and LEAST are what one of the difference and one of the minimum
// come to in the margin's unit.
fn over<const ONE: u8, const LEAST: u8>(apart: u32, least: Figure) -> i64
    ensures { result ≡ (pos ONE *ℤ pos apart) -ℤ (pos LEAST *ℤ least.value) }
{
    i64::from(ONE) * i64::from(apart) - i64::from(LEAST) * i64::from(least.value)
}

// The levels in hundreds of feet, over a minimum in feet.
pub fn vertical(a: Fix, b: Fix, least: Figure) -> i64
    ensures { result ≡ vertical_margin a.level b.level least.value }
{
    over::<100, 1>(apart(a.level, b.level), least)
}

// The lateral positions in tenths of a nautical mile, over a minimum in nautical miles.
pub fn lateral(a: Fix, b: Fix, least: Figure) -> i64
    ensures { result ≡ lateral_margin a.lateral b.lateral least.value }
{
    over::<1, 10>(apart(a.lateral, b.lateral), least)
}

// The times over the common point in seconds, over a minimum in minutes.
pub fn in_trail(a: Fix, b: Fix, least: Figure) -> i64
    ensures { result ≡ same_margin a.time b.time least.value }
{
    over::<1, 60>(apart(a.time, b.time), least)
}

// A time over a period that begins after so many seconds and ended so many seconds ago: before it
// and after it the seconds between, with neither end; inside it, as a number below 0, how deep.
fn over_period(before: i64, after: i64) -> i64
    requires before_bound { negsuc 274877906944 ≤ℤ before }
    requires after_bound { negsuc 274877906944 ≤ℤ after }
    ensures { result ≡ margin_at before (neg_ℤ after) (pos 0) }
{
    if 0 < before {
        before - 1
    } else {
        before.max(after) - 1
    }
}

// So many minutes after a time in seconds.
fn minutes_after(time: i32, minutes: i32) -> i64
    ensures is { result ≡ minutes_after time minutes }
    ensures small { result ≤ℤ pos 137438953472 }
    ensures large { negsuc 137438953471 ≤ℤ result }
{
    i64::from(time) + 60 * i64::from(minutes)
}

// The time asked about, over the period of minutes about the passing time.
pub fn in_opposition(passing: Passing, about: Period) -> i64
    ensures { result ≡ opposite_margin passing.time about passing.t }
{
    let t = i64::from(passing.t);
    let from = minutes_after(passing.time, about.from);
    let to = minutes_after(passing.time, about.to);
    over_period(from - t, t - to)
}
