// Clock: minutes of the day, 0 to 1439. A cell is a window from a start to an end, both included,
// over midnight when the start is later than the end. Its stops are the start and the minute
// after the end; one past the last minute of the day is no value, so there is no stop there.
//
// Every u16 can be asked about; one above 1439 is no value, and no window's end.

#![tactic(auto)]

ghost use Rattle.std.specs.Prelude.{◌≡◌};
ghost use Rattle.kinds.specs.Meaning.{earlier, later};
ghost use Rattle.clock.specs.Clocks.{clock, clock_rank, is_minute};
ghost use Rattle.std.proofs.Common.{rules};

use kinds::{Kind, earlier_by};

// How many minutes a day has.
pub const MINUTES: u16 = 1440;

// From start to end, both included, over midnight when the start is later than the end.
#[derive(Clone, Copy)]
pub struct Window {
    pub start: u16,
    pub end: u16,
}

// The kind of minutes of the day.
#[derive(Clone, Copy)]
pub struct Clock;

// The minute t, if it is one of the day and after another.
// One function for all kinds, passed their order and test, would make each call longer than this body.
fn minute_after(after: u16, t: u16) -> Option<u16>
    ensures { result ≡ later clock_rank is_minute after t }
{
    (after < t && t < MINUTES).then_some(t)
}

impl Kind for Clock {
    type Value = u16;

    type Cell = Window;

    ghost meaning = { clock };

    ghost lawful = { Prim.search rules };

    fn at_or_before(a: u16, b: u16) -> bool {
        a <= b
    }

    fn is_range(least: u16, greatest: u16) -> bool {
        least < MINUTES && greatest < MINUTES && least <= greatest
    }

    fn fits(cell: Window, _least: u16, _greatest: u16) -> bool {
        cell.start < MINUTES && cell.end < MINUTES
    }

    fn holds(cell: Window, value: u16) -> bool {
        if cell.start <= cell.end {
            cell.start <= value && value <= cell.end
        } else {
            cell.start <= value || value <= cell.end
        }
    }

    fn next_stop(cell: Window, after: u16) -> Option<u16> {
        earlier_by(
            minute_after(after, cell.start),
            minute_after(after, cell.end.saturating_add(1)),
            |x, y| x <= y,
        )
    }
}
