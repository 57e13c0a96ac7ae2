// Where each flight is, and when the two pass.
ghost use Rattle.std.specs.Prelude.{◌≡◌};
ghost use Rattle.fixes.specs.Flights.{flights_exchanged, flights_in_limits};
ghost use Rattle.fixes.specs.Limits.{fix_in_limits, passing_in_limits};

// A flight: its level in hundreds of feet, its lateral position in tenths of a nautical mile, and
// its time over the common point in seconds.
#[derive(Clone, Copy)]
pub struct Fix {
    pub level: i32,
    pub lateral: i32,
    pub time: i32,
}

// Do the flights go the same way, or one against the other?
#[derive(Clone, Copy)]
pub enum Direction {
    Same,
    Opposite,
}

// What the flights share: how they go, when they pass, and the time that is asked about, in seconds.
#[derive(Clone, Copy)]
pub struct Passing {
    pub direction: Direction,
    pub time: i32,
    pub t: i32,
}

// The flights A and B, and what they share.
#[derive(Clone, Copy)]
pub struct Flights {
    pub a: Fix,
    pub b: Fix,
    pub passing: Passing,
}

impl Fix {
    // Is each of the three in its limits?
    pub fn is_in_limits(self) -> bool
        ensures { result ≡ fix_in_limits self }
    {
        (0..=660).contains(&self.level)
            && (-100_000..=100_000).contains(&self.lateral)
            && (0..=172_799).contains(&self.time)
    }
}

impl Passing {
    // Are both times in their limits, whatever the direction?
    pub fn is_in_limits(self) -> bool
        ensures { result ≡ passing_in_limits self }
    {
        (0..=172_799).contains(&self.time) && (0..=172_799).contains(&self.t)
    }
}

impl Flights {
    // Is each flight in its limits, and what they share?
    pub fn is_in_limits(self) -> bool
        ensures { result ≡ flights_in_limits self }
    {
        self.a.is_in_limits() && self.b.is_in_limits() && self.passing.is_in_limits()
    }

    // The same with A for B and B for A.
    pub fn exchanged(self) -> Flights
        ensures { result ≡ flights_exchanged self }
    {
        Flights {
            a: self.b,
            b: self.a,
            passing: self.passing,
        }
    }
}
