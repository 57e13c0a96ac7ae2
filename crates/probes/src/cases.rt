// The encounters.
use fixes::fix::{Direction, Fix, Flights, Passing};
use house::{Value, measure_value, name_value};

// A flight: where it is, and what the sheets ask of it.
#[derive(Clone, Copy)]
pub struct Flight {
    pub fix: Fix,
    pub supersonic: bool,
    // Is it outside of the airspace with navigation minima?
    pub outside: bool,
    // Is it on a special route of the first set?
    pub route: bool,
}

// An encounter to probe, with its fixes and times.
#[derive(Clone, Copy)]
pub struct Case {
    pub name: &'static str,
    pub a: Flight,
    pub b: Flight,
    pub passing: Passing,
    // Do the pair's conditions for a smaller minimum along the way hold?
    pub close: bool,
}

// Whether something holds: the name 1 where it does, and else 0.
fn holds(yes: bool) -> Value {
    name_value(u32::from(yes))
}

impl Flight {
    // Its values, by quantity: 16, as a look-up takes them. What is not outside has part of its route
    // inside, and meets the minima if it is not supersonic.
    pub fn values(self) -> [Value; 16] {
        let mut values = [measure_value(0); 16];
        values[0] = measure_value(self.fix.level);
        values[1] = holds(self.supersonic);
        values[2] = holds(self.outside);
        values[3] = holds(self.route);
        values[4] = holds(false);
        values[5] = holds(!self.outside && !self.supersonic);
        values[6] = holds(!self.outside);
        values
    }
}

impl Case {
    // The values of the pair, by quantity: 16, as a look-up takes them.
    pub fn values(self) -> [Value; 16] {
        let mut values = [measure_value(0); 16];
        values[..4].fill(holds(self.close));
        values
    }

    // Where the flights are, and when they pass.
    pub fn flights(self) -> Flights {
        Flights {
            a: self.a.fix,
            b: self.b.fix,
            passing: self.passing,
        }
    }
}

// Three numbers and no `Fix`, here and below, so that the list of cases stays short.
fn slow(level: i32, lateral: i32, time: i32) -> Flight {
    Flight {
        fix: Fix {
            level,
            lateral,
            time,
        },
        supersonic: false,
        outside: false,
        route: false,
    }
}

fn fast(level: i32, lateral: i32, time: i32) -> Flight {
    Flight {
        supersonic: true,
        ..slow(level, lateral, time)
    }
}

fn on_route(level: i32, lateral: i32, time: i32) -> Flight {
    Flight {
        outside: true,
        route: true,
        ..slow(level, lateral, time)
    }
}

// Flights in the same direction.
fn same(name: &'static str, a: Flight, b: Flight, close: bool) -> Case {
    Case {
        name,
        a,
        b,
        passing: Passing {
            direction: Direction::Same,
            time: 0,
            t: 0,
        },
        close,
    }
}

// Flights in opposite directions that pass at 10:00, at a time t.
fn opposite(name: &'static str, close: bool, t: i32) -> Case {
    Case {
        name,
        a: slow(350, 0, 36_000),
        b: slow(360, 100, 36_000),
        passing: Passing {
            direction: Direction::Opposite,
            time: 36_000,
            t,
        },
        close,
    }
}

// The encounters that are probed. A list of so many, and no more is ever added: an array and no `Vec`.
pub fn cases() -> [Case; 16] {
    [
        same(
            "supersonic, levels 460 and 500",
            fast(460, 0, 0),
            fast(500, 0, 0),
            false,
        ),
        same(
            "supersonic, levels 460 and 499",
            fast(460, 0, 0),
            fast(499, 0, 0),
            false,
        ),
        same(
            "supersonic, 10 minutes apart",
            fast(550, 0, 0),
            fast(550, 0, 600),
            true,
        ),
        same(
            "supersonic, 15 minutes apart less a second",
            fast(550, 0, 899),
            fast(550, 0, 0),
            false,
        ),
        same(
            "one supersonic, levels 460 and 480",
            fast(460, 500, 0),
            slow(480, 0, 300),
            false,
        ),
        same(
            "none supersonic, levels 460 and 480",
            slow(460, 0, 0),
            slow(480, 0, 0),
            false,
        ),
        same(
            "across level 280: 280 and 290",
            slow(280, 0, 0),
            slow(290, 0, 0),
            false,
        ),
        same(
            "above level 280: 281 and 291",
            slow(281, 0, 0),
            slow(291, 0, 0),
            false,
        ),
        same(
            "60 miles apart",
            slow(350, -300, 0),
            slow(350, 300, 0),
            false,
        ),
        same(
            "90 miles apart less a tenth, on a route outside",
            on_route(350, 0, 0),
            on_route(350, 899, 0),
            false,
        ),
        opposite("opposite, a second before the period", false, 35_099),
        opposite("opposite, where the period begins", false, 35_100),
        opposite("opposite, at the passing time", false, 36_000),
        opposite("opposite, a second after the period", false, 36_901),
        opposite("opposite and reported, a second before", true, 35_999),
        same("level 661", slow(661, 0, 0), slow(0, 0, 0), false),
    ]
}
