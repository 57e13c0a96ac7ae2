// Examples of each kind of condition and of result at its edges, and of each refusal's number.

#![tactic(auto)]

#[cfg(test)]
mod tests {
    use clock::{Clock, Window};
    use faults::{KindFault, LookupFault, SheetFault};
    use house::{
        House, band_cell, measure_value, minute_value, name_value, names_cell, window_cell,
    };
    use items::Side;
    use kinds::{Kind, earlier_stop};
    use measure::{Band, Measure};
    use names::{NameSet, Names};
    use results::ResultKind;
    use results::figure::Figure;
    use results::period::Period;

    // The earlier of two stops, or the one there is.
    #[test]
    fn earlier_stops(rt: HostRuntime) {
        for (a, b, earlier) in [
            (None, None, None),
            (Some(5), None, Some(5)),
            (None, Some(6), Some(6)),
            (Some(5), Some(6), Some(5)),
            (Some(6), Some(5), Some(5)),
        ] {
            assert_eq!(rt; earlier_stop::<Clock>(a, b), earlier);
        }
    }

    fn band(lo: i32, hi: i32, inside: bool) -> Band {
        Band { lo, hi, inside }
    }

    #[test]
    fn measures(rt: HostRuntime) {
        // two numbers: is the one not after the other, and are they a range
        for (a, b, ordered, range) in [
            (-1_000_000, 1_000_000, true, true),
            (7, 7, true, true),
            (1_000_000, 1_000_000, true, true),
            (7, 6, false, false),
            (-1_000_001, 0, true, false),
            (0, 1_000_001, true, false),
            (i32::MIN, i32::MAX, true, false),
        ] {
            assert_eq!(rt; Measure::at_or_before(a, b), ordered);
            assert_eq!(rt; Measure::is_range(a, b), range);
        }
        // a band: is it lawful
        for (lo, hi, fits) in [
            (-1_000_000, 1_000_000, true),
            (7, 7, true),
            (7, 6, false),
            (-1_000_001, 0, false),
            (0, 1_000_001, false),
            (i32::MIN, i32::MAX, false),
        ] {
            assert_eq!(rt; Measure::fits(band(lo, hi, true), -5, 5), fits);
            assert_eq!(rt; Measure::fits(band(lo, hi, false), -5, 5), fits);
        }
        // a band and a number: does it lie inside, and the next stop after it
        for (lo, hi, at, inside, stop) in [
            (-20, -10, -21, false, Some(-20)),
            (-20, -10, -20, true, Some(-9)),
            (-20, -10, -10, true, Some(-9)),
            (-20, -10, -9, false, None),
            (7, 7, 6, false, Some(7)),
            (7, 7, 7, true, Some(8)),
            (7, 1_000_000, 7, true, None),
            (7, 999_999, 7, true, Some(1_000_000)),
            (-1_000_000, 7, -1_000_000, true, Some(8)),
            (7, i32::MAX, 7, true, None),
        ] {
            assert_eq!(rt; Measure::holds(band(lo, hi, true), at), inside);
            assert_eq!(rt; Measure::holds(band(lo, hi, false), at), !inside);
            assert_eq!(rt; Measure::next_stop(band(lo, hi, true), at), stop);
            assert_eq!(rt; Measure::next_stop(band(lo, hi, false), at), stop);
        }
    }

    #[test]
    fn names_in_sets(rt: HostRuntime) {
        for (a, b, ordered, range) in [
            (0, 31, true, true),
            (31, 31, true, true),
            (4, 3, false, false),
            (0, 32, true, false),
            (32, 32, true, false),
            (0, u32::MAX, true, false),
        ] {
            assert_eq!(rt; Names::at_or_before(a, b), ordered);
            assert_eq!(rt; Names::is_range(a, b), range);
        }
        for (bits, fits) in [(0, false), (1, true), (0x8000_0000, true), (u32::MAX, true)] {
            assert_eq!(rt; Names::fits(NameSet { bits }, 0, 31), fits);
        }
        // the set of 0, 4, 5 and 31, and those of none, of all and of 31 alone
        for (bits, at, holds, stop) in [
            (0x8000_0031, 0, true, Some(1)),
            (0x8000_0031, 1, false, Some(4)),
            (0x8000_0031, 4, true, Some(6)),
            (0x8000_0031, 5, true, Some(6)),
            (0x8000_0031, 30, false, Some(31)),
            (0x8000_0031, 31, true, None),
            (0x8000_0031, 32, false, None),
            (0, 0, false, None),
            (u32::MAX, 0, true, None),
            (u32::MAX, 31, true, None),
            (u32::MAX, 32, false, None),
            (0x8000_0000, 0, false, Some(31)),
        ] {
            assert_eq!(rt; Names::holds(NameSet { bits }, at), holds);
            assert_eq!(rt; NameSet { bits }.contains(at), holds);
            assert_eq!(rt; Names::next_stop(NameSet { bits }, at), stop);
        }
    }

    #[test]
    fn clock_windows(rt: HostRuntime) {
        for (a, b, ordered, range) in [
            (0, 1439, true, true),
            (1439, 1439, true, true),
            (361, 360, false, false),
            (0, 1440, true, false),
            (1440, 1440, true, false),
            (0, u16::MAX, true, false),
        ] {
            assert_eq!(rt; Clock::at_or_before(a, b), ordered);
            assert_eq!(rt; Clock::is_range(a, b), range);
        }
        for (start, end, fits) in [
            (0, 1439, true),
            (1439, 0, true),
            (360, 360, true),
            (1440, 0, false),
            (0, 1440, false),
            (0, u16::MAX, false),
        ] {
            assert_eq!(rt; Clock::fits(Window { start, end }, 0, 1439), fits);
        }
        for (start, end, at, holds, stop) in [
            // by day, 06:00 to 22:00
            (360, 1320, 359, false, Some(360)),
            (360, 1320, 360, true, Some(1321)),
            (360, 1320, 1320, true, Some(1321)),
            (360, 1320, 1321, false, None),
            // over midnight, 22:00 to 06:00
            (1320, 360, 0, true, Some(361)),
            (1320, 360, 360, true, Some(361)),
            (1320, 360, 361, false, Some(1320)),
            (1320, 360, 1319, false, Some(1320)),
            (1320, 360, 1320, true, None),
            (1320, 360, 1439, true, None),
            // the whole day, 06:00 to 05:59
            (360, 359, 359, true, Some(360)),
            (360, 359, 360, true, None),
            // up to the last minute, which no minute follows
            (1320, 1439, 1319, false, Some(1320)),
            (1320, 1439, 1320, true, None),
            (1320, u16::MAX, 1320, true, None),
            // one minute
            (0, 0, 0, true, Some(1)),
            (0, 0, 1, false, None),
        ] {
            assert_eq!(rt; Clock::holds(Window { start, end }, at), holds);
            assert_eq!(rt; Clock::next_stop(Window { start, end }, at), stop);
        }
    }

    #[test]
    fn joined_order_and_ranges(rt: HostRuntime) {
        for (a, b, ordered, range) in [
            (measure_value(-5), measure_value(5), true, true),
            (measure_value(5), measure_value(-5), false, false),
            (measure_value(0), measure_value(1_000_001), true, false),
            (name_value(0), name_value(31), true, true),
            (name_value(0), name_value(32), true, false),
            (minute_value(0), minute_value(1439), true, true),
            (minute_value(0), minute_value(1440), true, false),
            // across two parts
            (measure_value(1_000_000), name_value(0), true, false),
            (name_value(0), measure_value(1_000_000), false, false),
            (name_value(31), minute_value(0), true, false),
            (minute_value(0), name_value(31), false, false),
            (measure_value(5), minute_value(0), true, false),
        ] {
            assert_eq!(rt; House::at_or_before(a, b), ordered);
            assert_eq!(rt; House::is_range(a, b), range);
        }
    }

    #[test]
    fn joined_cells(rt: HostRuntime) {
        let ten_to_twenty = band_cell(band(10, 20, true));
        let set = names_cell(NameSet { bits: 0x30 });
        let window = window_cell(Window {
            start: 360,
            end: 359,
        });
        let empty = names_cell(NameSet { bits: 0 });
        // a cell and a range: is the cell lawful for it
        for (cell, least, greatest, fits) in [
            (ten_to_twenty, measure_value(0), measure_value(9), true),
            (ten_to_twenty, name_value(0), name_value(9), false),
            (ten_to_twenty, measure_value(0), name_value(9), false),
            (set, name_value(0), name_value(9), true),
            (set, minute_value(0), minute_value(9), false),
            (set, name_value(0), minute_value(9), false),
            (empty, name_value(0), name_value(9), false),
            (window, minute_value(0), minute_value(9), true),
            (window, measure_value(0), measure_value(9), false),
        ] {
            assert_eq!(rt; House::fits(cell, least, greatest), fits);
        }
        // a cell and a value: does it hold, and the next stop after the value
        for (cell, at, holds, stop) in [
            (
                ten_to_twenty,
                measure_value(0),
                false,
                Some(measure_value(10)),
            ),
            (
                ten_to_twenty,
                measure_value(10),
                true,
                Some(measure_value(21)),
            ),
            (ten_to_twenty, measure_value(21), false, None),
            (ten_to_twenty, name_value(10), false, None),
            (ten_to_twenty, minute_value(10), false, None),
            (set, name_value(4), true, Some(name_value(6))),
            (set, name_value(6), false, None),
            (set, measure_value(4), false, None),
            (set, minute_value(4), false, None),
            (window, minute_value(359), true, Some(minute_value(360))),
            (window, minute_value(360), true, None),
            (window, name_value(0), false, None),
        ] {
            assert_eq!(rt; House::holds(cell, at), holds);
            assert_eq!(rt; House::next_stop(cell, at), stop);
        }
    }

    #[test]
    fn figures_and_periods(rt: HostRuntime) {
        for (value, lawful) in [
            (-1_000_001, false),
            (-1_000_000, true),
            (1_000_000, true),
            (1_000_001, false),
        ] {
            assert_eq!(rt; Figure { value }.is_lawful(), lawful);
        }
        for (value, other, same) in [(5, 5, true), (5, 6, false), (6, 5, false)] {
            assert_eq!(rt; Figure { value }.same(Figure { value: other }), same);
        }
        for (from, to, lawful) in [
            (-600, 600, true),
            (0, 0, true),
            (1, 0, false),
            (-601, 0, false),
            (0, 601, false),
        ] {
            assert_eq!(rt; Period { from, to }.is_lawful(), lawful);
        }
        for (from, to, same) in [(-5, 9, true), (-5, 8, false), (-4, 9, false)] {
            assert_eq!(rt; Period { from: -5, to: 9 }.same(Period { from, to }), same);
            assert_eq!(rt; Period { from, to }.same(Period { from: -5, to: 9 }), same);
        }
    }

    #[test]
    fn numbers_of_refusals(rt: HostRuntime) {
        for (fault, number) in [
            (SheetFault::Lists, 1u8),
            (SheetFault::TooManyQuantities, 2),
            (SheetFault::from(KindFault::Range), 3),
            (SheetFault::TooManyRows, 4),
            (SheetFault::NoSuchQuantity, 5),
            (SheetFault::WrongMode, 6),
            (SheetFault::TooManyColumns, 7),
            (SheetFault::TooManyNevers, 8),
            (SheetFault::UnlawfulResult, 9),
            (SheetFault::NoSuchPlace, 10),
            (SheetFault::from(KindFault::Cell), 11),
            (SheetFault::NothingToStrike, 12),
            (SheetFault::EncounterLists, 13),
            (SheetFault::TooManyEncounters, 14),
            (SheetFault::AllBarred, 15),
            (SheetFault::Gap, 16),
            (
                SheetFault::Clash {
                    lowest: 0,
                    other: 1,
                },
                17,
            ),
            (SheetFault::Asymmetry, 18),
            (
                SheetFault::from(LookupFault::OutOfRange {
                    side: Side::OfB,
                    quantity: 15,
                }),
                19,
            ),
            (SheetFault::from(LookupFault::Barred), 20),
            (SheetFault::from(LookupFault::Gap), 21),
            (SheetFault::from(LookupFault::Clash), 22),
        ] {
            assert_eq!(rt; fault.number(), number);
        }
    }
}
