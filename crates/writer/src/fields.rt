// Writing bytes, words, numbers and cells.
ghost use Rattle.std.specs.Prelude.{◌≡◌, ◌+◌, ◌%◌, true, false, [], ◌∷◌, map, if◌then◌else◌, decimal};
ghost use Rattle.std.specs.Fmt.{signed_decimal};
ghost use Rattle.joined.specs.declared.Either.TheVariants.{Right};
ghost use Rattle.text.specs.Fields.{rejoined};
ghost use Rattle.text.specs.Texts.{two_digits, time_text, names_in, band_text, marked_text, names_text, window_text, cell_text, entry_text, mode_text, value_text, kind_text, kind_of};
ghost use Rattle.writer.specs.Writing.{Wrote, Fresh, buffer};

use crate::buffer::Writer;
use crate::words::Spelled;
use clock::Window;
use house::{Cell, Value};
use items::Entry;
use joined::Either;
use measure::Band;
use names::{NAMES, NameSet};

impl<'a, const LIVE: bool> Writer<'a, LIVE> {
    // A writer at the front of a buffer.
    pub fn new(out: &'a mut [u8]) -> Self
        ensures fresh { Fresh result }
        ensures kept { buffer result ≡ out.old }
        ensures lender { result.out.ghost_name ≡ out.entry.ghost_name }
    {
        Writer { out, at: Some(0) }
    }
}

impl<const LIVE: bool> Writer<'_, LIVE> {
    // Writes one byte.
    pub fn byte(&mut self, b: u8)
        ensures { Wrote self.old (b ∷ []) self.new }
    {
        self.at = match self.at {
            Some(at) if at < self.out.len() => {
                if LIVE {
                    self.out[at] = b;
                }
                Some(at + 1)
            }
            _ => None,
        };
    }

    // Writes a word.
    pub fn word(&mut self, word: &[u8])
        ensures { Wrote self.old word.now self.new }
    {
        for b in word {
            self.byte(*b);
        }
    }

    // Writes the last digit of a number.
    fn digit(&mut self, n: usize)
        ensures { Wrote self.old ((48 + n % 10) ∷ []) self.new }
    {
        self.byte(b'0' + (n % 10) as u8);
    }

    // Writes a number.
    pub fn number(&mut self, n: usize)
        ensures { Wrote self.old (decimal n) self.new }
    {
        if n >= 10 {
            self.number(n / 10);
        }
        self.digit(n);
    }

    // Writes a measure or a figure.
    pub(crate) fn measure(&mut self, z: i32)
        ensures { Wrote self.old (signed_decimal z) self.new }
    {
        if z < 0 {
            self.byte(b'-');
        }
        self.number(z.unsigned_abs() as usize);
    }

    // Writes the last two digits of a number.
    fn two(&mut self, n: u16)
        ensures { Wrote self.old (two_digits n) self.new }
    {
        self.digit(n as usize / 10);
        self.digit(n as usize);
    }

    // Writes a minute of the day, as `22:00`.
    pub(crate) fn time(&mut self, t: u16)
        ensures { Wrote self.old (time_text t) self.new }
    {
        self.two(t / 60);
        self.byte(b':');
        self.two(t % 60);
    }

    // Writes a value.
    pub fn value(&mut self, value: Value)
        ensures { Wrote self.old (value_text value) self.new }
    {
        match value {
            Either::Left(z) => self.measure(z),
            Either::Right(Either::Left(n)) => self.number(n as usize),
            Either::Right(Either::Right(t)) => self.time(t),
        }
    }

    // Writes the word of a kind, of a mode or of a line.
    pub(crate) fn spelled<S: Spelled + Drop>(&mut self, s: S)
        ensures { Wrote self.old (S.spelling s) self.new }
    {
        self.word(s.spelled());
    }

    // Writes a band, as `0..280`, after a bang where it means outside.
    fn band(&mut self, band: Band)
        ensures { Wrote self.old (marked_text band.inside band.lo band.hi) self.new }
    {
        if !band.inside {
            self.byte(b'!');
        }
        self.measure(band.lo);
        self.word(b"..");
        self.measure(band.hi);
    }

    // Writes the names of a set, parted by commas.
    fn names(&mut self, set: NameSet)
        ensures { Wrote self.old (rejoined 44 (map decimal (names_in 32 0 set.bits))) self.new }
    {
        // A chain over `filter` gets no proof in a function with a const parameter.
        let mut some = false;
        for n in 0..NAMES {
            if set.contains(n) {
                if some {
                    self.byte(b',');
                }
                self.number(n as usize);
                some = true;
            }
        }
    }

    // Writes a set of names, as `{0,3}`.
    fn braced(&mut self, set: NameSet)
        ensures { Wrote self.old (names_text set.bits) self.new }
    {
        self.byte(b'{');
        self.names(set);
        self.byte(b'}');
    }

    // Writes a window, as `22:00-05:59`.
    fn window(&mut self, window: Window)
        ensures { Wrote self.old (window_text window.start window.end) self.new }
    {
        self.time(window.start);
        self.byte(b'-');
        self.time(window.end);
    }

    // Writes a cell.
    pub(crate) fn cell(&mut self, cell: Cell)
        ensures { Wrote self.old (cell_text cell) self.new }
    {
        match cell {
            Either::Left(band) => self.band(band),
            Either::Right(Either::Left(set)) => self.braced(set),
            Either::Right(Either::Right(window)) => self.window(window),
        }
    }

    // Writes an entry of a column.
    pub(crate) fn entry(&mut self, entry: Entry<Cell>)
        ensures { Wrote self.old (entry_text entry) self.new }
    {
        match entry {
            Entry::Any => self.word(b"."),
            Entry::Cell(cell) => self.cell(cell),
        }
    }
}
