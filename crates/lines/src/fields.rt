// The fields of a line in turn. One that is missing starts nowhere, so byte 1 is told of it; a wrong
// one tells the byte at which it starts.
ghost use Rattle.std.specs.Prelude.{◌≡◌, ℕ, ◌+◌, ◌≤◌, List, [], ◌∷◌, length, take, Option, MatchOption};
ghost use Rattle.std.specs.Fn.{FnOnceReturnsAt};
ghost use Rattle.text.specs.Fields.{parted};
ghost use Rattle.text.specs.Forms.{first, none, rest, rest_at};
ghost use Rattle.text.specs.Lines.{result as result_of, placed as placed_of};
ghost use Rattle.lines.specs.Left.{left, byte as byte_of};

use crate::cursor::Fields;
use crate::pages::at_most;
use lexer::cells::entry;
use lexer::numbers::measure;
use lexer::parts::until;
use results::figure::Figure;
use text::types::Placed;

impl<'a> Fields<'a> {
    // The fields of a line, of which no more is read than a page may have.
    pub fn new(line: &'a [u8]) -> Self
        ensures left { left result ≡ parted 32 (take 65536 line.now) }
        ensures whole { length line.now ≤ 65536 → left result ≡ parted 32 line.now }
        ensures byte { byte_of result ≡ 1 }
    {
        Fields {
            line: at_most(line),
            at: 0,
        }
    }

    // The byte at which the next field starts.
    pub fn byte(&self) -> usize
        ensures { result ≡ byte_of self.now }
    {
        self.at + 1
    }

    // The next field of the line, a part of it.
    pub fn next_field(&mut self) -> Option<&'a [u8]>
        ensures left { MatchOption result
            (left self.old ≡ [])
            (λ f. left self.old ≡ f.now ∷ left self.new) }
        ensures at { MatchOption result
            (self.new ≡ self.old)
            (λ f. self.new.at ≡ self.old.at + length f.now + 1) }
        ensures line { self.new.line.now ≡ self.old.line.now }
    {
        let rest = self.line.get(self.at..)?;
        let end = until(rest, 0, b' ');
        self.at += end + 1;
        Some(&rest[..end])
    }

    // The next field, which is to be of a form, or the byte to tell.
    // The error is the byte alone, as the forms of a line define it.
    pub(crate) fn next_as<T, F: FnOnce(&[u8]) -> Option<T>>(&mut self, read: F) -> Result<T, usize>
        ghost form: { List ℕ → Option T }
        requires can { F.IsAlwaysCallable read }
        requires reads { (f : List ℕ) (r : Option T) → FnOnceReturnsAt F.FnOnce read f r → r ≡ form f }
        ensures value { result ≡ first form (byte_of self.old) (left self.old) }
        ensures left { left self.new ≡ rest (left self.old) }
        ensures byte { byte_of self.new ≡ rest_at (byte_of self.old) (left self.old) }
    {
        let byte = self.byte();
        let field = self.next_field().ok_or(1usize)?;
        read(field).ok_or(byte)
    }

    // The next field, which is to be a result, or the byte to tell. Its last two clauses are those of
    // `next_as`: of what is left, each reader of a field says the same, and no type holds before and after.
    pub fn result(&mut self) -> Result<Figure, usize>
        ensures value { result ≡ result_of (byte_of self.old) (left self.old) }
        ensures left { left self.new ≡ rest (left self.old) }
        ensures byte { byte_of self.new ≡ rest_at (byte_of self.old) (left self.old) }
    {
        self.next_as(measure).map(|value| Figure { value })
    }

    // The next field, which is to be an entry, with its place, or the byte to tell.
    pub(crate) fn placed(&mut self) -> Result<Placed, usize>
        ensures value { result ≡ placed_of (byte_of self.old) (left self.old) }
        ensures left { left self.new ≡ rest (left self.old) }
        ensures byte { byte_of self.new ≡ rest_at (byte_of self.old) (left self.old) }
    {
        let byte = self.byte();
        let entry = self.next_as(entry)?;
        Ok(Placed { entry, byte })
    }

    // No field is to be left; a surplus one is wrong. An `if`, since `then_some(()).ok_or(..)` would
    // build an answer to throw it away.
    pub fn done(&self) -> Result<(), usize>
        ensures { result ≡ none tt (byte_of self.now) (left self.now) }
    {
        if self.line.len() < self.at {
            Ok(())
        } else {
            Err(self.byte())
        }
    }
}
