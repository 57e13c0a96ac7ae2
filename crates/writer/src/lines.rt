// Writing the lines of a page.
ghost use Rattle.std.specs.Prelude.{◌≡◌, true, false, not, [], ◌∷◌, map, codes};
ghost use Rattle.std.specs.Fmt.{signed_decimal};
ghost use Rattle.text.specs.Fields.{followed};
ghost use Rattle.text.specs.Texts.{entry_text, line_text, scope_word, word_text, say_quantity, say_row, say_column, say_never, say_default};
ghost use Rattle.writer.specs.Writing.{Wrote, Fresh, buffer};

use crate::buffer::Writer;
use crate::words::{kind_of, scope_word};
use house::{Cell, Value};
use items::{Entry, Quantity, Row};
use results::figure::Figure;
use text::types::Word;

impl<const LIVE: bool> Writer<'_, LIVE> {
    // Writes the line of a quantity. A closure for the fields of a line would take a clause as long as
    // the line, so each line puts its spaces and its end itself.
    pub fn quantity(&mut self, quantity: Quantity<Value>)
        ensures { Wrote self.old (line_text (say_quantity quantity)) self.new }
    {
        self.spelled(scope_word(quantity.scope));
        self.byte(b' ');
        self.spelled(kind_of(quantity.least));
        self.byte(b' ');
        self.value(quantity.least);
        self.byte(b' ');
        self.value(quantity.greatest);
        self.byte(b'\n');
    }

    // Writes the line of a row.
    pub fn row(&mut self, row: Row)
        ensures { Wrote self.old (line_text (say_row row)) self.new }
    {
        self.spelled(Word::Row);
        self.byte(b' ');
        self.number(row.quantity);
        self.byte(b' ');
        self.spelled(row.mode);
        self.byte(b'\n');
    }

    // Writes a result.
    fn figure(&mut self, res: Figure)
        ensures { Wrote self.old (signed_decimal res.value) self.new }
    {
        self.measure(res.value);
    }

    // Writes entries, each after a space.
    fn entries(&mut self, entries: &[Entry<Cell>])
        ensures { Wrote self.old (followed 32 (map entry_text entries.now)) self.new }
    {
        for e in entries {
            self.byte(b' ');
            self.entry(*e);
        }
    }

    // Writes the line of a column.
    pub fn column(&mut self, res: Figure, entries: &[Entry<Cell>])
        ensures { Wrote self.old (line_text (say_column res entries.now)) self.new }
    {
        self.spelled(Word::Column);
        self.byte(b' ');
        self.figure(res);
        self.entries(entries);
        self.byte(b'\n');
    }

    // Writes the line of a never.
    pub fn never(&mut self, entries: &[Entry<Cell>])
        ensures { Wrote self.old (line_text (say_never entries.now)) self.new }
    {
        self.spelled(Word::Never);
        self.entries(entries);
        self.byte(b'\n');
    }

    // Writes the line of a default.
    pub fn default(&mut self, res: Figure)
        ensures { Wrote self.old (line_text (say_default res)) self.new }
    {
        self.spelled(Word::Default);
        self.byte(b' ');
        self.figure(res);
        self.byte(b'\n');
    }

    // Writes the last line.
    pub fn end(&mut self)
        ensures { Wrote self.old (codes "end\n") self.new }
    {
        self.word(b"end\n");
    }
}
