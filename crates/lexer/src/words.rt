// The words of a page, and the values that a kind's word calls for.
ghost use Rattle.std.specs.Prelude.{◌≡◌};
ghost use Rattle.text.specs.Words.{mode as mode_of, kind as kind_of, value as value_of, first_word, allowed as allowed_of};

use crate::numbers::{measure, number, time};
use house::{Value, measure_value, minute_value, name_value};
use items::Mode;
use text::types::{KindWord, Section, Word};

// The mode that a field names.
pub fn mode(field: &[u8]) -> Option<Mode>
    ensures { result ≡ mode_of field.now }
{
    match field {
        b"A" => Some(Mode::A),
        b"B" => Some(Mode::B),
        b"both" => Some(Mode::Both),
        b"either" => Some(Mode::Either),
        b"pair" => Some(Mode::Pair),
        _ => None,
    }
}

// The kind that a field names.
pub fn kind(field: &[u8]) -> Option<KindWord>
    ensures { result ≡ kind_of field.now }
{
    match field {
        b"measure" => Some(KindWord::Measure),
        b"names" => Some(KindWord::Names),
        b"clock" => Some(KindWord::Clock),
        _ => None,
    }
}

// The value of a kind that a field is.
pub fn value(kind: KindWord, field: &[u8]) -> Option<Value>
    ensures { result ≡ value_of kind field.now }
{
    match kind {
        KindWord::Measure => measure(field).map(measure_value),
        KindWord::Names => number(field).map(name_value),
        KindWord::Clock => time(field).map(minute_value),
    }
}

// What the first word of a line is.
pub fn first_word(field: &[u8]) -> Option<Word>
    ensures { result ≡ first_word field.now }
{
    match field {
        b"flight" => Some(Word::Flight),
        b"pair" => Some(Word::Pair),
        b"row" => Some(Word::Row),
        b"column" => Some(Word::Column),
        b"never" => Some(Word::Never),
        b"default" => Some(Word::Default),
        b"end" => Some(Word::End),
        _ => None,
    }
}

// The section after a line that is not the last, where its first word may stand.
pub fn allowed(section: Section, word: Word) -> Option<Section>
    ensures { result ≡ allowed_of section word }
{
    match (section, word) {
        (Section::Quantities, Word::Flight | Word::Pair) => Some(Section::Quantities),
        (Section::Quantities | Section::Rows, Word::Row) => Some(Section::Rows),
        (Section::Quantities | Section::Rows | Section::Columns, Word::Column) => {
            Some(Section::Columns)
        }
        (Section::Ends, Word::Never | Word::Default) => None,
        (_, Word::Never) => Some(Section::Nevers),
        (_, Word::Default) => Some(Section::Ends),
        _ => None,
    }
}
