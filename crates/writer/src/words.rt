// The words of a page.
ghost use Rattle.std.specs.Prelude.{◌≡◌, ℕ, List};
ghost use Rattle.text.specs.Texts.{mode_text, kind_text, kind_of, word_text, scope_word};

use house::Value;
use items::{Mode, Scope};
use joined::Either;
use text::types::{KindWord, Word};

// What a page spells as one word.
pub(crate) trait Spelled {
    ghost spelling: { Self → List ℕ };

    // Its word.
    fn spelled(self) -> &'static [u8]
        ensures { result.now ≡ Self.spelling self };
}

impl Spelled for Mode {
    ghost spelling = { mode_text };

    fn spelled(self) -> &'static [u8] {
        match self {
            Mode::A => b"A",
            Mode::B => b"B",
            Mode::Both => b"both",
            Mode::Either => b"either",
            Mode::Pair => b"pair",
        }
    }
}

impl Spelled for KindWord {
    ghost spelling = { kind_text };

    fn spelled(self) -> &'static [u8] {
        match self {
            KindWord::Measure => b"measure",
            KindWord::Names => b"names",
            KindWord::Clock => b"clock",
        }
    }
}

impl Spelled for Word {
    ghost spelling = { word_text };

    fn spelled(self) -> &'static [u8] {
        match self {
            Word::Flight => b"flight",
            Word::Pair => b"pair",
            Word::Row => b"row",
            Word::Column => b"column",
            Word::Never => b"never",
            Word::Default => b"default",
            Word::End => b"end",
        }
    }
}

// The kind of a value.
pub(crate) fn kind_of(value: Value) -> KindWord
    ensures { result ≡ kind_of value }
{
    match value {
        Either::Left(_) => KindWord::Measure,
        Either::Right(Either::Left(_)) => KindWord::Names,
        Either::Right(Either::Right(_)) => KindWord::Clock,
    }
}

// The first word of a quantity's line.
pub(crate) fn scope_word(scope: Scope) -> Word
    ensures { result ≡ scope_word scope }
{
    match scope {
        Scope::Flight => Word::Flight,
        Scope::Pair => Word::Pair,
    }
}
