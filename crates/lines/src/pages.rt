// The lines of a page in turn.
ghost use Rattle.std.specs.Prelude.{◌≡◌, ◌+◌, ◌-◌, ◌≤◌, [], ◌∷◌, length, take, drop, is_some, IfSome, MatchOption};
ghost use Rattle.std.specs.List.{between};
ghost use Rattle.text.specs.Fields.{up_to};
ghost use Rattle.text.specs.Pages.{lined, closed};
ghost use Rattle.lines.specs.Left.{ahead};

use crate::reader::{MOST_BYTES, Reader};
use lexer::parts::until;

// As much of a text as a page may have.
pub(crate) fn at_most(text: &[u8]) -> &[u8]
    ensures part { result.now ≡ take 65536 text.now }
    ensures whole { length text.now ≤ 65536 → result.now ≡ text.now }
    ensures short { length result.now ≤ 65536 }
{
    &text[..MOST_BYTES.min(text.len())]
}

// Where the line that starts at `from` ends: at the next byte 10, or with the text.
fn line_end(page: &[u8], from: usize) -> usize
    requires { from ≤ length page.now }
    ensures { (result ≡ from + up_to 10 (drop from page.now)) × (result ≤ length page.now) }
{
    until(page, from, b'\n')
}

impl<'a> Reader<'a> {
    // The lines of a text, the first of which has number 1. No more of it is read than a page may have.
    pub fn new(page: &'a [u8]) -> Self
        ensures lines { ahead result ≡ lined (take 65536 page.now) }
        ensures whole { length page.now ≤ 65536 → ahead result ≡ lined page.now }
        ensures first { result.line ≡ 1 }
    {
        Reader {
            page: at_most(page),
            at: 0,
            line: 1,
        }
    }

    // The next line, without its byte 10.
    pub fn next_line(&mut self) -> Option<&'a [u8]>
        ensures left { MatchOption result
            (ahead self.old ≡ [])
            (λ l. ahead self.old ≡ l.now ∷ ahead self.new) }
        ensures line { MatchOption result
            (self.new ≡ self.old)
            (λ l. self.new.line ≡ self.old.line + 1) }
        ensures short { IfSome result (λ l. length l.now ≤ 65536) }
        ensures at { IfSome result (λ l. self.old.at + 1 ≤ self.new.at) }
        ensures page { self.new.page.now ≡ self.old.page.now }
    {
        if self.at >= self.page.len() {
            return None;
        }
        let from = self.at;
        let to = line_end(self.page, from);
        self.at = to + 1;
        self.line += 1;
        Some(&self.page[from..to])
    }
}

// The page without its last line, where that is `end` with its byte 10.
pub fn without_end(page: &[u8]) -> Option<&[u8]>
    ensures closed { is_some result ≡ closed page.now }
    ensures lines { IfSome result (λ lines. lines.now ≡ between 0 (length page.now - 4) page.now) }
{
    let lines = page.strip_suffix(b"end\n")?;
    match lines {
        [.., last] if *last != b'\n' => None,
        _ => Some(lines),
    }
}
