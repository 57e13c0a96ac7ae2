// Reading a page: its size, its last line, and then line by line.
ghost use Rattle.std.specs.Prelude.{◌≡◌, ℕ, ◌≤◌, List, ◌∷◌, length};
ghost use Rattle.lines.specs.Left.{ahead, left, byte as byte_of};
ghost use Rattle.lists.specs.Held.{SameLists, lists_of};
ghost use Rattle.pages.specs.Reads.{read_lines, read_page};
ghost use Rattle.pages.specs.ThereAndBack.{ReadRightly};
ghost use Rattle.reading.specs.Lines.{counted, ended, read_on, word_or};
ghost use Rattle.text.specs.Forms.{rest, rest_at};
ghost use Rattle.text.specs.Pages.{head, word_at};
ghost use Rattle.text.specs.Words.{first_word};
ghost use Rattle.text.specs.declared.types.Section.TheVariants.{Quantities as FirstSection};

use calling::calls::{PageLists, make};
use faults::SheetFault;
use lexer::words::{allowed, first_word};
use lines::cursor::Fields;
use lines::pages::without_end;
pub use lines::reader::MOST_BYTES;
use lines::reader::Reader;
use page_faults::{LineFault, PageFault, PageRefusal};
use sheet::states::Draft;
use text::types::{Section, Word};

// The first word of a line, where it may stand in this section, and the section after it. Of what is
// left it says what `Fields::next_as` says.
fn word_of(section: Section, fields: &mut Fields<'_>) -> Option<(Word, Section)>
    ensures word { (k : ℕ) → word_at section k (first_word (head (left fields.old))) ≡ word_or k result }
    ensures left { left fields.new ≡ rest (left fields.old) }
    ensures byte { byte_of fields.new ≡ rest_at (byte_of fields.old) (left fields.old) }
{
    let word = first_word(fields.next_field()?)?;
    Some((word, allowed(section, word)?))
}

// Reads a line and makes its calls: which lines may come after it.
fn read_line(
    section: Section,
    line: &[u8],
    draft: &mut Draft,
    lists: &mut PageLists<'_>,
) -> Result<Section, LineFault>
    requires { length line.now ≤ 65536 }
    ensures went { (k : ℕ) (lines : List (List ℕ)) → read_lines section k (line.now ∷ lines) draft.old.counts (lists_of lists.old) ≡ read_on k result draft.new.counts (lists_of lists.new) lines }
    ensures lent { SameLists lists.old lists.new }
{
    let mut fields = Fields::new(line);
    let (word, next) = word_of(section, &mut fields).ok_or(PageFault::Word)?;
    make(word, &mut fields, draft, lists)?;
    Ok(next)
}

// Reads the lines before the last one.
fn read_lines(
    reader: &mut Reader<'_>,
    draft: &mut Draft,
    lists: &mut PageLists<'_>,
) -> Result<(), PageRefusal>
    ensures went { read_lines FirstSection reader.old.line (ahead reader.old) draft.old.counts (lists_of lists.old) ≡ ended result draft.new.counts (lists_of lists.new) }
    ensures lent { SameLists lists.old lists.new }
{
    let mut section = Section::Quantities;
    while let Some(line) = reader.next_line() {
        let number = reader.line - 1;
        section = read_line(section, line, draft, lists).map_err(|fault| fault.on_line(number))?;
    }
    Ok(())
}

// The page's questions, and then its lines.
fn read_page(page: &[u8], lists: &mut PageLists<'_>) -> Result<Draft, PageRefusal>
    ensures answer { counted result ≡ (read_page page.now (lists_of lists.old)).answer }
    ensures left { lists_of lists.new ≡ (read_page page.now (lists_of lists.old)).lists }
    ensures lent { SameLists lists.old lists.new }
{
    let mut draft = Draft::open();
    if !lists.in_order(draft.counts()) {
        return Err(PageFault::Call(SheetFault::Lists).into());
    }
    if page.len() > MOST_BYTES {
        return Err(PageFault::TooLong.into());
    }
    let lines = without_end(page).ok_or(PageFault::NotEnded)?;
    read_lines(&mut Reader::new(lines), &mut draft, lists)?;
    Ok(draft)
}

// Opens a draft and has a page write it, or tells the first refusal; what the calls before it
// wrote stays in the lists. An accepted page is the page of the sheet that its calls make, byte
// for byte.
pub fn read(page: &[u8], lists: &mut PageLists<'_>) -> Result<Draft, PageRefusal>
    ensures answer { counted result ≡ (read_page page.now (lists_of lists.old)).answer }
    ensures left { lists_of lists.new ≡ (read_page page.now (lists_of lists.old)).lists }
    ensures lent { SameLists lists.old lists.new }
    ensures rightly { ReadRightly page.now (lists_of lists.old) }
{
    read_page(page, lists)
}
