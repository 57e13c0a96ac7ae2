// The draft calls of each kind of line. A line's fields are read in form first, all of them, and
// then its calls follow, entries left to right.
ghost use Rattle.std.specs.Prelude.{◌≡◌, ◌+◌, List, [], ◌∷◌, length, Ok as OkOf};
ghost use Rattle.lines.specs.Left.{left, byte as byte_of};
ghost use Rattle.lists.specs.Held.{SameLists, lists_of};
ghost use Rattle.page_faults.specs.declared.PageFault.TheVariants.{Form};
ghost use Rattle.pages.specs.Reads.{Asked as AskedOf, cells_from, make_all};
ghost use Rattle.asking.specs.Asks.{asked_of};
ghost use Rattle.calling.specs.Goes.{follows, line_goes};
ghost use Rattle.text.specs.Forms.{onward};
ghost use Rattle.text.specs.Lines.{quantity as quantity_of, quantity_line, line_of};
ghost use Rattle.text.specs.declared.types.Word.TheVariants.{Row as RowWord, Column as ColumnWord, Never as NeverWord, Default as DefaultWord};

use asking::asked::Asked;
use house::House;
use items::{Entry, Scope};
use lines::cursor::Fields;
use lines::lines::{column_line, default_line, entries, quantity_line, row_line};
use lists::lent::Lists;
use page_faults::{LineFault, PageFault};
use results::figure::Figure;
use sheet::states::Draft;
use text::types::{Placed, Word};

// The lists of a page's sheet.
// They go beside a draft and a line's fields: each contract would have to say which of them a struct borrows.
pub type PageLists<'a> = Lists<'a, House, Figure>;

// Fields that are not right in form or number, by the byte to tell.
fn form(byte: usize) -> LineFault
    ensures { result ≡ record { fault = Form; byte = byte } }
{
    LineFault {
        fault: PageFault::Form,
        byte,
    }
}

// Makes a call.
fn ask(asked: Asked, draft: &mut Draft, lists: &mut PageLists<'_>) -> Result<(), LineFault>
    ensures went { (ks : List AskedOf) → make_all (asked_of asked ∷ ks) draft.old.counts (lists_of lists.old) ≡ follows result draft.new.counts (lists_of lists.new) ks }
    ensures lent { SameLists lists.old lists.new }
{
    draft
        .make(lists, asked.edit)
        .map_err(|fault| asked.denied(fault))
}

// Sets the entries of a column, one a row, left to right. Never n is column 16 + n.
fn ask_entries(
    column: usize,
    said: &[Placed],
    draft: &mut Draft,
    lists: &mut PageLists<'_>,
) -> Result<(), LineFault>
    ensures went { make_all (cells_from column 0 said.now) draft.old.counts (lists_of lists.old) ≡ follows result draft.new.counts (lists_of lists.new) [] }
    ensures lent { SameLists lists.old lists.new }
{
    for (row, entry) in said.iter().enumerate() {
        ask(Asked::entry(row, column, *entry), draft, lists)?;
    }
    Ok(())
}

// Adds a column or a never, and sets its entries.
fn add(
    added: Asked,
    column: usize,
    said: &[Placed],
    draft: &mut Draft,
    lists: &mut PageLists<'_>,
) -> Result<(), LineFault>
    ensures went { make_all (asked_of added ∷ cells_from column 0 said.now) draft.old.counts (lists_of lists.old) ≡ follows result draft.new.counts (lists_of lists.new) [] }
    ensures lent { SameLists lists.old lists.new }
{
    ask(added, draft, lists)?;
    ask_entries(column, said, draft, lists)
}

// No entry at all, to be written over.
// An array beside its count of rows, since nothing is on the heap.
fn blank() -> [Placed; 16]
    ensures { length result ≡ 16 }
{
    [Placed {
        entry: Entry::Any,
        byte: 1,
    }; 16]
}

// A line `flight ..` or `pair ..`.
fn quantity(
    scope: Scope,
    fields: &mut Fields<'_>,
    draft: &mut Draft,
    lists: &mut PageLists<'_>,
) -> Result<(), LineFault>
    ensures went { line_goes (onward (quantity_of scope (byte_of fields.old) (left fields.old)) (λ q. OkOf (quantity_line q))) draft.old.counts (lists_of lists.old) ≡ follows result draft.new.counts (lists_of lists.new) [] }
    ensures lent { SameLists lists.old lists.new }
{
    let said = quantity_line(fields, scope).map_err(form)?;
    ask(Asked::quantity(said), draft, lists)
}

// A line `row ..`.
fn row(
    fields: &mut Fields<'_>,
    draft: &mut Draft,
    lists: &mut PageLists<'_>,
) -> Result<(), LineFault>
    ensures went { line_goes (line_of RowWord draft.old.counts.rows (byte_of fields.old) (left fields.old)) draft.old.counts (lists_of lists.old) ≡ follows result draft.new.counts (lists_of lists.new) [] }
    ensures lent { SameLists lists.old lists.new }
{
    let said = row_line(fields).map_err(form)?;
    ask(Asked::row(said), draft, lists)
}

// A line `column ..`.
fn column(
    fields: &mut Fields<'_>,
    draft: &mut Draft,
    lists: &mut PageLists<'_>,
) -> Result<(), LineFault>
    ensures went { line_goes (line_of ColumnWord draft.old.counts.rows (byte_of fields.old) (left fields.old)) draft.old.counts (lists_of lists.old) ≡ follows result draft.new.counts (lists_of lists.new) [] }
    ensures lent { SameLists lists.old lists.new }
{
    let rows = draft.counts().rows;
    let column = draft.counts().columns;
    let mut said = blank();
    let figure = column_line(fields, rows, &mut said).map_err(form)?;
    add(Asked::column(figure), column, &said[..rows], draft, lists)
}

// The column of the next never.
fn next_never(draft: &Draft) -> usize
    ensures { result ≡ 16 + draft.now.counts.nevers }
{
    16 + draft.counts().nevers
}

// A line `never ..`.
fn never(
    fields: &mut Fields<'_>,
    draft: &mut Draft,
    lists: &mut PageLists<'_>,
) -> Result<(), LineFault>
    ensures went { line_goes (line_of NeverWord draft.old.counts.rows (byte_of fields.old) (left fields.old)) draft.old.counts (lists_of lists.old) ≡ follows result draft.new.counts (lists_of lists.new) [] }
    ensures lent { SameLists lists.old lists.new }
{
    let rows = draft.counts().rows;
    let column = next_never(draft);
    let mut said = blank();
    entries(fields, rows, &mut said).map_err(form)?;
    add(Asked::never(), column, &said[..rows], draft, lists)
}

// A line `default ..`.
fn default(
    fields: &mut Fields<'_>,
    draft: &mut Draft,
    lists: &mut PageLists<'_>,
) -> Result<(), LineFault>
    ensures went { line_goes (line_of DefaultWord draft.old.counts.rows (byte_of fields.old) (left fields.old)) draft.old.counts (lists_of lists.old) ≡ follows result draft.new.counts (lists_of lists.new) [] }
    ensures lent { SameLists lists.old lists.new }
{
    let figure = default_line(fields).map_err(form)?;
    ask(Asked::default(figure), draft, lists)
}

// The fields of a line after its first word, and its calls.
pub fn make(
    word: Word,
    fields: &mut Fields<'_>,
    draft: &mut Draft,
    lists: &mut PageLists<'_>,
) -> Result<(), LineFault>
    ensures went { line_goes (line_of word draft.old.counts.rows (byte_of fields.old) (left fields.old)) draft.old.counts (lists_of lists.old) ≡ follows result draft.new.counts (lists_of lists.new) [] }
    ensures lent { SameLists lists.old lists.new }
{
    match word {
        Word::Flight => quantity(Scope::Flight, fields, draft, lists),
        Word::Pair => quantity(Scope::Pair, fields, draft, lists),
        Word::Row => row(fields, draft, lists),
        Word::Column => column(fields, draft, lists),
        Word::Never => never(fields, draft, lists),
        Word::Default => default(fields, draft, lists),
        Word::End => Err(form(1)),
    }
}
