// Writing a draft as a page.
ghost use Rattle.std.specs.Prelude.{◌≡◌, true, false};
ghost use Rattle.house.specs.House.{house as house_kinds};
ghost use Rattle.lists.specs.Held.{lists_of, seen};
ghost use Rattle.pages.specs.ThereAndBack.{WrittenRightly};
ghost use Rattle.pages.specs.Writes.{room_answer, room_leaves, text_of, write_answer, write_leaves};
ghost use Rattle.results.specs.Figures.{figures};
ghost use Rattle.tables.specs.Storage.{Bounded, contents_of, in_order};
ghost use Rattle.writer.specs.Writing.{Fresh, buffer};

use crate::gathering::PageView;
use crate::sections::page;
use crate::set_bits::only_names;
use house::House;
use lists::lent::Lists;
use page_faults::WriteFault;
use results::figure::Figure;
use sheet::states::Draft;
use writer::buffer::Writer;

// Counts the bytes of a sheet's page, and writes it in front of a buffer that has room for all of
// them.
fn write_page(view: &PageView<'_>, out: &mut [u8]) -> Result<usize, WriteFault>
    ensures answer { result ≡ room_answer (text_of (seen view.now)) out.old }
    ensures left { out.new ≡ room_leaves (text_of (seen view.now)) out.old }
{
    // A writer made of the counter by value would lose, in a proof, the buffer that is lent.
    let mut counter = Writer::<false>::new(out);
    page(view, &mut counter);
    let length = counter.at.ok_or(WriteFault::NoRoom)?;
    let mut writer = Writer::<true>::new(out);
    page(view, &mut writer);
    Ok(length)
}

// Writes the page of a draft in front of a buffer and tells its length, or why not: the lists are
// not in order, or the buffer is too short for the page, which is then not written at all. Bytes
// after the page stay. The page reads back to the same contents.
pub fn write(
    draft: &Draft,
    lists: &Lists<'_, House, Figure>,
    out: &mut [u8],
) -> Result<usize, WriteFault>
    ensures answer { result ≡ write_answer draft.now.counts (lists_of lists.now) out.old }
    ensures left { out.new ≡ write_leaves draft.now.counts (lists_of lists.now) out.old }
    ensures rightly { in_order house_kinds figures draft.now.counts (lists_of lists.now) ≡ true → WrittenRightly draft.now.counts (lists_of lists.now) }
{
    let view = lists.checked(draft.counts())?;
    only_names(lists.entries);
    write_page(&view, out)
}
