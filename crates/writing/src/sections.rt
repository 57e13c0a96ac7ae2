// The lines of a sheet's page, section by section.
//
// What is read and what is written are two parameters: a struct of both would be made for each of the two walks.
ghost use Rattle.std.specs.Prelude.{◌≡◌, ◌+◌, ◌<◌, map, pos, slice_index_or};
ghost use Rattle.lists.specs.Held.{seen};
ghost use Rattle.pages.specs.Writes.{default_lines, lines_of, text_of};
ghost use Rattle.std.specs.List.{flat_map};
ghost use Rattle.tables.specs.Storage.{column_of};
ghost use Rattle.text.specs.Texts.{line_text, say_quantity, say_row, say_column, say_never};
ghost use Rattle.writer.specs.Writing.{Wrote};

use crate::gathering::{PageView, gathered};
use writer::buffer::Writer;

// The lines of the quantities.
fn quantities<const LIVE: bool>(view: &PageView<'_>, writer: &mut Writer<'_, LIVE>)
    ensures { Wrote writer.old (flat_map line_text (map say_quantity (seen view.now).quantities)) writer.new }
{
    for quantity in view.quantities_in_use() {
        writer.quantity(*quantity);
    }
}

// The lines of the rows.
fn rows<const LIVE: bool>(view: &PageView<'_>, writer: &mut Writer<'_, LIVE>)
    ensures { Wrote writer.old (flat_map line_text (map say_row (seen view.now).rows)) writer.new }
{
    for row in view.rows_in_use() {
        writer.row(*row);
    }
}

// The lines of the columns.
fn columns<const LIVE: bool>(view: &PageView<'_>, writer: &mut Writer<'_, LIVE>)
    ensures { Wrote writer.old (flat_map line_text (map (λ k. say_column k.result k.entries) (seen view.now).columns)) writer.new }
{
    for (j, result) in view.results_in_use().iter().enumerate() {
        let entries = gathered(view, j);
        writer.column(*result, &entries[..view.counts.rows]);
    }
}

// The line of a never.
fn never<const LIVE: bool>(view: &PageView<'_>, j: usize, writer: &mut Writer<'_, LIVE>)
    requires { j < 8 }
    ensures { Wrote writer.old (line_text (say_never (column_of view.now.entries.now view.now.counts.rows (16 + j)))) writer.new }
{
    let entries = gathered(view, 16 + j);
    writer.never(&entries[..view.counts.rows]);
}

// The lines of the nevers.
fn nevers<const LIVE: bool>(view: &PageView<'_>, writer: &mut Writer<'_, LIVE>)
    ensures { Wrote writer.old (flat_map line_text (map say_never (seen view.now).nevers)) writer.new }
{
    // by number: nevers have no list of their own, their entries lie beside those of the columns
    for j in 0..view.counts.nevers {
        never(view, j, writer);
    }
}

// The line of a default, if there is one.
fn default<const LIVE: bool>(view: &PageView<'_>, writer: &mut Writer<'_, LIVE>)
    ensures { Wrote writer.old (flat_map line_text (default_lines (seen view.now).default)) writer.new }
{
    if let Some(result) = view.default_result() {
        writer.default(result);
    }
}

// The lines before the last.
fn lines<const LIVE: bool>(view: &PageView<'_>, writer: &mut Writer<'_, LIVE>)
    ensures { Wrote writer.old (flat_map line_text (lines_of (seen view.now))) writer.new }
{
    quantities(view, writer);
    rows(view, writer);
    columns(view, writer);
    nevers(view, writer);
    default(view, writer);
}

// The whole page.
pub(crate) fn page<const LIVE: bool>(view: &PageView<'_>, writer: &mut Writer<'_, LIVE>)
    ensures { Wrote writer.old (text_of (seen view.now)) writer.new }
{
    lines(view, writer);
    writer.end();
}
