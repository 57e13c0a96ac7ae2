// What each kind of line says after its first word, or the byte of the first wrong field. An error is
// the byte alone, as by `Fields::next_as`.
ghost use Rattle.std.specs.Prelude.{◌≡◌};
ghost use Rattle.text.specs.Forms.{formed};
ghost use Rattle.text.specs.Lines.{quantity as quantity_of, row as row_of, entries as entries_of, column as column_of, default as default_of, results, Kept, KeptColumn};
ghost use Rattle.lines.specs.Left.{left, byte};

use crate::cursor::Fields;
use items::{Quantity, Row, Scope};
use lexer::numbers::number;
use lexer::words::{kind, mode, value};
use results::figure::Figure;
use text::types::{Placed, QuantityLine, RowLine};

// A quantity: a kind and two values of it.
pub fn quantity_line(fields: &mut Fields<'_>, scope: Scope) -> Result<QuantityLine, usize>
    ensures { result ≡ quantity_of scope (byte fields.old) (left fields.old) }
{
    let kind = fields.next_as(kind)?;
    let least_byte = fields.byte();
    let least = fields.next_as(|field| value(kind, field))?;
    let greatest = fields.next_as(|field| value(kind, field))?;
    fields.done()?;
    let quantity = Quantity {
        scope,
        least,
        greatest,
    };
    Ok(QuantityLine {
        quantity,
        least_byte,
    })
}

// A row: a quantity's number and a mode.
pub fn row_line(fields: &mut Fields<'_>) -> Result<RowLine, usize>
    ensures { result ≡ row_of (byte fields.old) (left fields.old) }
{
    let quantity_byte = fields.byte();
    let quantity = fields.next_as(number)? as usize;
    let mode_byte = fields.byte();
    let mode = fields.next_as(mode)?;
    fields.done()?;
    let row = Row { quantity, mode };
    Ok(RowLine {
        row,
        quantity_byte,
        mode_byte,
    })
}

// An entry for each of some rows, at most 16, put at the front of a list of places. An array beside a
// count: nothing is on the heap but the program's answer.
pub fn entries(fields: &mut Fields<'_>, count: usize, out: &mut [Placed; 16]) -> Result<(), usize>
    ensures value { result ≡ formed (entries_of count (byte fields.old) (left fields.old)) }
    ensures kept { Kept (entries_of count (byte fields.old) (left fields.old)) out.new }
{
    if count > out.len() {
        return Err(1);
    }
    for place in out[..count].iter_mut() {
        *place = fields.placed()?;
    }
    fields.done()
}

// A column: a result, and an entry for each of some rows, put at the front of an array as by `entries`.
pub fn column_line(
    fields: &mut Fields<'_>,
    rows: usize,
    out: &mut [Placed; 16],
) -> Result<Figure, usize>
    ensures value { result ≡ results (column_of rows (byte fields.old) (left fields.old)) }
    ensures kept { KeptColumn (column_of rows (byte fields.old) (left fields.old)) out.new }
{
    let result = fields.result()?;
    entries(fields, rows, out)?;
    Ok(result)
}

// A default: a result.
pub fn default_line(fields: &mut Fields<'_>) -> Result<Figure, usize>
    ensures { result ≡ default_of (byte fields.old) (left fields.old) }
{
    let figure = fields.result()?;
    fields.done()?;
    Ok(figure)
}
