// Cells on a page. Dots, bang, braces and colon are matched as character literals, here and in
// `numbers`: a rule of this repository.
ghost use Rattle.std.specs.Prelude.{◌≡◌, ◌+◌, ◌<◌, ◌≤◌, length, IfSome};
ghost use Rattle.text.specs.Cells.{dots as dots_of, band as band_of, window as window_of, member as member_of, listed as listed_of, names as names_of, unmarked as unmarked_of, cell as cell_of, entry as entry_of};

use crate::numbers::{measure, number, time};
use crate::parts::{byte_at, until};
use clock::Window;
use house::{Cell, band_cell, names_cell, window_cell};
use items::Entry;
use measure::Band;
use names::NameSet;

// Where the two dots of `0..280` stand.
fn dots(bytes: &[u8]) -> Option<usize>
    ensures at { result ≡ dots_of bytes.now }
    ensures within { IfSome result (λ dot. dot + 2 ≤ length bytes.now) }
{
    let dot = until(bytes, 0, b'.');
    match byte_at(bytes, dot + 1) as char {
        '.' => Some(dot),
        _ => None,
    }
}

// The band of measures `0..280`, which means inside or outside of it.
fn band(inside: bool, bytes: &[u8]) -> Option<Cell>
    ensures { result ≡ band_of inside bytes.now }
{
    let dot = dots(bytes)?;
    let lo = measure(&bytes[0..dot])?;
    let hi = measure(&bytes[dot + 2..])?;
    Some(band_cell(Band { lo, hi, inside }))
}

// The window `22:00-05:59`.
fn window(bytes: &[u8]) -> Option<Cell>
    ensures { result ≡ window_of bytes.now }
{
    if bytes.len() != 11 {
        return None;
    }
    match bytes[5] as char {
        '-' => {
            let start = time(&bytes[..5])?;
            let end = time(&bytes[6..])?;
            Some(window_cell(Window { start, end }))
        }
        _ => None,
    }
}

// The name, 0 to 31, that a part of a set is, which must not stand before `from`.
fn member(from: u32, part: &[u8]) -> Option<u32>
    ensures value { result ≡ member_of from part.now }
    ensures within { IfSome result (λ n. (from ≤ n) × (n < 32)) }
{
    number(part).filter(|n| from <= *n && *n < 32)
}

// The set of names that a list of ascending ones is, one bit a name.
fn listed(bytes: &[u8]) -> Option<u32>
    ensures { result ≡ listed_of bytes.now }
{
    if bytes.is_empty() {
        return Some(0);
    }
    let mut bits: u32 = 0;
    let mut from: u32 = 0;
    for part in bytes.split(|b| *b == b',') {
        let n = member(from, part)?;
        bits += 1 << n;
        from = n + 1;
    }
    Some(bits)
}

// The set of names `{0,3}`, after its first brace.
fn names(bytes: &[u8]) -> Option<Cell>
    ensures { result ≡ names_of bytes.now }
{
    let [list @ .., last] = bytes else {
        return None;
    };
    match *last as char {
        '}' => listed(list).map(|bits| names_cell(NameSet { bits })),
        _ => None,
    }
}

// A window, told by its third byte, or a band.
fn unmarked(field: &[u8]) -> Option<Cell>
    ensures { result ≡ unmarked_of field.now }
{
    match byte_at(field, 2) as char {
        ':' => window(field),
        _ => band(true, field),
    }
}

// A cell, told by its first byte.
fn cell(field: &[u8]) -> Option<Cell>
    ensures { result ≡ cell_of field.now }
{
    let [first, rest @ ..] = field else {
        return None;
    };
    match *first as char {
        '!' => band(false, rest),
        '{' => names(rest),
        _ => unmarked(field),
    }
}

// An entry of a column: a dot for any, or a cell.
pub fn entry(field: &[u8]) -> Option<Entry<Cell>>
    ensures { result ≡ entry_of field.now }
{
    match field {
        b"." => Some(Entry::Any),
        _ => cell(field).map(Entry::Cell),
    }
}
