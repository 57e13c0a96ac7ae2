// The lines of the program's answer.
ghost use Rattle.std.specs.Prelude.{◌≡◌, ◌++◌, IfOk, string_bytes, OnOk};
ghost use Rattle.items.specs.declared.Scope.TheVariants.{Flight as OfEach, Pair as OfBoth};
ghost use Rattle.lists.specs.Held.{encounter_of};
ghost use Rattle.reports.specs.Reports.{issued_text, line_shown, lines_shown, refusal_text, refused_text};

use crate::values::value_shown;
use house::Value;
use items::{Quantity, Scope, Side};
use lists::lent::Encounter;
use page_faults::PageRefusal;
use std::alloc::{AllocError, Global};

// The line of an issued sheet.
pub fn issued_line(heap: Global, count: u32) -> Result<String, AllocError>
    ensures { IfOk result (λ s. string_bytes s ≡ issued_text count) }
{
    format!(in heap; "issued {count}\n")
}

// The line of a sheet that is not issued.
pub fn refused_line(heap: Global, number: u8) -> Result<String, AllocError>
    ensures { IfOk result (λ s. string_bytes s ≡ refused_text number) }
{
    format!(in heap; "refused {number}\n")
}

// The line of a page that is not read to its end. A `Display` of the refusal would be used here alone.
pub fn refusal_line(heap: Global, refusal: PageRefusal) -> Result<String, AllocError>
    ensures { IfOk result (λ s. string_bytes s ≡ refusal_text refusal) }
{
    let number = refusal.fault.number();
    let line = refusal.line;
    let byte = refusal.byte;
    Ok(format!(in heap; "refused {number} line {line} byte {byte}\n")?)
}

// The line of a flight quantity: its number, then A's value and B's.
fn flight_line(heap: Global, i: usize, e: &Encounter<'_, Value>) -> Result<String, AllocError>
    ensures { IfOk result (λ s. string_bytes s ≡ line_shown i (encounter_of e.now) OfEach) }
{
    let a = value_shown(heap, e.value(Side::OfA, i))?;
    let b = value_shown(heap, e.value(Side::OfB, i))?;
    Ok(format!(in heap; "{i}{a}{b}\n")?)
}

// The line of a pair quantity: its number, then the pair's value.
fn pair_line(heap: Global, i: usize, e: &Encounter<'_, Value>) -> Result<String, AllocError>
    ensures { IfOk result (λ s. string_bytes s ≡ line_shown i (encounter_of e.now) OfBoth) }
{
    let pair = value_shown(heap, e.value(Side::OfPair, i))?;
    Ok(format!(in heap; "{i}{pair}\n")?)
}

// The line of a quantity. A `match` on the scope, since each function that has one does another thing
// with it.
fn quantity_line(
    heap: Global,
    i: usize,
    e: &Encounter<'_, Value>,
    scope: Scope,
) -> Result<String, AllocError>
    ensures { IfOk result (λ s. string_bytes s ≡ line_shown i (encounter_of e.now) scope) }
{
    match scope {
        Scope::Flight => flight_line(heap, i, e),
        Scope::Pair => pair_line(heap, i, e),
    }
}

// Adds a line for each quantity.
pub fn add_lines(
    heap: Global,
    e: &Encounter<'_, Value>,
    quantities: &[Quantity<Value>],
    text: &mut String,
) -> Result<(), AllocError>
    ensures { OnOk result (string_bytes text.new ≡ string_bytes text.old ++ lines_shown 0 (encounter_of e.now) quantities.now) }
{
    for (i, quantity) in quantities.iter().enumerate() {
        let line = quantity_line(heap, i, e, quantity.scope)?;
        text.push_str(line.as_str())?;
    }
    Ok(())
}
