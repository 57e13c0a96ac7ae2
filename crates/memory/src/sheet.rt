// The four lists of a sheet.
ghost use Rattle.std.specs.Prelude.{◌≡◌};
ghost use Rattle.lists.specs.Held.{lists_of};
ghost use Rattle.memory.specs.Memory.{blank_lists, kept};
ghost use Rattle.tables.specs.Storage.{RightLengths};

use items::{Entry, Mode, Quantity, Row, Scope};
use kinds::Kind;
use lists::lent::Lists;

// The four lists of a sheet, each of right length.
#[derive(Drop)]
pub struct SheetMemory<K: Kind, R> {
    quantities: [Quantity<K::Value>; 16],
    rows: [Row; 16],
    entries: [Entry<K::Cell>; 384],
    results: [R; 17],
}

impl<K: Kind, R: Copy> SheetMemory<K, R> {
    // Lists that hold no sheet yet: one value and one result everywhere, and no cell.
    pub fn new(value: K::Value, res: R) -> SheetMemory<K, R>
        ensures { kept result ≡ blank_lists value res }
    {
        SheetMemory {
            quantities: [Quantity {
                scope: Scope::Pair,
                least: value,
                greatest: value,
            }; 16],
            rows: [Row {
                quantity: 0,
                mode: Mode::Pair,
            }; 16],
            entries: [Entry::Any; 384],
            results: [res; 17],
        }
    }
}

impl<K: Kind, R> SheetMemory<K, R> {
    // Lends the lists. Lent again, they hold what was written.
    // No clause says that: the words on what is written through a returned `&mut` reach two of them.
    pub fn lend(&mut self) -> Lists<'_, K, R>
        ensures lent { lists_of result ≡ kept self.old }
        ensures lengths { RightLengths (lists_of result) }
    {
        let SheetMemory {
            quantities,
            rows,
            entries,
            results,
        } = self;
        Lists {
            quantities: &mut quantities[..],
            rows: &mut rows[..],
            entries: &mut entries[..],
            results: &mut results[..],
        }
    }
}
