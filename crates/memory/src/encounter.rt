// The three lists of an encounter.
ghost use Rattle.std.specs.Prelude.{◌≡◌, true};
ghost use Rattle.lists.specs.Held.{shown};
ghost use Rattle.memory.specs.Memory.{blank_encounter, values};
ghost use Rattle.tables.specs.Contents.{whole};

use lists::lent::Showing;

// The three lists of an encounter, each of right length.
#[derive(Drop)]
pub struct EncounterMemory<V> {
    a: [V; 16],
    b: [V; 16],
    pair: [V; 16],
}

impl<V: Copy> EncounterMemory<V> {
    // Lists with one value everywhere.
    pub fn new(value: V) -> EncounterMemory<V>
        ensures { values result ≡ blank_encounter value }
    {
        EncounterMemory {
            a: [value; 16],
            b: [value; 16],
            pair: [value; 16],
        }
    }
}

impl<V> EncounterMemory<V> {
    // Lends the lists. Lent again, they hold what was written.
    // No clause says that: the words on what is written through a returned `&mut` reach two of them.
    pub fn lend(&mut self) -> Showing<'_, V>
        ensures lent { shown result ≡ values self.old }
        ensures lengths { whole (shown result) ≡ true }
    {
        let EncounterMemory { a, b, pair } = self;
        Showing {
            a: &mut a[..],
            b: &mut b[..],
            pair: &mut pair[..],
        }
    }
}
