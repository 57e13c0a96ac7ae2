// A set of names is kept in a u32, so it has no bit beyond the 32 names.
ghost use Rattle.pages.specs.NameBits.{EntryOnlyNames};
ghost use Rattle.std.specs.List.{AllByRecursion};

use house::Cell;
use items::Entry;
use joined::Either;

// An entry with no bit beyond the names: a proof learns a number's range where the code reads it.
fn only_names_of(entry: Entry<Cell>)
    ensures { EntryOnlyNames entry }
{
    if let Entry::Cell(Either::Right(Either::Left(set))) = entry {
        let _bits = set.bits;
    }
}

// Entries with no bit beyond the names.
pub(crate) fn only_names(entries: &[Entry<Cell>])
    ensures { AllByRecursion EntryOnlyNames entries.now }
{
    for entry in entries {
        only_names_of(*entry);
    }
}
