// The draft calls that each kind of line asks for, and where a refusal stands.
ghost use Rattle.std.specs.Prelude.{◌≡◌, ◌+◌, List, [], ◌∷◌};
ghost use Rattle.items.specs.declared.Counts.{Counts};
ghost use Rattle.page_faults.specs.declared.PageFault.TheVariants.{Call as Denied};
ghost use Rattle.pages.specs.Reads.{calls_of, cells_from};
ghost use Rattle.asking.specs.Asks.{asked_of, byte_of};
ghost use Rattle.text.specs.Lines.{quantity_line, row_line, column_line, never_line, default_line};
ghost use Rattle.text.specs.declared.types.Placed.{Placed as PlacedEntry};

use crate::asked::{Asked, Wrong};
use edits::edit::Edit;
use faults::{KindFault, SheetFault};
use page_faults::LineFault;
use results::figure::Figure;
use text::types::{Placed, QuantityLine, RowLine};

// The byte at which a result starts in a line `column ..`, and in a line `default ..`.
const COLUMN_RESULT: usize = 8;

const DEFAULT_RESULT: usize = 9;

impl Wrong {
    // The byte of the field that a refusal finds wrong, or byte 1.
    fn byte(self, fault: SheetFault) -> usize
        ensures { result ≡ byte_of self fault }
    {
        match (self, fault) {
            (Wrong::Range(byte), SheetFault::Kind(KindFault::Range)) => byte,
            (Wrong::Row { quantity, .. }, SheetFault::NoSuchQuantity) => quantity,
            (Wrong::Row { mode, .. }, SheetFault::WrongMode) => mode,
            (Wrong::Figure(byte), SheetFault::UnlawfulResult) => byte,
            (Wrong::Entry(byte), SheetFault::Kind(KindFault::Cell)) => byte,
            _ => 1,
        }
    }
}

impl Asked {
    // An unlawful range tells its least value.
    pub fn quantity(said: QuantityLine) -> Asked
        ensures { (n : Counts) → calls_of n (quantity_line said) ≡ asked_of result ∷ [] }
    {
        Asked {
            edit: Edit::NameQuantity(said.quantity),
            wrong: Wrong::Range(said.least_byte),
        }
    }

    // A quantity that is not there tells its number, a mode that does not fit itself.
    pub fn row(said: RowLine) -> Asked
        ensures { (n : Counts) → calls_of n (row_line said) ≡ asked_of result ∷ [] }
    {
        let wrong = Wrong::Row {
            quantity: said.quantity_byte,
            mode: said.mode_byte,
        };
        Asked {
            edit: Edit::AddRow(said.row),
            wrong,
        }
    }

    // An unlawful result tells where it stands.
    pub fn column(res: Figure) -> Asked
        ensures { (n : Counts) (ps : List PlacedEntry) → calls_of n (column_line res ps) ≡ asked_of result ∷ cells_from n.columns 0 ps }
    {
        Asked {
            edit: Edit::AddColumn(res),
            wrong: Wrong::Figure(COLUMN_RESULT),
        }
    }

    // A never has no field of its own.
    pub fn never() -> Asked
        ensures { (n : Counts) (ps : List PlacedEntry) → calls_of n (never_line ps) ≡ asked_of result ∷ cells_from (16 + n.nevers) 0 ps }
    {
        Asked {
            edit: Edit::AddNever,
            wrong: Wrong::Nowhere,
        }
    }

    // An entry that is not lawful tells where it stands.
    pub fn entry(row: usize, column: usize, said: Placed) -> Asked
        ensures { (ps : List PlacedEntry) → cells_from column row (said ∷ ps) ≡ asked_of result ∷ cells_from column (row + 1) ps }
    {
        let Placed { entry, byte } = said;
        Asked {
            edit: Edit::SetCell { row, column, entry },
            wrong: Wrong::Entry(byte),
        }
    }

    // An unlawful result tells where it stands.
    pub fn default(res: Figure) -> Asked
        ensures { (n : Counts) → calls_of n (default_line res) ≡ asked_of result ∷ [] }
    {
        Asked {
            edit: Edit::SetDefault(res),
            wrong: Wrong::Figure(DEFAULT_RESULT),
        }
    }

    // The refusal of the call, with the byte to tell.
    pub fn denied(self, fault: SheetFault) -> LineFault
        ensures { result ≡ record { fault = Denied fault; byte = (asked_of self).byte fault } }
    {
        LineFault {
            fault: fault.into(),
            byte: self.wrong.byte(fault),
        }
    }
}
