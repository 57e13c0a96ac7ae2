// Why a call is refused. Each case has one number, by which users know it, and the values that
// the refusal tells. The faults of a lower layer turn into those of the next by `From`.

#![tactic(auto)]

ghost use Rattle.std.specs.Prelude.{◌≡◌};
ghost use Rattle.faults.specs.Numbers.{kind_number, lookup_number, sheet_number};
ghost use Rattle.faults.specs.declared.SheetFault.TheVariants.{Kind as OfKind, Lookup as OfLookup};

use items::Side;

// What a kind of condition does not accept.
#[derive(Clone, Copy, PartialEq, Eq)]
pub enum KindFault {
    // The two values make no lawful range.
    Range,
    // The cell is not lawful for the row's range.
    Cell,
}

// Why a look-up gives no result.
#[derive(Clone, Copy, PartialEq, Eq)]
pub enum LookupFault {
    // The first needed value out of range: in whose list, and of which quantity.
    OutOfRange { side: Side, quantity: usize },
    // The encounter cannot occur.
    Barred,
    // No column is met and there is no default.
    Gap,
    // Two columns met bear unequal results.
    Clash,
}

// Why a call on a sheet is refused.
#[derive(Clone, Copy, PartialEq, Eq)]
pub enum SheetFault {
    // A list is not of right length, or an entry in use is one that no draft call would accept.
    Lists,
    TooManyQuantities,
    Kind(KindFault),
    TooManyRows,
    NoSuchQuantity,
    // The row's mode is not for its quantity.
    WrongMode,
    TooManyColumns,
    TooManyNevers,
    // The result is not lawful.
    UnlawfulResult,
    // There is no such row or column.
    NoSuchPlace,
    NothingToStrike,
    // The three lists of an encounter are not of right length.
    EncounterLists,
    TooManyEncounters,
    AllBarred,
    Gap,
    // The lowest column met, and the next one met with an unequal result.
    Clash { lowest: usize, other: usize },
    Asymmetry,
    Lookup(LookupFault),
}

impl KindFault {
    // The number by which users know the refusal.
    pub fn number(self) -> u8
        ensures { result ≡ kind_number self }
    {
        match self {
            KindFault::Range => 3,
            KindFault::Cell => 11,
        }
    }
}

impl LookupFault {
    // The number by which users know the refusal.
    pub fn number(self) -> u8
        ensures { result ≡ lookup_number self }
    {
        match self {
            LookupFault::OutOfRange { .. } => 19,
            LookupFault::Barred => 20,
            LookupFault::Gap => 21,
            LookupFault::Clash => 22,
        }
    }
}

impl SheetFault {
    // The number by which users know the refusal.
    pub fn number(self) -> u8
        ensures { result ≡ sheet_number self }
    {
        match self {
            SheetFault::Lists => 1,
            SheetFault::TooManyQuantities => 2,
            SheetFault::Kind(fault) => fault.number(),
            SheetFault::TooManyRows => 4,
            SheetFault::NoSuchQuantity => 5,
            SheetFault::WrongMode => 6,
            SheetFault::TooManyColumns => 7,
            SheetFault::TooManyNevers => 8,
            SheetFault::UnlawfulResult => 9,
            SheetFault::NoSuchPlace => 10,
            SheetFault::NothingToStrike => 12,
            SheetFault::EncounterLists => 13,
            SheetFault::TooManyEncounters => 14,
            SheetFault::AllBarred => 15,
            SheetFault::Gap => 16,
            SheetFault::Clash { .. } => 17,
            SheetFault::Asymmetry => 18,
            SheetFault::Lookup(fault) => fault.number(),
        }
    }
}

impl From<KindFault> for SheetFault {
    ghost from_gives = { λ e r. r ≡ OfKind e };

    fn from(fault: KindFault) -> SheetFault {
        SheetFault::Kind(fault)
    }
}

impl From<LookupFault> for SheetFault {
    ghost from_gives = { λ e r. r ≡ OfLookup e };

    fn from(fault: LookupFault) -> SheetFault {
        SheetFault::Lookup(fault)
    }
}
