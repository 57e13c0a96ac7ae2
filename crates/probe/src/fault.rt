// Why a probe is refused: its own limits, or a look-up's refusal with the letter of the sheet.
ghost use Rattle.std.specs.Prelude.{◌≡◌, Some};
ghost use Rattle.probe.specs.Lettering.{fault_text, letter_text, probe_number};
ghost use Rattle.probe.specs.declared.fault.ProbeFault.TheVariants.{Sheet as OfSheet};

use faults::SheetFault;
use std::fmt;

// The four sheets: vertical and lateral minima, and along the way those of the same direction and
// the periods of opposite ones.
#[derive(Clone, Copy)]
pub enum Letter {
    V,
    L,
    G,
    N,
}

// A refusal of one of the sheets.
#[derive(Clone, Copy)]
pub struct Lettered {
    pub letter: Letter,
    pub fault: SheetFault,
}

// Why a probe is refused. The letter and the fault, not `Lettered`: whoever tells a refusal takes the
// two apart.
#[derive(Clone, Copy)]
pub enum ProbeFault {
    // A fix or a time is out of its limits.
    Limits,
    Sheet(Letter, SheetFault),
}

impl fmt::Display for Letter {
    ghost output = { λ k. Some (letter_text k) };

    fn fmt<W: fmt::Write>(&self, f: &mut fmt::Formatter<W>) -> fmt::Result {
        match self {
            Letter::V => write!(f, "V"),
            Letter::L => write!(f, "L"),
            Letter::G => write!(f, "G"),
            Letter::N => write!(f, "N"),
        }
    }
}

impl fmt::Display for ProbeFault {
    ghost output = { λ k. Some (fault_text k) };

    fn fmt<W: fmt::Write>(&self, f: &mut fmt::Formatter<W>) -> fmt::Result {
        match self {
            ProbeFault::Limits => write!(f, "refused 23"),
            ProbeFault::Sheet(letter, fault) => write!(f, "refused {} by {letter}", fault.number()),
        }
    }
}

impl ProbeFault {
    // The number by which users know the refusal.
    pub fn number(self) -> u8
        ensures { result ≡ probe_number self }
    {
        match self {
            ProbeFault::Limits => 23,
            ProbeFault::Sheet(_, fault) => fault.number(),
        }
    }
}

impl From<Lettered> for ProbeFault {
    ghost from_gives = { λ e r. r ≡ OfSheet e.letter e.fault };

    fn from(refusal: Lettered) -> ProbeFault {
        ProbeFault::Sheet(refusal.letter, refusal.fault)
    }
}
