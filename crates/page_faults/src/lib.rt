// Why and where a page is refused, in reading and in writing.

#![tactic(auto)]

ghost use Rattle.std.specs.Prelude.{◌≡◌};
ghost use Rattle.page_faults.specs.Numbers.{layer_of, page_number, write_number};
ghost use Rattle.page_faults.specs.declared.PageFault.TheVariants.{Call as CallOf};
ghost use Rattle.page_faults.specs.declared.WriteFault.TheVariants.{Call as CallIn};

use faults::SheetFault;

// The layer that gave a refusal: the page, the kind of condition or the sheet.
#[derive(Clone, Copy)]
pub enum Layer {
    OfPage,
    OfKind,
    OfSheet,
}

// Why a page is not read.
#[derive(Clone, Copy)]
pub enum PageFault {
    // It has more than 65,536 bytes.
    TooLong,
    // Its last line is not `end` with its byte 10.
    NotEnded,
    // A line's first word is not allowed there.
    Word,
    // A line's fields are not right in form and number.
    Form,
    // A draft call refuses what a line says.
    Call(SheetFault),
}

// A refusal within a line: the byte is where the first wrong field starts, else 1.
#[derive(Clone, Copy)]
pub struct LineFault {
    pub fault: PageFault,
    pub byte: usize,
}

// A refusal with its line, from 1, and its byte.
#[derive(Clone, Copy)]
pub struct PageRefusal {
    pub fault: PageFault,
    pub line: usize,
    pub byte: usize,
}

// Why a page is not written.
#[derive(Clone, Copy)]
pub enum WriteFault {
    // The draft's lists are not in order.
    Call(SheetFault),
    // The page does not fit the buffer.
    NoRoom,
}

impl PageFault {
    // The number by which users know the refusal.
    pub fn number(self) -> u8
        ensures { result ≡ page_number self }
    {
        match self {
            PageFault::TooLong => 24,
            PageFault::NotEnded => 25,
            PageFault::Word => 26,
            PageFault::Form => 27,
            PageFault::Call(fault) => fault.number(),
        }
    }

    // The layer that gave the refusal.
    pub fn layer(self) -> Layer
        ensures { result ≡ layer_of self }
    {
        match self {
            PageFault::TooLong | PageFault::NotEnded | PageFault::Word | PageFault::Form => {
                Layer::OfPage
            }
            PageFault::Call(SheetFault::Kind(_)) => Layer::OfKind,
            PageFault::Call(_) => Layer::OfSheet,
        }
    }
}

impl LineFault {
    // The refusal, on a line with this number.
    pub fn on_line(self, line: usize) -> PageRefusal
        ensures { result ≡ record { fault = self.fault; line = line; byte = self.byte } }
    {
        let LineFault { fault, byte } = self;
        PageRefusal { fault, line, byte }
    }
}

impl WriteFault {
    // The number by which users know the refusal.
    pub fn number(self) -> u8
        ensures { result ≡ write_number self }
    {
        match self {
            WriteFault::Call(fault) => fault.number(),
            WriteFault::NoRoom => 28,
        }
    }
}

// A fault of a whole line tells its first byte.
impl From<PageFault> for LineFault {
    ghost from_gives = { λ e r. r ≡ record { fault = e; byte = 1 } };

    fn from(fault: PageFault) -> LineFault {
        LineFault { fault, byte: 1 }
    }
}

// A fault of a whole page tells its first line.
impl From<PageFault> for PageRefusal {
    ghost from_gives = { λ e r. r ≡ record { fault = e; line = 1; byte = 1 } };

    fn from(fault: PageFault) -> PageRefusal {
        PageRefusal {
            fault,
            line: 1,
            byte: 1,
        }
    }
}

impl From<SheetFault> for PageFault {
    ghost from_gives = { λ e r. r ≡ CallOf e };

    fn from(fault: SheetFault) -> PageFault {
        PageFault::Call(fault)
    }
}

impl From<SheetFault> for WriteFault {
    ghost from_gives = { λ e r. r ≡ CallIn e };

    fn from(fault: SheetFault) -> WriteFault {
        WriteFault::Call(fault)
    }
}
