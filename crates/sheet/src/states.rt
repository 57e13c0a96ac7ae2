// The two states of a sheet. Neither can be copied: a draft that was issued is gone, and so is an
// issued sheet that was withdrawn. They are two types, since no call but `counts` is one of both.
ghost use Rattle.std.specs.Prelude.{◌≡◌, false};
ghost use Rattle.tables.specs.Storage.{Bounded};

use items::Counts;

// A sheet that can be written.
#[derive(Drop)]
pub struct Draft {
    pub(crate) counts: Counts,
    ghost few: { Bounded counts },
}

// A sheet that was found without fault.
#[derive(Drop)]
pub struct Issued {
    pub(crate) counts: Counts,
    ghost few: { Bounded counts },
}

impl Draft {
    // A draft without any contents, whatever the lists hold. No other place makes empty counts.
    pub fn open() -> Draft
        ensures { result.counts ≡ record { quantities = 0; rows = 0; columns = 0; nevers = 0; default = false } }
    {
        Draft {
            counts: Counts {
                quantities: 0,
                rows: 0,
                columns: 0,
                nevers: 0,
                default: false,
            },
        }
    }

    // How much of its lists the draft uses.
    pub fn counts(&self) -> Counts
        ensures { result ≡ self.now.counts }
    {
        self.counts
    }

    // The draft as an issued sheet. No `From` says it, which every caller could use.
    pub(crate) fn into_issued(self) -> Issued
        ensures { result.counts ≡ self.counts }
    {
        Issued {
            counts: self.counts,
        }
    }
}

impl Issued {
    // How much of its lists the sheet uses.
    pub fn counts(&self) -> Counts
        ensures { result ≡ self.now.counts }
    {
        self.counts
    }

    // The sheet as a draft. No `From` says it, which every caller could use.
    pub(crate) fn into_draft(self) -> Draft
        ensures { result.counts ≡ self.counts }
    {
        Draft {
            counts: self.counts,
        }
    }
}
