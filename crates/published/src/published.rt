// What the published analysis says of the table on a page, and why issue may say something else.
use crate::answers::Answer;
use std::fmt;

// Does a table answer the same with the flights exchanged?
#[derive(Clone, Copy)]
pub enum Symmetry {
    // It is symmetric.
    Shown,
    // It is symmetric if the terms that its rows and results name are, which the page takes for granted.
    OfTerms,
    // It is symmetric if what it writes in two ways is written in one, as on the page.
    OfWriting,
}

// What the published analysis says of a table.
#[derive(Clone, Copy)]
pub enum Published {
    // Every case has a column or falls to the default.
    Complete,
    // Cases are missing.
    Incomplete,
    // Two columns conflict.
    Inconsistent,
    // How many cases fall to the default or to no, in how many cases columns conflict, and symmetry.
    Summary {
        defaults: u32,
        conflicts: u32,
        symmetry: Symmetry,
    },
    // So many cases have no column; they are the last columns of the page, so many.
    Cases {
        listed: u32,
        columns: usize,
    },
    // In so many cases columns conflict; they are the last nevers of the page.
    Conflicts(usize),
    // It is symmetric under conditions on its terms; they are the last nevers of the page, so many.
    Conditions(usize),
    // It is symmetric under conditions on its terms, which the page leaves open.
    OpenConditions,
    // Nothing: an assumption is left out.
    Unassumed,
    // Nothing: a fault or a misprint is amended.
    Amended,
}

// Why the two differ.
#[derive(Clone, Copy)]
pub enum Why {
    // The table has a hole as well as a conflict.
    HoleFirst,
    // A case of the published list has a no where a yes is meant.
    Misprint,
    // Fewer of the listed cases would do.
    Surplus,
}

// The lines of a page that stand for a published list: the last ones with a first word. Left out
// alone, each should have issue answer so.
#[derive(Clone, Copy)]
pub struct Listed {
    pub word: &'static str,
    pub lines: usize,
    pub without: Answer,
}

impl fmt::Display for Symmetry {
    fn fmt<W: fmt::Write>(&self, f: &mut fmt::Formatter<W>) -> fmt::Result {
        f.write_str(match self {
            Symmetry::Shown => "symmetric",
            Symmetry::OfTerms => "symmetric if its terms are",
            Symmetry::OfWriting => "symmetric if written one way",
        })
    }
}

impl fmt::Display for Published {
    fn fmt<W: fmt::Write>(&self, f: &mut fmt::Formatter<W>) -> fmt::Result {
        match self {
            Published::Complete => f.write_str("complete"),
            Published::Incomplete => f.write_str("cases are missing"),
            Published::Inconsistent => f.write_str("two columns conflict"),
            Published::Summary {
                defaults,
                conflicts,
                symmetry,
            } => write!(
                f,
                "default cases {defaults}, conflicts {conflicts}, {symmetry}"
            ),
            Published::Cases { listed, .. } => write!(f, "default cases {listed}, listed"),
            Published::Conflicts(n) => write!(f, "conflicts {n}, listed"),
            Published::Conditions(_) => f.write_str("symmetric under its conditions"),
            Published::OpenConditions => f.write_str("symmetric only under conditions"),
            Published::Unassumed => f.write_str("nothing: an assumption is left out"),
            Published::Amended => f.write_str("nothing: a fault is amended"),
        }
    }
}

impl Published {
    // What issue answers if the analysis is right; none where it says nothing of the page.
    pub fn answer(self) -> Option<Answer> {
        match self {
            Published::Incomplete => Some(Answer::Hole),
            Published::Inconsistent => Some(Answer::Conflict),
            Published::OpenConditions => Some(Answer::Asymmetry),
            Published::Summary { conflicts, .. } if conflicts > 0 => Some(Answer::Conflict),
            Published::Unassumed | Published::Amended => None,
            _ => Some(Answer::Issued),
        }
    }

    // The lines that stand for what it lists.
    pub fn listed(self) -> Option<Listed> {
        match self {
            Published::Cases { columns, .. } => Some(Listed {
                word: "column ",
                lines: columns,
                without: Answer::Hole,
            }),
            Published::Conflicts(lines) => Some(Listed {
                word: "never ",
                lines,
                without: Answer::Conflict,
            }),
            Published::Conditions(lines) => Some(Listed {
                word: "never ",
                lines,
                without: Answer::Asymmetry,
            }),
            _ => None,
        }
    }
}

impl fmt::Display for Why {
    fn fmt<W: fmt::Write>(&self, f: &mut fmt::Formatter<W>) -> fmt::Result {
        f.write_str(match self {
            Why::HoleFirst => "it has holes too, and these are asked for first",
            Why::Misprint => "one listed case has a no where a yes is meant",
            Why::Surplus => "fewer of the listed cases would do",
        })
    }
}
