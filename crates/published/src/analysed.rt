// The published tables, by the names of their pages in data/.
use crate::published::{Published, Symmetry, Why};
use std::fmt;

// A page, and what is published of it.
#[derive(Clone, Copy)]
pub struct Table {
    pub name: &'static str,
    pub published: Published,
    // Why issue says something else, where it does and that is known.
    pub why: Option<Why>,
}

// Whether issue agrees with what is published of a table.
#[derive(Clone, Copy)]
pub enum Verdict {
    NotCompared,
    Agrees,
    Differs(Option<Why>),
}

impl fmt::Display for Verdict {
    fn fmt<W: fmt::Write>(&self, f: &mut fmt::Formatter<W>) -> fmt::Result {
        match self {
            Verdict::NotCompared => f.write_str("not compared"),
            Verdict::Agrees => f.write_str("agrees"),
            Verdict::Differs(Some(why)) => write!(f, "differs: {why}"),
            Verdict::Differs(None) => f.write_str("differs: not explained"),
        }
    }
}

impl Table {
    // Whether issue agrees with what is published, given what of it holds.
    pub fn verdict(self, holds: bool) -> Verdict {
        if self.published.answer().is_none() {
            Verdict::NotCompared
        } else if holds {
            Verdict::Agrees
        } else {
            Verdict::Differs(self.why)
        }
    }
}

// What the analysis tells of a table, and issue should too.
fn told(name: &'static str, published: Published) -> Table {
    Table {
        name,
        published,
        why: None,
    }
}

// What the analysis tells of a table, and why issue does not.
fn differing(name: &'static str, published: Published, why: Why) -> Table {
    Table {
        name,
        published,
        why: Some(why),
    }
}

// A table that is symmetric: how many cases fall to the default, and in how many columns conflict.
fn symmetric(name: &'static str, defaults: u32, conflicts: u32) -> Table {
    told(
        name,
        Published::Summary {
            defaults,
            conflicts,
            symmetry: Symmetry::Shown,
        },
    )
}

// A table without conflicts that is symmetric under a proviso.
fn provided(name: &'static str, defaults: u32, symmetry: Symmetry) -> Table {
    told(
        name,
        Published::Summary {
            defaults,
            conflicts: 0,
            symmetry,
        },
    )
}

// A table without conflicts that is symmetric if its terms are.
fn of_terms(name: &'static str, defaults: u32) -> Table {
    provided(name, defaults, Symmetry::OfTerms)
}

// So many listed cases, as the last columns of a page.
fn in_columns(listed: u32, columns: usize) -> Published {
    Published::Cases { listed, columns }
}

// Vertical minima.
pub fn vertical() -> [Table; 3] {
    [
        symmetric("vertical", 4, 0),
        told("vertical-without-default", Published::Incomplete),
        told("vertical-cases", in_columns(4, 4)),
    ]
}

// Lateral minima.
pub fn lateral() -> [Table; 8] {
    [
        symmetric("lateral", 16, 4),
        symmetric("lateral-minutes", 16, 4),
        told("lateral-settled", Published::Amended),
        told("lateral-conflicts", Published::Conflicts(4)),
        told("lateral-inside-or-outside", Published::Amended),
        told("lateral-cases", in_columns(16, 16)),
        told("lateral-cases-and-columns", in_columns(16, 12)),
        told("lateral-cases-unrelated", Published::Unassumed),
    ]
}

// Whether width is measured in latitude.
pub fn latitude() -> [Table; 5] {
    [
        provided("latitude", 17, Symmetry::OfWriting),
        differing("latitude-cases", in_columns(17, 16), Why::Misprint),
        told("latitude-cases-corrected", Published::Amended),
        told("latitude-cases-and-columns", Published::Amended),
        told("latitude-cases-unrelated", Published::Unassumed),
    ]
}

// Which rule holds along the way.
pub fn rules() -> [Table; 5] {
    [
        of_terms("rule-same-direction", 1),
        of_terms("rule-opposite-direction", 1),
        told("rule-cases", in_columns(1, 1)),
        of_terms("turbojet-rules-same-direction", 0),
        of_terms("turbojet-rules-opposite-direction", 0),
    ]
}

// Minutes between supersonic flights.
pub fn supersonic() -> [Table; 9] {
    [
        of_terms("opposite-direction-start", 0),
        of_terms("opposite-direction-end", 0),
        told("opposite-direction-by-flight", Published::OpenConditions),
        told(
            "opposite-direction-by-flight-alike",
            Published::Conditions(2),
        ),
        symmetric("same-direction-supersonic", 3, 0),
        told("same-direction-supersonic-cases", in_columns(3, 3)),
        symmetric("supersonic-alike", 4, 0),
        differing("supersonic-alike-cases", in_columns(4, 4), Why::Surplus),
        told("supersonic-alike-cases-unrelated", Published::Unassumed),
    ]
}

// Minutes between turbojets.
pub fn turbojet() -> [Table; 11] {
    [
        of_terms("mnps-same-direction", 3),
        told("mnps-same-direction-cases", in_columns(3, 3)),
        told("mnps-same-direction-by-flight", Published::OpenConditions),
        told(
            "mnps-same-direction-by-flight-alike",
            Published::Conditions(6),
        ),
        symmetric("watrs-condition", 8, 0),
        told("watrs-condition-cases", in_columns(8, 8)),
        of_terms("general-same-direction", 5),
        told("general-same-direction-cases", in_columns(5, 5)),
        told(
            "general-same-direction-by-flight",
            Published::OpenConditions,
        ),
        told(
            "general-same-direction-by-flight-alike",
            Published::Conditions(3),
        ),
        told("general-same-direction-hundredths", Published::Amended),
    ]
}

// Minutes between other flights.
pub fn other_aircraft() -> [Table; 3] {
    [
        symmetric("same-direction", 2, 1),
        told("same-direction-conflict", Published::Conflicts(1)),
        told("same-direction-cases", in_columns(2, 2)),
    ]
}

// The small tables that teach how tables are read and what can be wrong with one.
pub fn teaching() -> [Table; 13] {
    [
        told("teaching-every-case", Published::Complete),
        told("teaching-any", Published::Complete),
        told("teaching-default", Published::Complete),
        told("teaching-two-rows", Published::Complete),
        told("teaching-one-row", Published::Complete),
        told("teaching-function", Published::Complete),
        told("teaching-bands", Published::Complete),
        told("teaching-band-missing", Published::Incomplete),
        told("teaching-missing-case", Published::Incomplete),
        told("teaching-missing-value", Published::Incomplete),
        told("teaching-missing-value-alone", Published::Incomplete),
        differing("teaching-conflict", Published::Inconsistent, Why::HoleFirst),
        told("teaching-conflict-with-default", Published::Inconsistent),
    ]
}
