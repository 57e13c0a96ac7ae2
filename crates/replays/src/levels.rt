// A script over levels, measures with figures as results.
use crate::writing::{column, default, name, row, set};
use edits::edit::Edit;
use items::{Entry, Mode, Scope};
use lists::lent::Encounter;
use measure::Band;
use replay::script::Call;
use results::figure::Figure;

type LevelCall = Call<'static, i32, Band, Figure>;

// Lists of 16 values, and one list of 15 in the last: a low flight and a high one, two high ones, one
// from 600 on with a low one, one out of range, and one whose first list is too short.
const LOW: Encounter<'static, i32> = Encounter {
    a: &[100; 16],
    b: &[300; 16],
    pair: &[7; 16],
};

const HIGH: Encounter<'static, i32> = Encounter {
    a: &[300; 16],
    b: &[300; 16],
    pair: &[3; 16],
};

const TOP: Encounter<'static, i32> = Encounter {
    a: &[650; 16],
    b: &[100; 16],
    pair: &[100; 16],
};

const OUT: Encounter<'static, i32> = Encounter {
    a: &[700; 16],
    b: &[300; 16],
    pair: &[7; 16],
};

const SHORT: Encounter<'static, i32> = Encounter {
    a: &[100; 15],
    b: &[300; 16],
    pair: &[7; 16],
};

fn feet(value: i32) -> Figure {
    Figure { value }
}

fn band(lo: i32, hi: i32) -> Entry<Band> {
    Entry::Cell(Band {
        lo,
        hi,
        inside: true,
    })
}

// A draft is written, with refused edits on the way, and issue shows a gap and two clashes.
pub fn writing() -> [LevelCall; 20] {
    [
        Call::LookUp(LOW),
        Call::Withdraw,
        Call::Edit(Edit::StrikeColumn),
        row(0, Mode::A),
        name(Scope::Flight, 660, 0),
        name(Scope::Flight, 0, 660),
        row(0, Mode::Pair),
        row(0, Mode::Either),
        column(feet(2_000_000)),
        column(feet(1000)),
        set(0, 1, band(0, 280)),
        set(1, 0, band(0, 280)),
        set(0, 0, band(280, 0)),
        set(0, 0, band(0, 280)),
        Call::Issue,
        Call::LookUp(LOW),
        column(feet(2000)),
        Call::Issue,
        set(0, 1, band(281, 660)),
        Call::Issue,
    ]
}

// The sheet is issued with a default, looked up and withdrawn; calls that its state does not allow
// come in between.
fn asking() -> [LevelCall; 18] {
    [
        Call::Edit(Edit::StrikeColumn),
        default(feet(2000)),
        Call::Issue,
        Call::Issue,
        column(feet(5)),
        Call::LookUp(LOW),
        Call::LookUp(HIGH),
        Call::LookUp(OUT),
        Call::LookUp(OUT.exchanged()),
        Call::LookUp(SHORT),
        Call::Edit(Edit::ClearDefault),
        Call::Withdraw,
        Call::Withdraw,
        Call::Edit(Edit::ClearDefault),
        Call::Edit(Edit::ClearDefault),
        Call::Issue,
        default(feet(1_000_001)),
        default(feet(3000)),
    ]
}

// A never bars first all encounters, then those with a level from 600 on, and is struck; a
// quantity of the pair comes in.
fn barring() -> [LevelCall; 20] {
    [
        Call::Edit(Edit::AddNever),
        Call::Issue,
        set(0, 16, band(600, 660)),
        Call::Issue,
        Call::LookUp(TOP),
        Call::LookUp(TOP.exchanged()),
        Call::LookUp(LOW),
        Call::LookUp(HIGH),
        Call::Withdraw,
        Call::Edit(Edit::StrikeNever),
        Call::Edit(Edit::StrikeNever),
        name(Scope::Pair, 0, 10),
        row(1, Mode::Pair),
        row(1, Mode::A),
        set(1, 0, band(5, 10)),
        Call::Issue,
        Call::LookUp(LOW),
        Call::LookUp(HIGH),
        Call::LookUp(TOP),
        Call::Issue,
    ]
}

// The second part of the script and the third. An array, so that the program needs no memory but its own.
fn asking_and_barring() -> [LevelCall; 38] {
    let mut script = [Call::Issue; 38];
    script[..18].copy_from_slice(&asking());
    script[18..].copy_from_slice(&barring());
    script
}

// The whole script. Of a list that is written in three parts a proof no longer knows how long it is.
pub fn script() -> [LevelCall; 58] {
    let mut script = [Call::Issue; 58];
    script[..20].copy_from_slice(&writing());
    script[20..].copy_from_slice(&asking_and_barring());
    script
}
