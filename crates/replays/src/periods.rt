// A script over names with periods as results.
use crate::writing::{column, default, name, row, set};
use edits::edit::Edit;
use items::{Entry, Mode, Scope};
use lists::lent::Encounter;
use names::NameSet;
use replay::script::Call;
use results::period::Period;

type NameCall = Call<'static, u32, NameSet, Period>;

// Encounters of flights without a name, and of one flight with the name 1 or 2. The lists of an
// encounter have 16 values, so these are arrays of as many.
const NEITHER: Encounter<'static, u32> = Encounter {
    a: &[0; 16],
    b: &[0; 16],
    pair: &[0; 16],
};

const ONE: Encounter<'static, u32> = Encounter {
    a: &[1; 16],
    b: &[0; 16],
    pair: &[0; 16],
};

const OTHER: Encounter<'static, u32> = Encounter {
    a: &[2; 16],
    b: &[0; 16],
    pair: &[0; 16],
};

fn period(from: i32, to: i32) -> Period {
    Period { from, to }
}

fn of(bits: u32) -> Entry<NameSet> {
    Entry::Cell(NameSet { bits })
}

// A sheet without quantities; then a never of flight A alone is an asymmetry, and one of each
// flight is none.
fn barring() -> [NameCall; 24] {
    [
        Call::Issue,
        default(period(-700, 0)),
        default(period(15, -15)),
        default(period(-15, 15)),
        Call::Issue,
        Call::LookUp(NEITHER),
        default(period(0, 0)),
        Call::Withdraw,
        name(Scope::Flight, 0, 32),
        name(Scope::Flight, 0, 1),
        row(0, Mode::A),
        Call::Edit(Edit::AddNever),
        set(0, 16, of(0)),
        set(0, 16, of(2)),
        Call::Issue,
        row(0, Mode::B),
        Call::Edit(Edit::AddNever),
        Call::Issue,
        set(1, 17, of(2)),
        Call::Issue,
        Call::LookUp(NEITHER),
        Call::LookUp(ONE),
        Call::LookUp(ONE.exchanged()),
        Call::LookUp(OTHER),
    ]
}

// Two columns that bear the same result are no clash. Cells with a stop at every name make too many
// encounters.
fn counting() -> [NameCall; 22] {
    let every_other = 0x5555_5555;
    [
        Call::Withdraw,
        Call::Edit(Edit::StrikeNever),
        Call::Edit(Edit::StrikeNever),
        column(period(0, 30)),
        Call::Issue,
        Call::Withdraw,
        column(period(0, 30)),
        Call::Issue,
        Call::Withdraw,
        name(Scope::Flight, 0, 31),
        name(Scope::Flight, 0, 31),
        row(1, Mode::Both),
        row(2, Mode::Both),
        set(2, 0, of(every_other)),
        set(3, 0, of(every_other)),
        set(0, 0, of(2)),
        Call::Issue,
        set(2, 0, Entry::Any),
        set(3, 0, Entry::Any),
        Call::Issue,
        Call::LookUp(ONE),
        Call::Withdraw,
    ]
}

// The two parts of the script, in an array as that over levels.
pub fn script() -> [NameCall; 46] {
    let mut script = [Call::Issue; 46];
    script[..24].copy_from_slice(&barring());
    script[24..].copy_from_slice(&counting());
    script
}
