// The joined house kinds: measures, then names, then the clock. A page's quantities are of these.

#![tactic(auto)]

ghost use Rattle.std.specs.Prelude.{◌≡◌};
ghost use Rattle.joined.specs.declared.Either.TheVariants.{Left, Right};

use clock::{Clock, Window};
use joined::{Either, Joined};
use measure::{Band, Measure};
use names::{NameSet, Names};

// The joined house kinds: measures, then names, then minutes.
pub type House = Joined<Measure, Joined<Names, Clock>>;

// A measure, a name or a minute.
pub type Value = Either<i32, Either<u32, u16>>;

// A band of measures, a set of names or a window of minutes.
pub type Cell = Either<Band, Either<NameSet, Window>>;

// A measure as a value of the house. Functions and no `From`, here and below: neither `Either` nor what
// it is made of is this crate's.
pub fn measure_value(z: i32) -> Value
    ensures { result ≡ Left z }
{
    Either::Left(z)
}

// A name as a value of the house.
pub fn name_value(n: u32) -> Value
    ensures { result ≡ Right (Left n) }
{
    Either::Right(Either::Left(n))
}

// A minute of the day as a value of the house.
pub fn minute_value(t: u16) -> Value
    ensures { result ≡ Right (Right t) }
{
    Either::Right(Either::Right(t))
}

// A band as a cell of the house.
pub fn band_cell(band: Band) -> Cell
    ensures { result ≡ Left band }
{
    Either::Left(band)
}

// A set of names as a cell of the house.
pub fn names_cell(set: NameSet) -> Cell
    ensures { result ≡ Right (Left «set») }
{
    Either::Right(Either::Left(set))
}

// A window as a cell of the house.
pub fn window_cell(window: Window) -> Cell
    ensures { result ≡ Right (Right window) }
{
    Either::Right(Either::Right(window))
}
