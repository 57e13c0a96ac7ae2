// The minima that hold for an encounter: the look-ups of a probe, and the margins over them.
ghost use Rattle.std.specs.Prelude.{◌≡◌};
ghost use Rattle.lists.specs.Held.{encounter_of};
ghost use Rattle.probe.specs.Lettering.{lettered};
ghost use Rattle.probe.specs.Probed.{along_of, answer_of, four, longitudinal_margin, minima_of, source, verdict_of};

use crate::fault::{Letter, Lettered};
use fixes::fix::{Direction, Flights};
use fixes::verdict::Verdict;
use kinds::Kind;
use lists::lent::{Encounter, Lists};
use margins::margin::{in_opposition, in_trail, lateral, vertical};
use results::ResultKind;
use results::figure::Figure;
use results::period::Period;
use sheet::states::Issued;

// An issued sheet with the lists that hold it.
#[derive(Drop)]
pub struct Sheet<'a, K: Kind, R> {
    pub issued: &'a Issued,
    pub lists: &'a Lists<'a, K, R>,
}

// The four sheets of a probe.
#[derive(Drop)]
pub struct Sheets<'a, K: Kind> {
    pub v: Sheet<'a, K, Figure>,
    pub l: Sheet<'a, K, Figure>,
    pub g: Sheet<'a, K, Figure>,
    pub n: Sheet<'a, K, Period>,
}

// A minimum along the way: between flights in trail, or about the time at which they pass. Neither
// is a failure, as `Result` would have it.
#[derive(Clone, Copy)]
pub enum Along {
    Trail(Figure),
    Opposition(Period),
}

// The minima that hold for an encounter.
#[derive(Clone, Copy)]
pub struct Minima {
    pub vertical: Figure,
    pub lateral: Figure,
    pub along: Along,
}

impl<'a, K: Kind, R: ResultKind> Sheet<'a, K, R> {
    // The result for an encounter, or a refusal with the sheet's letter.
    pub fn look_up(&self, letter: Letter, e: &Encounter<'_, K::Value>) -> Result<R, Lettered>
        ensures { result ≡ lettered letter (answer_of K.Kind.meaning R.ResultKind.results (source self.now) (encounter_of e.now)) }
    {
        self.issued
            .look_up(self.lists, e)
            .map_err(|fault| Lettered { letter, fault })
    }
}

impl<'a, K: Kind> Sheets<'a, K> {
    // The minimum along the way. The sheet of the other direction is asked nothing.
    fn along(&self, direction: Direction, e: &Encounter<'_, K::Value>) -> Result<Along, Lettered>
        ensures { result ≡ along_of K.Kind.meaning (four self.now) (encounter_of e.now) direction }
    {
        match direction {
            Direction::Same => self.g.look_up(Letter::G, e).map(Along::Trail),
            Direction::Opposite => self.n.look_up(Letter::N, e).map(Along::Opposition),
        }
    }

    // The three minima of an encounter, or the first refusal with its sheet's letter.
    pub fn minima(
        &self,
        direction: Direction,
        e: &Encounter<'_, K::Value>,
    ) -> Result<Minima, Lettered>
        ensures { result ≡ minima_of K.Kind.meaning (four self.now) (encounter_of e.now) direction }
    {
        Ok(Minima {
            vertical: self.v.look_up(Letter::V, e)?,
            lateral: self.l.look_up(Letter::L, e)?,
            along: self.along(direction, e)?,
        })
    }
}

impl Along {
    fn margin(self, flights: Flights) -> i64
        ensures { result ≡ longitudinal_margin flights.a flights.b flights.passing self }
    {
        match self {
            Along::Trail(least) => in_trail(flights.a, flights.b, least),
            Along::Opposition(about) => in_opposition(flights.passing, about),
        }
    }
}

impl Minima {
    // The margins of two flights.
    pub fn verdict(self, flights: Flights) -> Verdict
        ensures { result ≡ verdict_of flights.a flights.b flights.passing self }
    {
        Verdict {
            vertical: vertical(flights.a, flights.b, self.vertical),
            lateral: lateral(flights.a, flights.b, self.lateral),
            longitudinal: self.along.margin(flights),
        }
    }
}
