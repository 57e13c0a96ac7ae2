// Probing two flights.
ghost use Rattle.std.specs.Prelude.{◌≡◌};
ghost use Rattle.lists.specs.Held.{encounter_of};
ghost use Rattle.probe.specs.Exchanged.{SameExchanged};
ghost use Rattle.probe.specs.InRun.{AllStand, ProbeInRun, Runs};
ghost use Rattle.probe.specs.Probed.{four, probed};

use crate::fault::ProbeFault;
use crate::minima::Sheets;
use fixes::fix::Flights;
use fixes::verdict::Verdict;
use kinds::Kind;
use lists::lent::Encounter;

// The limits are asked first, then the sheets, and the margins come last.
fn answer<K: Kind>(
    sheets: &Sheets<'_, K>,
    e: &Encounter<'_, K::Value>,
    flights: Flights,
) -> Result<Verdict, ProbeFault>
    ensures { result ≡ probed K.Kind.meaning (four sheets.now) (encounter_of e.now) flights.a flights.b flights.passing }
{
    if !flights.is_in_limits() {
        return Err(ProbeFault::Limits);
    }
    let minima = sheets.minima(flights.passing.direction, e)?;
    Ok(minima.verdict(flights))
}

// The margins of two flights, A and B, in an encounter. Over sheets without fault, with the
// encounter in range for those looked up, the exchanged flights get the same answer. Sheets that runs
// of calls issued are without fault.
pub fn probe<K: Kind>(
    sheets: &Sheets<'_, K>,
    e: &Encounter<'_, K::Value>,
    flights: Flights,
) -> Result<Verdict, ProbeFault>
    ensures answer { result ≡ probed K.Kind.meaning (four sheets.now) (encounter_of e.now) flights.a flights.b flights.passing }
    ensures exchanged { SameExchanged K.Kind.meaning (four sheets.now) (encounter_of e.now) flights.a flights.b flights.passing }
    ensures in_run { (calls : Runs K.Value K.Cell) → AllStand K.Kind.meaning calls (four sheets.now) → ProbeInRun K.Kind.meaning calls (encounter_of e.now) flights.a flights.b flights.passing result }
{
    answer(sheets, e, flights)
}
