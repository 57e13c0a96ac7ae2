// What an encounter gets: the first case that fits.
ghost use Rattle.std.specs.Prelude.{◌≡◌};
ghost use Rattle.outcomes.specs.Meant.{outcome_of};
ghost use Rattle.tables.specs.Outcomes.{alike, answers, clash_or_answer, is_barred, is_clash, is_gap};

use results::ResultKind;

// What an encounter gets.
#[derive(Clone, Copy)]
pub enum Outcome<R> {
    // It meets a never, which marks what cannot occur.
    Barred,
    // It meets no column, and there is no default.
    Gap,
    // Two columns it meets have unequal results: the lowest one met, and the next one met whose
    // result is unequal to that one's.
    Clash { lowest: usize, other: usize },
    // The result of the lowest column met, or else the default.
    Answer(R),
}

// What the lowest column met gives, with the next one unequal to it if there is one.
pub(crate) fn clash_or_answer<R: ResultKind>(
    lowest: usize,
    res: R,
    unequal: Option<usize>,
) -> Outcome<R>
    ensures { outcome_of result ≡ clash_or_answer R.ResultKind.results (lowest, res) unequal }
{
    unequal.map_or(
        Outcome::Answer(res),
        |other| Outcome::Clash { lowest, other },
    )
}

impl<R: ResultKind> Outcome<R> {
    // Does it meet a never?
    pub fn is_barred(self) -> bool
        ensures { result ≡ is_barred R.ResultKind.results (outcome_of self) }
    {
        matches!(self, Outcome::Barred)
    }

    // Does it meet no column, without a default?
    pub fn is_gap(self) -> bool
        ensures { result ≡ is_gap R.ResultKind.results (outcome_of self) }
    {
        matches!(self, Outcome::Gap)
    }

    // Do two columns that it meets have unequal results?
    pub fn is_clash(self) -> bool
        ensures { result ≡ is_clash R.ResultKind.results (outcome_of self) }
    {
        matches!(self, Outcome::Clash { .. })
    }

    // Is it an answer that means the same as the result?
    fn is_answer(self, res: R) -> bool
        ensures { result ≡ answers R.ResultKind.results res (outcome_of self) }
    {
        matches!(self, Outcome::Answer(other) if res.same(other))
    }

    // Are two outcomes alike? Unequal results differ.
    // A derived `==` would tell two clashes apart, and results that mean the same.
    pub fn is_like(self, other: Outcome<R>) -> bool
        ensures { result ≡ alike R.ResultKind.results (outcome_of self) (outcome_of other) }
    {
        match self {
            Outcome::Barred => other.is_barred(),
            Outcome::Gap => other.is_gap(),
            Outcome::Clash { .. } => other.is_clash(),
            Outcome::Answer(result) => other.is_answer(result),
        }
    }
}
