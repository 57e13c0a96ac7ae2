// Kinds of result: what a column of a sheet bears.

#![tactic(auto)]

pub mod figure;
pub mod period;

ghost use Rattle.std.specs.Prelude.{◌≡◌};
ghost use Rattle.results.specs.Results.{Results, Equal};

// A kind of result says whether a result is lawful and whether two mean the same.
pub trait ResultKind: Copy {
    // The answers to the two questions below.
    ghost results: { Results Self };

    // Is the result lawful?
    fn is_lawful(self) -> bool
        ensures { result ≡ results.lawful self };

    // Do both mean the same?
    fn same(self, other: Self) -> bool
        ensures { result ≡ results.same self other };

    // Meaning the same is an equivalence.
    ghost equal: { Equal results };
}
