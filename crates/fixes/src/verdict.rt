// What a probe finds.
ghost use Rattle.std.specs.Prelude.{◌≡◌};
ghost use Rattle.fixes.specs.Limits.{is_separated};

// The three margins: feet, tenths of a nautical mile, and seconds.
#[derive(Clone, Copy)]
pub struct Verdict {
    pub vertical: i64,
    pub lateral: i64,
    pub longitudinal: i64,
}

impl Verdict {
    // Is one minimum kept? A minimum is kept where its margin is 0 or more.
    pub fn is_separated(self) -> bool
        ensures { result ≡ is_separated self }
    {
        0 <= self.vertical || 0 <= self.lateral || 0 <= self.longitudinal
    }
}
