// What a kind of condition is: values in a finite order, and cells that hold for some of them.
//
// A kind is a type that implements `Kind`. It tells the order of its values and answers four
// questions about ranges and cells. `meaning` says what the answers are, and `lawful` what
// every kind has to show of them; code over any kind is proved from these two alone.

#![tactic(auto)]

ghost use Rattle.std.specs.Prelude.{◌≡◌, nat_le};
ghost use Rattle.kinds.specs.Meaning.{Meaning, Lawful, earlier};
ghost use Rattle.kinds.specs.Stops.{EarlierBy};

// A kind of condition.
pub trait Kind {
    type Value: Copy;

    type Cell: Copy;

    // The order of the values, and the answers to the questions below.
    ghost meaning: { Meaning Self.Value Self.Cell };

    // Is a not after b in the kind's order?
    fn at_or_before(a: Self::Value, b: Self::Value) -> bool
        ensures { result ≡ nat_le (meaning.rank a) (meaning.rank b) };

    // Do the two values make a lawful range? Two values, here and below: this one asks of two that may
    // make none, and only a joined kind looks at those of `fits`.
    fn is_range(least: Self::Value, greatest: Self::Value) -> bool
        ensures { result ≡ meaning.range least greatest };

    // Is the cell lawful for the range?
    fn fits(cell: Self::Cell, least: Self::Value, greatest: Self::Value) -> bool
        ensures { result ≡ meaning.fits cell least greatest };

    // Does the cell hold for the value?
    fn holds(cell: Self::Cell, value: Self::Value) -> bool
        ensures { result ≡ meaning.holds cell value };

    // The first value after this one at which the cell's answer may turn, where there is one.
    fn next_stop(cell: Self::Cell, after: Self::Value) -> Option<Self::Value>
        ensures { result ≡ meaning.stop cell after };

    // What each kind shows of its meaning.
    ghost lawful: { Lawful meaning };
}

// The earlier of two stops by a test of which is not after the other, or the one there is. An impl of
// `Kind` calls this one, since generic code at its own kind gets no proof there.
pub fn earlier_by<V: Copy, F: FnOnce(V, V) -> bool>(
    a: Option<V>,
    b: Option<V>,
    at_or_before: F,
) -> Option<V>
    requires { F.IsAlwaysCallable at_or_before }
    ensures { EarlierBy (F.post at_or_before) a b result }
{
    match (a, b) {
        (Some(x), Some(y)) => Some(if at_or_before(x, y) { x } else { y }),
        _ => a.or(b),
    }
}

// The earlier of two stops of a kind, or the one there is.
pub fn earlier_stop<K: Kind>(a: Option<K::Value>, b: Option<K::Value>) -> Option<K::Value>
    ensures { result ≡ earlier K.Kind.meaning.rank a b }
{
    earlier_by(a, b, |x, y| K::at_or_before(x, y))
}
