// What an encounter still meets once the values of one more quantity are known.
ghost use Rattle.std.specs.Prelude.{◌≡◌, ◌^◌, ◌<◌, bit_and, bit_or, take};
ghost use Rattle.sets.specs.Walks.{joint, narrowed};

use sets::{Mark, Met};

// Of some columns, those that are in one or the other of two sets.
fn in_either(columns: u32, of_a: u32, of_b: u32) -> u32
    ensures { result ≡ bit_and columns (bit_or of_a of_b) }
{
    columns & (of_a | of_b)
}

// The columns whose entries hold for A's value x or for B's value y, in each row of mode either.
fn held_for_one<V>(x: &Mark<V>, y: &Mark<V>) -> u32
    ensures { result ≡ joint 4294967295 (take x.now.eithers x.now.either) (take y.now.eithers y.now.either) }
{
    let of_a = x.either.iter().take(x.eithers);
    let of_b = y.either.iter().take(y.eithers);
    of_a.zip(of_b)
        .fold(u32::MAX, |held, (a, b)| in_either(held, *a, *b))
}

// Of some columns, those that are in three sets.
fn in_all(columns: u32, of_a: u32, of_b: u32, for_one: u32) -> u32
    ensures is { result ≡ bit_and (bit_and (bit_and columns of_a) of_b) for_one }
    ensures fits { columns < 2 ^ 32 }
{
    columns & of_a & of_b & for_one
}

// Of what an encounter meets, what it meets with A's value x and B's value y too.
pub fn narrowed<V>(x: &Mark<V>, y: &Mark<V>, met: Met) -> Met
    ensures { result ≡ narrowed (x.now, y.now) met }
{
    let for_one = held_for_one(x, y);
    Met {
        here: in_all(met.here, x.of_a, y.of_b, for_one),
        exchanged: in_all(met.exchanged, y.of_a, x.of_b, for_one),
    }
}
