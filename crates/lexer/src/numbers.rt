// Numbers on a page. The minus and the colon are matched as character literals, as in `cells`.
//
// Several functions say of an `Option` that its number is below 10,000,000: a type for such numbers
// would be unwrapped at once.
ghost use Rattle.std.specs.Prelude.{◌≡◌, ◌<◌, ◌≤◌, length, IfSome};
ghost use Rattle.text.specs.Numbers.{digit as digit_of, number as number_of, measure as measure_of, time as time_of, minutes as minutes_of, figures, below, above};

// The digit that a byte is.
fn digit(b: u8) -> Option<u32>
    ensures { result ≡ digit_of b }
{
    (b as char).to_digit(10)
}

// The number that a few digits write.
fn digits(field: &[u8]) -> Option<u32>
    requires { length field.now ≤ 7 }
    ensures value { result ≡ figures field.now }
    ensures small { IfSome result (λ n. n < 10000000) }
{
    let mut n: u32 = 0;
    for b in field {
        n = n * 10 + digit(*b)?;
    }
    Some(n)
}

// The number that a field is, of one to seven digits with no zero in front of another.
pub fn number(field: &[u8]) -> Option<u32>
    ensures value { result ≡ number_of field.now }
    ensures small { IfSome result (λ n. n < 10000000) }
{
    match field {
        [] => None,
        [b'0', _, ..] => None,
        _ if field.len() > 7 => None,
        _ => digits(field),
    }
}

// What a minus before a number gives, which must not be 0.
fn negative(n: Option<u32>) -> Option<i32>
    requires { IfSome n (λ n. n < 10000000) }
    ensures { result ≡ below n }
{
    n.filter(|n| *n > 0).map(|n| -(n as i32))
}

// What a number with no minus gives.
fn positive(n: Option<u32>) -> Option<i32>
    requires { IfSome n (λ n. n < 10000000) }
    ensures { result ≡ above n }
{
    n.map(|n| n as i32)
}

// The measure or the figure that a field is: a number, or a minus before one that is not 0.
pub fn measure(field: &[u8]) -> Option<i32>
    ensures { result ≡ measure_of field.now }
{
    let [first, rest @ ..] = field else {
        return None;
    };
    match *first as char {
        '-' => negative(number(rest)),
        _ => positive(number(field)),
    }
}

// The minute of the day of an hour and a minute.
fn minutes(hour: Option<u32>, minute: Option<u32>) -> Option<u16>
    ensures { result ≡ minutes_of hour minute }
{
    match (hour?, minute?) {
        (h, m) if h < 24 && m < 60 => Some((60 * h + m) as u16),
        _ => None,
    }
}

// The minute of the day that a field is, as `22:00`.
pub fn time(field: &[u8]) -> Option<u16>
    ensures { result ≡ time_of field.now }
{
    if field.len() != 5 {
        return None;
    }
    match field[2] as char {
        ':' => minutes(digits(&field[..2]), digits(&field[3..])),
        _ => None,
    }
}
