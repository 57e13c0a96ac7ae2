// Values as they are printed. Functions: a `Display` of `Value` belongs to the crate of `Either`, and a
// type around it would be made for each value.
ghost use Rattle.std.specs.Prelude.{◌≡◌, IfOk, string_bytes};
ghost use Rattle.reports.specs.Reports.{value_shown};
ghost use Rattle.text.specs.Texts.{time_text, value_text};

use house::Value;
use joined::Either;
use std::alloc::{AllocError, Global};

// A minute of the day, as `22:00`.
fn time_text(heap: Global, t: u16) -> Result<String, AllocError>
    ensures { IfOk result (λ s. string_bytes s ≡ time_text t) }
{
    let hour = t / 60 % 100;
    let minute = t % 60;
    Ok(format!(in heap; "{hour:02}:{minute:02}")?)
}

// A value as on a page.
pub fn value_text(heap: Global, value: Value) -> Result<String, AllocError>
    ensures { IfOk result (λ s. string_bytes s ≡ value_text value) }
{
    match value {
        Either::Left(z) => format!(in heap; "{z}"),
        Either::Right(Either::Left(n)) => format!(in heap; "{n}"),
        Either::Right(Either::Right(t)) => time_text(heap, t),
    }
}

// A value after a space, if there is one. A `match`: under `map_or_else` two closures would hold the
// same lines.
pub fn value_shown(heap: Global, value: Option<Value>) -> Result<String, AllocError>
    ensures { IfOk result (λ s. string_bytes s ≡ value_shown value) }
{
    match value {
        Some(value) => {
            let text = value_text(heap, value)?;
            format!(in heap; " {text}")
        }
        None => Ok(String::new(heap)),
    }
}
