// Reads a page on standard input, issues its sheet and prints what came of it.

#![tactic(auto)]

use page::report::answer;
use page::told::Report;
use reading::reading::MOST_BYTES;
use std::alloc::AllocError;
use std::io::Read;
use std::process::ExitCode;
use std::{env, io};

// Why the program ends with status 1.
#[derive(Drop)]
enum Stop {
    // The page is refused, and the program was asked to be strict.
    Refused,
    // There is an argument that the program does not know.
    Usage,
    // Input, output or memory failed.
    Failed(io::Error),
}

impl From<io::Error> for Stop {
    fn from(e: io::Error) -> Stop {
        Stop::Failed(e)
    }
}

impl From<AllocError> for Stop {
    fn from(e: AllocError) -> Stop {
        Stop::Failed(e.into())
    }
}

// At most one byte more than a page may have: enough to tell that it is too long.
fn read_page(rt: &HostRuntime) -> Result<Vec<u8>, Stop> {
    let mut page = Vec::new(rt.alloc());
    let most = MOST_BYTES as u64 + 1;
    let _ = rt.stdin().take(most).read_to_end(&mut page)?;
    Ok(page)
}

// Is a refusal to end with status 1?
fn is_strict(rt: &HostRuntime) -> Result<bool, Stop> {
    let mut strict = false;
    for word in env::args(rt)?.skip(1) {
        if word.as_str() != "--strict" {
            return Err(Stop::Usage);
        }
        strict = true;
    }
    Ok(strict)
}

fn run(rt: &HostRuntime) -> Result<(), Stop> {
    let strict = is_strict(rt)?;
    let page = read_page(rt)?;
    let Report { text, issued } = answer(rt.alloc(), page.as_slice())?;
    print!(rt; "{text}")?;
    if strict && !issued {
        return Err(Stop::Refused);
    }
    Ok(())
}

// Says on standard error why the program stops; of a refused page all is said already.
fn explain(rt: &HostRuntime, stop: &Stop) -> io::Result<()> {
    match stop {
        Stop::Refused => Ok(()),
        Stop::Usage => eprintln!(rt; "usage: jarrahclamp [--strict] < PAGE"),
        Stop::Failed(e) => eprintln!(rt; "jarrahclamp: {e}"),
    }
}

fn main(rt: HostRuntime) -> ExitCode {
    match run(&rt) {
        Ok(()) => ExitCode::SUCCESS,
        Err(stop) => {
            let _ = explain(&rt, &stop);
            ExitCode::FAILURE
        }
    }
}
