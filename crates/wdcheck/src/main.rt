//! Checks whether a SQL query with window functions has one answer, whatever order the database
//! gives to rows that tie.
#![tactic(auto)]

ghost use Rattle.std.specs.Prelude.{◌≡◌, ◌<◌, IfErr};
ghost use Rattle.wd_command.specs.Failures.{IsOfArguments};

use std::env;
use std::io::ErrorKind;
use std::process::ExitCode;
use std::rt::Env;
use wd_command::{Failure, MachineFiles, run_on};

/// The bytes of the stack that are taken at the start: ordinary texts use a tenth of them, the deepest up to 2 MB.
const STACK: usize = 3 << 19;

fn main(rt: HostRuntime) -> ExitCode {
    let words = arguments(&rt);
    let count = word_count(&words);
    if stack_taken(count, usize::from(count)) != count {
        return ExitCode::FAILURE;
    }
    let mut files = MachineFiles::new(&rt);
    ExitCode::from(run_on(
        rt.alloc(),
        words,
        &mut files,
        &mut rt.stdout(),
        &mut rt.stderr(),
    ))
}

// Fills a part of the stack with a byte, and returns the byte at a place. A stack that has grown stays so, while one that had to grow at
// the limit of the address space would end the program by a signal, not by a refusal. Place and byte are known only when the program
// runs, so that no compiler removes the part.
#[inline(never)]
fn stack_taken(byte: u8, place: usize) -> u8
    requires { place < STACK }
    ensures { result ≡ byte }
{
    let taken = [byte; STACK];
    taken[place]
}

// The number of words, or 255 where there are more.
fn word_count(words: &Result<Vec<String>, Failure<'static>>) -> u8 {
    match words {
        Ok(words) => u8::try_from(words.len()).unwrap_or(u8::MAX),
        Err(_) => 0,
    }
}

// The words after the program's own name.
fn arguments(rt: &(impl Env + AllocGlobal)) -> Result<Vec<String>, Failure<'static>>
    ensures { IfErr result IsOfArguments }
{
    match env::args(rt) {
        Ok(words) => Ok(words.skip(1).collect(rt.alloc())?),
        Err(error) if error.kind() == ErrorKind::OutOfMemory => Err(Failure::OutOfMemory),
        Err(_) => Err(Failure::NotText),
    }
}
