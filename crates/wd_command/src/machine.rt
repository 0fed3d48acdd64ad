//! The program on a machine: the arguments that it was started with, its files and its streams.

ghost use Rattle.std.specs.Prelude.{◌≡◌, ◌-◌, ◌^◌, ◌<◌, ◌≤◌, map, string_bytes, IfOk, IfErr};
ghost use Rattle.wd_command.specs.Statuses.{Fails, Succeeds, world};
ghost use Rattle.wd_command.specs.Failures.{Shows, status_of};
ghost use Rattle.wd_command.specs.declared.failure.Failure.TheVariants as failed;

use crate::failure::{Failure, report};
use crate::files::Files;
use crate::program::command;
use std::alloc::Global;
use std::io::Write;

/// Runs the program on its arguments after its own name, and returns its exit status. On these words it does what `command` does; where
/// the words could not be had, because one is no text or memory runs out, it writes the failure's line on standard error and returns
/// the failure's status.
pub fn run_on<F: Files, O: Write, E: Write>(
    alloc: Global,
    arguments: Result<Vec<String>, Failure<'static>>,
    files: &mut F,
    out: &mut O,
    err: &mut E,
) -> u8
    requires { F.failures files.old < 2 ^ 64 - 1 }
    ensures success { IfOk arguments.entry (λ words. result < 3 → Succeeds (map string_bytes words.items)
        (world (F.handed files.old) (F.failures files.old) (O.contents out.old) (E.contents err.old))
        (world (F.handed files.new) (F.failures files.new) (O.contents out.new) (E.contents err.new)) result) }
    ensures failure { IfOk arguments.entry (λ words. 3 ≤ result → Fails (map string_bytes words.items)
        (world (F.handed files.old) (F.failures files.old) (O.contents out.old) (E.contents err.old))
        (world (F.handed files.new) (F.failures files.new) (O.contents out.new) (E.contents err.new)) result) }
    ensures status { IfErr arguments.entry (λ failure. result ≡ status_of failure) }
    ensures shown { IfErr arguments.entry (Shows (E.contents err.old) (E.contents err.new)) }
    ensures kept { IfErr arguments.entry (λ _. (F.failures files.new ≡ F.failures files.old) × (F.handed files.new ≡ F.handed files.old) × (O.contents out.new ≡ O.contents out.old)) }
{
    match arguments {
        Ok(words) => run_words(alloc, words.as_slice(), files, out, err),
        Err(failure) => report(&failure, err),
    }
}

// Runs the program on words that it owns.
fn run_words<F: Files, O: Write, E: Write>(
    alloc: Global,
    words: &[String],
    files: &mut F,
    out: &mut O,
    err: &mut E,
) -> u8
    requires { F.failures files.old < 2 ^ 64 - 1 }
    ensures success { result < 3 → Succeeds (map string_bytes words.now)
        (world (F.handed files.old) (F.failures files.old) (O.contents out.old) (E.contents err.old))
        (world (F.handed files.new) (F.failures files.new) (O.contents out.new) (E.contents err.new)) result }
    ensures failure { 3 ≤ result → Fails (map string_bytes words.now)
        (world (F.handed files.old) (F.failures files.old) (O.contents out.old) (E.contents err.old))
        (world (F.handed files.new) (F.failures files.new) (O.contents out.new) (E.contents err.new)) result }
{
    match texts(alloc, words) {
        Ok(words) => command(alloc, words.as_slice(), files, out, err),
        Err(failure) => report(&failure, err),
    }
}

// The words as texts, in their order.
fn texts<'a>(alloc: Global, words: &'a [String]) -> Result<Vec<&'a str>, Failure<'static>>
    ensures ok { IfOk result (λ texts. map (λ t. t.now) texts.items ≡ map string_bytes words.now) }
    ensures err { IfErr result (λ failure. failure ≡ failed.OutOfMemory) }
{
    let mut texts = Vec::with_capacity(alloc, words.len())?;
    for word in words {
        texts.push(word.as_str())?;
    }
    Ok(texts)
}
