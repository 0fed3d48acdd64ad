//! How the program ends.

ghost use Rattle.std.specs.Prelude.{◌≡◌};
ghost use Rattle.wd_command.specs.Memory.{failures_of};

use crate::files::AskedFiles;
use crate::settings::{Settings, settings_in};
use crate::stream::Stream;
use std::alloc::Global;
use wd_cases::{Failure, NamedTexts, in_one_line, or_nothing};
use wd_check::{MemoryFiles, command};

/// The program's status, the paths that it read, and what stands on standard output and standard
/// error.
#[derive(Drop)]
struct Ending {
    status: u8,
    read: String,
    out: Vec<u8>,
    err: Vec<u8>,
}

/// `command WORDS | SETTINGS`: how the program ends on the words.
pub fn run_command(alloc: Global, given: &NamedTexts, text: &str) -> Result<String, Failure> {
    let ending = ending_of(alloc, given, text)?;
    let err = in_one_line(alloc, &ending.err)?;
    show(alloc, &ending, err.as_str())
}

/// `fault WORDS | SETTINGS`: the same, but of standard error only whether there is text.
pub fn run_faulty(alloc: Global, given: &NamedTexts, text: &str) -> Result<String, Failure> {
    let ending = ending_of(alloc, given, text)?;
    let err = if ending.err.is_empty() {
        ""
    } else {
        "some text"
    };
    show(alloc, &ending, err)
}

fn show(alloc: Global, ending: &Ending, err: &str) -> Result<String, Failure> {
    let out = in_one_line(alloc, &ending.out)?;
    let status = ending.status;
    let read = or_nothing(ending.read.as_str().trim());
    let out = or_nothing(out.as_str());
    let err = or_nothing(err);
    Ok(format!(in alloc; "{status}; read: {read}; out: {out}; err: {err}")?)
}

fn ending_of(alloc: Global, given: &NamedTexts, text: &str) -> Result<Ending, Failure> {
    let (words, settings) = text.split_once('|').unwrap_or((text, ""));
    let settings = settings_in(settings)?;
    let words = words_in(alloc, words)?;
    ending_under(alloc, given, &words, settings)
}

fn words_in(alloc: Global, text: &str) -> Result<Vec<&str>, Failure> {
    let mut words = Vec::new(alloc);
    for word in text.split_whitespace() {
        words.push(word)?;
    }
    Ok(words)
}

fn ending_under(
    alloc: Global,
    given: &NamedTexts,
    words: &[&str],
    settings: Settings,
) -> Result<Ending, Failure> {
    let pairs = given.pairs(alloc)?;
    let mut files = AskedFiles::over(alloc, files_in(alloc, &pairs, settings.reads));
    let mut out = Stream::new(alloc, settings.out);
    let mut err = Stream::new(alloc, settings.err);
    let status = command(alloc, words, &mut files, &mut out, &mut err);
    Ok(Ending {
        status,
        read: files.asked,
        out: out.bytes,
        err: err.bytes,
    })
}

/// The files in memory, of which no read has failed yet.
fn files_in<'a>(
    alloc: Global,
    pairs: &'a [(&'a str, &'a [u8])],
    reads: Option<u64>,
) -> MemoryFiles<'a>
    ensures { failures_of result ≡ 0 }
{
    let files = MemoryFiles::new(alloc, pairs);
    match reads {
        Some(reads) => files.failing_after(reads),
        None => files,
    }
}
