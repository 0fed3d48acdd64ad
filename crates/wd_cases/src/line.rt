//! The lines that a program reads and prints.
use crate::failure::Failure;
use std::alloc::{AllocError, Global};
use std::io;

/// What a program of cases answers.
pub trait Cases {
    /// What a case gives, of its word and the text after the blank.
    fn answer(&mut self, alloc: Global, word: &str, text: &str) -> Result<String, Failure>;
}

/// Prints the lines of standard input, each case with what it gives. A line without a case, which
/// is empty or begins with `#`, is printed as it is.
pub fn answer_lines<C: Cases>(
    rt: &(impl Input + Print + AllocGlobal),
    cases: &mut C,
) -> io::Result<()> {
    for line in rt.lines(rt.alloc()) {
        let line = line?;
        answer_line(rt, cases, line.as_str())?;
    }
    Ok(())
}

fn answer_line<C: Cases>(
    rt: &(impl Print + AllocGlobal),
    cases: &mut C,
    line: &str,
) -> io::Result<()> {
    match case_in(line) {
        Some((word, text)) => {
            let found = show(rt.alloc(), cases.answer(rt.alloc(), word, text))?;
            let found = or_nothing(found.as_str());
            println!(rt; "{line} => {found}")
        }
        None => println!(rt; "{line}"),
    }
}

/// The word of a line's case, and the text after the blank.
fn case_in(line: &str) -> Option<(&str, &str)> {
    if line.is_empty() || line.starts_with('#') {
        return None;
    }
    Some(line.split_once(' ').unwrap_or((line, "")))
}

fn show(alloc: Global, found: Result<String, Failure>) -> Result<String, AllocError> {
    match found {
        Ok(found) => Ok(found),
        Err(failure) => failure.shown(alloc),
    }
}

/// A text, or the word for none.
pub fn or_nothing(text: &str) -> &str {
    if text.is_empty() { "nothing" } else { text }
}
