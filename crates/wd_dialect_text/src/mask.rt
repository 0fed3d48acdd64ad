//! Masks a text.

ghost use Rattle.std.specs.Prelude.{◌≡◌, length, IfOk};
ghost use Rattle.wd_dialect_text.specs.Masked as spec;

use crate::characters::{begins_word, goes_on_word, is_foreign, is_line_end};
use std::alloc::{AllocError, Global};

/// What the bytes before a byte say about it.
#[derive(Clone, Copy, PartialEq, Eq)]
pub enum State {
    /// It begins a token, or is white space.
    Between,
    /// It may continue a word.
    Word,
    /// It may continue a number.
    Number,
    /// It is in a text.
    Text,
    /// It is in a quoted name.
    Name,
    /// It opens a text E'..'.
    Prefix,
    /// It is in a text E'..'.
    Escaped,
    /// It comes after a backslash in a text E'..'.
    Skipped,
    /// It comes after a quote in a text E'..'.
    Paused,
    /// It is in a comment up to the end of its line.
    Line,
    /// It is in a command of psql.
    Command,
    /// It is the second byte of `/*`, which opens a comment; that comment is nested in this many others.
    Opening(u64),
    /// It is in a comment that is nested in this many others.
    Block(u64),
    /// It is the second byte of `*/`, which closes a comment that is nested in this many others.
    Closing(u64),
}

/// A byte that is written in place of another, and the state after it.
pub type Step = (u8, State);

/// Whether the byte is an `e` that begins a text E'..'.
fn is_prefix(byte: u8, next: u8) -> bool
    ensures { result ≡ spec.is_prefix byte next }
{
    (byte == b'E' || byte == b'e') && next == b'\''
}

/// The step of a byte that begins a token or is white space.
#[tactic(auto, unfolding(crate::specs::Masked::between))]
fn between(byte: u8, next: u8) -> Step
    ensures { result ≡ spec.between byte next }
{
    if is_prefix(byte, next) {
        (byte, State::Prefix)
    } else if begins_word(byte) {
        (byte, State::Word)
    } else if byte.is_ascii_digit() {
        (byte, State::Number)
    } else if byte == b'\'' {
        (byte, State::Text)
    } else if byte == b'"' {
        (byte, State::Name)
    } else if byte == b'-' && next == b'-' {
        (byte, State::Line)
    } else if byte == b'/' && next == b'*' {
        (byte, State::Opening(0))
    } else if byte == b'[' {
        (b'(', State::Between)
    } else if byte == b']' {
        (b')', State::Between)
    } else if byte == b'\\' {
        (b' ', State::Command)
    } else if is_foreign(byte) {
        (b'%', State::Between)
    } else {
        (byte, State::Between)
    }
}

/// The step of a byte in a text E'..'.
#[tactic(auto, unfolding(crate::specs::Masked::step))]
fn in_escape_string(byte: u8, next: u8) -> Step
    ensures { result ≡ spec.step State.Escaped byte next }
{
    if byte == b'\\' {
        (byte, State::Skipped)
    } else if byte == b'\'' {
        (byte, State::Paused)
    } else {
        (byte, State::Escaped)
    }
}

/// The step of a byte in a comment that is nested in `depth` others.
#[tactic(auto, unfolding(crate::specs::Masked::step))]
fn in_block(depth: u64, byte: u8, next: u8) -> Step
    ensures { result ≡ spec.step (State.Block depth) byte next }
{
    if byte == b'*' && next == b'/' {
        (byte, State::Closing(depth))
    } else if byte == b'/' && next == b'*' {
        (byte, State::Opening(depth.saturating_add(1)))
    } else {
        (byte, State::Block(depth))
    }
}

/// The step of a byte in a state; `next` is the byte after it, or 0 at the end.
#[tactic(auto, unfolding(crate::specs::Masked::step))]
pub fn step(state: State, byte: u8, next: u8) -> Step
    ensures { result ≡ spec.step state byte next }
{
    match state {
        State::Between => between(byte, next),
        State::Word if goes_on_word(byte) => (byte, State::Word),
        State::Number if byte.is_ascii_digit() => (byte, State::Number),
        State::Number if byte == b'.' => (b' ', State::Number),
        State::Paused if byte == b'\'' => (byte, State::Escaped),
        State::Word | State::Number | State::Paused => between(byte, next),
        State::Text if byte == b'\'' => (byte, State::Between),
        State::Name if byte == b'"' => (byte, State::Between),
        State::Line if is_line_end(byte) => (byte, State::Between),
        State::Command if is_line_end(byte) => (byte, State::Between),
        State::Command => (b' ', State::Command),
        State::Text | State::Name | State::Line => (byte, state),
        State::Prefix => (byte, State::Escaped),
        State::Escaped => in_escape_string(byte, next),
        State::Skipped if byte == b'\'' => (b'_', State::Escaped),
        State::Skipped => (byte, State::Escaped),
        State::Opening(depth) => (byte, State::Block(depth)),
        State::Block(depth) => in_block(depth, byte, next),
        State::Closing(0) => (byte, State::Between),
        State::Closing(depth) => (byte, State::Block(depth - 1)),
    }
}

/// The text in the characters of the profile.
pub fn mask_text(alloc: Global, text: &[u8]) -> Result<Vec<u8>, AllocError>
    ensures masked { IfOk result (λ found. found.items ≡ spec.masked text.now) }

    // Each byte stays at its place.
    ensures places { IfOk result (λ found. length found.items ≡ length text.now) }
{
    let mut found = Vec::with_capacity(alloc, text.len())?;
    let mut state = State::Between;
    let mut rest = text;
    while let [byte, after @ ..] = rest {
        let next = after.first().copied().unwrap_or(0);
        let (other, following) = step(state, *byte, next);
        found.push(other)?;
        state = following;
        rest = after;
    }
    Ok(found)
}
