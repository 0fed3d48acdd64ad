//! Lines and columns of a text.

ghost use Rattle.std.specs.Prelude.{◌≡◌, ◌+◌, ◌==◌, ◌≤◌, length, take, drop, count_by};
ghost use Rattle.wd_source.specs.Places.{IsLine, IsLineEnd, IsLineStart, IsPosition, line_feed};
ghost use Rattle.wd_source.specs.Places as spec;

use wd_lex::Span;

/// A line and a column of a text, both counted from 1; columns are characters.
#[derive(Clone, Copy, Debug, PartialEq, Eq)]
pub struct Position {
    pub line: u64,
    pub column: u64,
}

/// Whether a character begins with that byte in UTF-8.
fn begins_character(b: u8) -> bool
    ensures { result ≡ spec.begins_character b }
{
    !(128 <= b && b < 192)
}

/// The byte at which the line of a byte begins.
fn line_start(text: &[u8], place: usize) -> usize
    requires { place ≤ length text.now }
    ensures { IsLineStart text.now place result }
{
    let mut start = place;
    while start > 0 && text[start - 1] != b'\n' {
        start -= 1;
    }
    start
}

/// The byte at which the line of a byte ends.
fn line_end(text: &[u8], place: usize) -> usize
    requires { place ≤ length text.now }
    ensures { IsLineEnd text.now place result }
{
    let mut end = place;
    while end < text.len() && text[end] != b'\n' {
        end += 1;
    }
    end
}

/// The line around a byte of a text, without its line feed. The text's length is a place too: the one after its last byte.
pub fn line_around(text: &[u8], place: usize) -> Span
    requires { place ≤ length text.now }
    ensures { IsLine text.now place result }
{
    Span {
        start: line_start(text, place) as u64,
        end: line_end(text, place) as u64,
    }
}

/// The line and the column of a byte of a text. A line feed ends a line; a column is a character, whose first byte is counted.
pub fn position_at(text: &[u8], place: usize) -> Position
    requires { place ≤ length text.now }
    ensures { IsPosition text.now place result }
{
    let start = line_start(text, place);
    Position {
        line: 1 + feeds(&text[..place]),
        column: 1 + characters(&text[start..place]),
    }
}

/// How many line feeds a text has.
fn feeds(text: &[u8]) -> u64
    ensures counted { result ≡ count_by (λ b. b == line_feed) text.now }
    ensures within { result ≤ length text.now }
{
    text.iter().filter(|b| **b == b'\n').count() as u64
}

/// How many characters begin in a text.
fn characters(text: &[u8]) -> u64
    ensures counted { result ≡ count_by spec.begins_character text.now }
    ensures within { result ≤ length text.now }
{
    text.iter().filter(|b| begins_character(**b)).count() as u64
}
