//! The piece at the front of a text.

ghost use Rattle.std.specs.Prelude.{◌≡◌, ◌≤◌, ◌<◌, ◌^◌, length, drop, map, codes, slice_index, true, nat_eq, IfOk};
ghost use Rattle.std.specs.List.{starts_with, list_all};
ghost use Rattle.std.specs.Option.{option_map};
ghost use Rattle.std.specs.Char.{to_ascii_lowercase};
ghost use Rattle.wd_lex.specs.Characters.{is_digit};
ghost use Rattle.wd_lex.specs.Terminals.{lookup, reserved_words};
ghost use Rattle.wd_lex.specs.Pieces.{word_kind};
ghost use Rattle.wd_lex.specs.Reading as spec;
ghost use Rattle.wd_lex.specs.Causes.{Gives};
ghost use Rattle.wd_lex.specs.Reading.{as_token, read_as, piece_at};

use crate::characters::{Class, begins_word, is_blank, split_run, spoils_number};
use crate::error::LexError;
use crate::terminals::{reserved_word, symbol};
use crate::token::TokenKind;
use std::alloc::{AllocError, Global};
use wd_value::Text;

/// The kinds of pieces.
#[derive(Clone, Copy)]
pub enum Kind {
    Blanks,
    LineComment,
    BlockComment,
    Word,
    Number,
    QuotedName,
    QuotedText,
    Symbol,
}

/// The greatest number: a minus before it gives the least whole number of 64 bits.
const GREATEST_NUMBER: u64 = 1 << 63;

/// The kind of the piece that begins with these bytes.
#[tactic(auto, unfolding(crate::specs::Reading::kind_at))]
fn kind_at(bytes: &[u8]) -> Kind
    ensures { result ≡ spec.kind_at bytes.now }
{
    let first = bytes.first().copied().unwrap_or(0);
    if begins_word(first) {
        Kind::Word
    } else if first.is_ascii_digit() {
        Kind::Number
    } else if is_blank(first) {
        Kind::Blanks
    } else if first == b'"' {
        Kind::QuotedName
    } else if first == b'\'' {
        Kind::QuotedText
    } else if bytes.starts_with(b"--") {
        Kind::LineComment
    } else if bytes.starts_with(b"/*") {
        Kind::BlockComment
    } else {
        Kind::Symbol
    }
}

/// The place after the `*/` that closes the comment at the front.
fn comment_end(bytes: &[u8]) -> Option<usize>
    requires long { 2 ≤ length bytes.now }
    requires bounded { length bytes.now < 2 ^ 63 }
    ensures { result ≡ spec.comment_end 0 2 (drop 2 bytes.now) }
{
    let mut depth: usize = 0;
    let mut at: usize = 2;
    while at < bytes.len() {
        let rest = &bytes[at..];
        if rest.starts_with(b"*/") {
            at += 2;
            if depth == 0 {
                return Some(at);
            }
            depth -= 1;
        } else if rest.starts_with(b"/*") {
            at += 2;
            depth += 1;
        } else {
            at += 1;
        }
    }
    None
}

/// A comment and what follows it.
#[tactic(auto, unfolding(crate::specs::Reading::read_as))]
fn comment(place: u64, text: &str) -> Result<(Option<TokenKind>, &str), LexError>
    requires { starts_with nat_eq text.now (codes "/*") ≡ true }
    ensures { Gives (λ x. (x.0, x.1.now)) result (as_token (read_as Kind.BlockComment place text.now)) }
{
    match comment_end(text.as_bytes()) {
        Some(end) => Ok((None, text.split_at(end).1)),
        None => Err(LexError::CommentNotClosed { place }),
    }
}

/// The inside of quotes and what follows them, for what follows the opening quote.
fn unquote(alloc: Global, quote: char, text: &str) -> Result<Option<(Text, &str)>, AllocError>
    requires { quote < 128 }
    ensures { IfOk result (λ found. option_map (λ x. (x.0, x.1.now)) found ≡ spec.unquote quote text.now) }
{
    let mut inside = String::new(alloc);
    let mut rest = text;
    while let Some((before, after)) = rest.split_once(quote) {
        inside.push_str(before)?;
        match after.strip_prefix(quote) {
            Some(more) => {
                inside.push(quote)?;
                rest = more;
            }
            None => return Ok(Some((Text::new(alloc, inside)?, after))),
        }
    }
    Ok(None)
}

/// A quoted name and what follows it.
#[tactic(auto, unfolding(crate::specs::Reading::read_as))]
fn quoted_name(alloc: Global, place: u64, text: &str) -> Result<(Option<TokenKind>, &str), LexError>
    requires { slice_index text.now 0 ≡ 34 }
    ensures { Gives (λ x. (x.0, x.1.now)) result (as_token (read_as Kind.QuotedName place text.now)) }
{
    match unquote(alloc, '"', text.split_at(1).1)? {
        Some((name, rest)) if !name.as_str().is_empty() => Ok((
            Some(TokenKind::Quoted(name)),
            rest,
        )),
        _ => Err(LexError::NameNotClosed { place }),
    }
}

/// A text in single quotes and what follows it.
#[tactic(auto, unfolding(crate::specs::Reading::read_as))]
fn quoted_text(alloc: Global, place: u64, text: &str) -> Result<(Option<TokenKind>, &str), LexError>
    requires { slice_index text.now 0 ≡ 39 }
    ensures { Gives (λ x. (x.0, x.1.now)) result (as_token (read_as Kind.QuotedText place text.now)) }
{
    match unquote(alloc, '\'', text.split_at(1).1)? {
        Some((literal, rest)) => Ok((Some(TokenKind::Literal(literal)), rest)),
        None => Err(LexError::TextNotClosed { place }),
    }
}

/// A word in lower case, as a reserved word or a name.
fn word_kind(alloc: Global, word: &str) -> Result<TokenKind, AllocError>
    ensures { IfOk result (λ found. let folded = map to_ascii_lowercase word.now in found ≡ word_kind folded (lookup reserved_words folded)) }
{
    let mut folded = String::from_str(alloc, word)?;
    folded.make_ascii_lowercase();
    match reserved_word(folded.as_bytes()) {
        Some(terminal) => Ok(TokenKind::Terminal(terminal)),
        None => Ok(TokenKind::Word(Text::new(alloc, folded)?)),
    }
}

/// An unquoted word and what follows it.
#[tactic(auto, unfolding(crate::specs::Reading::read_as))]
fn word(alloc: Global, text: &str) -> Result<(Option<TokenKind>, &str), LexError>
    ensures { Gives (λ x. (x.0, x.1.now)) result (as_token (read_as Kind.Word 0 text.now)) }
{
    let (word, rest) = split_run(Class::Word, text);
    Ok((Some(word_kind(alloc, word)?), rest))
}

/// The number that the digits write, if it is not too large.
fn number_value(digits: &str) -> Option<u64>
    requires digits { list_all is_digit digits.now ≡ true }
    requires some { 0 < length digits.now }
    ensures { result ≡ spec.number_value digits.now }
{
    match digits.parse::<u64>() {
        Ok(number) => (number <= GREATEST_NUMBER).then_some(number),
        Err(_) => None,
    }
}

/// Whether a letter, `_` or `.` comes first.
fn is_spoiled(text: &str) -> bool
    ensures { result ≡ spec.is_spoiled text.now }
{
    match text.as_bytes() {
        [first, ..] => spoils_number(*first),
        [] => false,
    }
}

/// A number and what follows it.
#[tactic(auto, unfolding(crate::specs::Reading::read_as))]
fn number(place: u64, text: &str) -> Result<(Option<TokenKind>, &str), LexError>
    requires { is_digit (slice_index text.now 0) ≡ true }
    ensures { Gives (λ x. (x.0, x.1.now)) result (as_token (read_as Kind.Number place text.now)) }
{
    let (digits, rest) = split_run(Class::Digit, text);
    if is_spoiled(rest) {
        return Err(LexError::BadNumber { place });
    }
    match number_value(digits) {
        Some(number) => Ok((Some(TokenKind::Number(number)), rest)),
        None => Err(LexError::BadNumber { place }),
    }
}

/// The longest symbol at the front, or one byte.
fn symbol_front(bytes: &[u8]) -> &[u8]
    ensures { result.now ≡ spec.symbol_front bytes.now }
{
    let two = &bytes[..bytes.len().min(2)];
    if symbol(two).is_some() {
        two
    } else {
        &bytes[..bytes.len().min(1)]
    }
}

/// A symbol and what follows it.
#[tactic(auto, unfolding(crate::specs::Reading::read_as))]
fn symbol_token(place: u64, text: &str) -> Result<(Option<TokenKind>, &str), LexError>
    ensures { Gives (λ x. (x.0, x.1.now)) result (as_token (read_as Kind.Symbol place text.now)) }
{
    let front = symbol_front(text.as_bytes());
    match symbol(front) {
        Some(terminal) => Ok((
            Some(TokenKind::Terminal(terminal)),
            text.split_at(front.len()).1,
        )),
        None => Err(LexError::UnknownCharacter { place }),
    }
}

/// The token that the piece at the front of a text is, if it is one, and what follows the piece.
/// The text begins at that place.
#[tactic(auto, unfolding(crate::specs::Reading::read_as, crate::specs::Reading::piece_at))]
pub fn token_at(
    alloc: Global,
    place: u64,
    text: &str,
) -> Result<(Option<TokenKind>, &str), LexError>
    ensures { Gives (λ x. (x.0, x.1.now)) result (as_token (piece_at place text.now)) }
{
    match kind_at(text.as_bytes()) {
        Kind::Blanks => Ok((None, split_run(Class::Blank, text).1)),
        Kind::LineComment => Ok((None, split_run(Class::Line, text).1)),
        Kind::BlockComment => comment(place, text),
        Kind::Word => word(alloc, text),
        Kind::Number => number(place, text),
        Kind::QuotedName => quoted_name(alloc, place, text),
        Kind::QuotedText => quoted_text(alloc, place, text),
        Kind::Symbol => symbol_token(place, text),
    }
}
