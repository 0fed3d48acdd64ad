//! What comes after a column's type.

ghost use Rattle.std.specs.Prelude.{◌≡◌, ◌+◌, ◌^◌, ◌<◌, ◌++◌, map};
ghost use Rattle.wd_lex.specs.Lexed.{kinds_of};
ghost use Rattle.wd_read_cursor.specs.Given.{Gives, MayRead};
ghost use Rattle.wd_dialect_read.specs.Tokens.{begins_rule, depth_after, ends_item, mark_of, mark_of_word, note_in};
ghost use Rattle.wd_dialect_read.specs.Reading.{begins_tail, marks_at, tail_at, tail_from};

use crate::said::{Mark, Note};
use std::alloc::Global;
use wd_lex::{Terminal, Token, TokenKind};
use wd_read_cursor::{Refusal, unexpected_token};

// The words that begin what is passed over after a column's type.
const COLUMN_NOTES: [(&[u8], Note); 9] = [
    (b"default", Note::Default),
    (b"check", Note::Check),
    (b"references", Note::References),
    (b"generated", Note::Generated),
    (b"collate", Note::Collate),
    (b"storage", Note::Storage),
    (b"compression", Note::Storage),
    (b"deferrable", Note::Deferrable),
    (b"deferred", Note::Deferrable),
];

/// The note that a table of words has for a word.
pub fn note_in(mut table: &[(&[u8], Note)], word: &[u8]) -> Option<Note>
    ensures { result ≡ note_in (map (λ entry. (entry.0.now, entry.1)) table.entry.now) word.now }
{
    while let [entry, rest @ ..] = table {
        if entry.0 == word {
            return Some(entry.1);
        }
        table = rest;
    }
    None
}

/// What a word says after a column's type.
fn mark_of_word(word: &[u8]) -> Mark
    ensures { result ≡ mark_of_word word.now }
{
    if word == b"nulls".as_slice() {
        return Mark::Nulls;
    }
    match note_in(&COLUMN_NOTES, word) {
        Some(note) => Mark::Passed(note),
        None => Mark::Other,
    }
}

/// What a token says after a column's type.
fn mark_of(kind: &TokenKind) -> Mark
    ensures { result ≡ mark_of kind.now }
{
    match kind {
        TokenKind::Terminal(Terminal::Not) => Mark::Not,
        TokenKind::Terminal(Terminal::Null) => Mark::Null,
        TokenKind::Terminal(Terminal::Primary) => Mark::Primary,
        TokenKind::Terminal(Terminal::Unique) => Mark::Unique,
        TokenKind::Terminal(Terminal::Distinct) => Mark::Distinct,
        TokenKind::Terminal(Terminal::Constraint) => Mark::Constraint,
        TokenKind::Word(word) => mark_of_word(word.as_bytes()),
        _ => Mark::Other,
    }
}

/// Whether a token ends an entry between two commas.
fn ends_item(kind: &TokenKind) -> bool
    ensures { result ≡ ends_item kind.now }
{
    matches!(
        kind,
        TokenKind::Terminal(Terminal::Comma | Terminal::RightBracket | Terminal::Semicolon)
    )
}

/// Whether a rule of a column begins with this mark.
fn begins_rule(mark: Mark) -> bool
    ensures { result ≡ begins_rule mark }
{
    match mark {
        Mark::Not
        | Mark::Null
        | Mark::Primary
        | Mark::Unique
        | Mark::Constraint
        | Mark::Passed(_) => true,
        Mark::Nulls | Mark::Distinct | Mark::Other => false,
    }
}

/// How many brackets are open after a token; CASE and END are a pair of brackets.
fn depth_after(depth: usize, kind: &TokenKind) -> usize
    requires { depth + 1 < 2 ^ 64 }
    ensures { result ≡ depth_after depth kind.now }
{
    match kind {
        TokenKind::Terminal(Terminal::LeftBracket | Terminal::Case) => depth + 1,
        TokenKind::Terminal(Terminal::RightBracket | Terminal::End) => depth.saturating_sub(1),
        _ => depth,
    }
}

/// Adds what a token says, if no bracket is open.
fn add_mark(marks: &mut Vec<Mark>, depth: usize, kind: &TokenKind) -> Result<(), Refusal>
    ensures { MayRead (λ _. marks.new.items) result (marks.old.items ++ marks_at depth kind.now) }
{
    if depth == 0 {
        marks.push(mark_of(kind))?;
    }
    Ok(())
}

/// What the tokens outside brackets say, up to what ends them, and the tokens from there on.
#[tactic(auto, unfolding(crate::specs::Reading::tail_from))]
pub fn read_marks(alloc: Global, tokens: &[Token]) -> Result<(Vec<Mark>, &[Token]), Refusal>
    ensures { MayRead (λ x. (x.0.items, kinds_of x.1.now)) result (tail_from 0 (kinds_of tokens.now)) }
{
    let mut marks = Vec::new(alloc);
    let mut depth: usize = 0;
    let mut rest = tokens;
    while let [first, after @ ..] = rest {
        if depth == 0 && ends_item(&first.kind) {
            return Ok((marks, rest));
        }
        add_mark(&mut marks, depth, &first.kind)?;
        depth = depth_after(depth, &first.kind);
        rest = after;
    }
    Ok((marks, rest))
}

/// Whether a rule begins here, or the column ends.
#[tactic(auto, unfolding(crate::specs::Reading::begins_tail))]
fn begins_tail(tokens: &[Token]) -> bool
    ensures { result ≡ begins_tail (kinds_of tokens.now) }
{
    match tokens {
        [first, ..] => ends_item(&first.kind) || begins_rule(mark_of(&first.kind)),
        [] => true,
    }
}

/// The rules of a column, up to what ends it.
#[tactic(auto, unfolding(crate::specs::Reading::tail_at))]
pub fn read_tail(alloc: Global, tokens: &[Token]) -> Result<(Vec<Mark>, &[Token]), Refusal>
    ensures { Gives (λ x. (x.0.items, kinds_of x.1.now)) result (tail_at (kinds_of tokens.now)) }
{
    if !begins_tail(tokens) {
        return Err(unexpected_token(tokens));
    }
    read_marks(alloc, tokens)
}
