//! Single tokens.

ghost use Rattle.std.specs.Prelude.{◌≡◌};
ghost use Rattle.wd_clauses.specs.Reach as reach;
ghost use Rattle.wd_distinct_on.specs.Kinds as kinds;
ghost use Rattle.wd_membership.specs.Kinds as spec;
ghost use Rattle.wd_using.specs.Joins.{is_end};
ghost use Rattle.wd_using.specs.Kinds as single;

use wd_distinct_on::is_dot;
use wd_lex::{Terminal, Token, TokenKind};
use wd_using::{begins_columns, is_star, opens};

pub fn is_in(kind: &TokenKind) -> bool
    ensures { result ≡ spec.is_in kind.now }
{
    match kind {
        TokenKind::Word(text) => text.as_bytes() == b"in".as_slice(),
        _ => false,
    }
}

pub fn is_exists(kind: &TokenKind) -> bool
    ensures { result ≡ spec.is_exists kind.now }
{
    match kind {
        TokenKind::Word(text) => text.as_bytes() == b"exists".as_slice(),
        _ => false,
    }
}

pub fn is_equals(kind: &TokenKind) -> bool
    ensures { result ≡ spec.is_equals kind.now }
{
    matches!(kind, TokenKind::Terminal(Terminal::Equals))
}

/// Whether no token is left.
pub fn is_end(tokens: &[Token]) -> bool
    ensures { result ≡ is_end tokens.now }
{
    match tokens {
        [] => true,
        [_, ..] => false,
    }
}

/// Whether the first token is a dot.
pub fn begins_dot(tokens: &[Token]) -> bool
    ensures { result ≡ kinds.begins kinds.is_dot tokens.now }
{
    match tokens {
        [first, ..] => is_dot(&first.kind),
        [] => false,
    }
}

/// Whether the first token is a star.
pub fn begins_star(tokens: &[Token]) -> bool
    ensures { result ≡ kinds.begins single.is_star tokens.now }
{
    match tokens {
        [first, ..] => is_star(&first.kind),
        [] => false,
    }
}

/// Whether a bracket opens among the tokens.
pub fn has_bracket(mut tokens: &[Token]) -> bool
    ensures { result ≡ single.has reach.opens tokens.entry.now }
{
    while let [first, rest @ ..] = tokens {
        if opens(&first.kind) {
            return true;
        }
        tokens = rest;
    }
    false
}

/// Whether a quoted name may equal one of the added names.
fn is_ours(kind: &TokenKind) -> bool
    ensures { result ≡ spec.is_ours kind.now }
{
    match kind {
        TokenKind::Quoted(text) => {
            let bytes = text.as_bytes();
            bytes.starts_with(b"in ") || bytes.starts_with(b"exists ")
        }
        _ => false,
    }
}

/// Whether one of the names may equal one of the added names.
pub fn has_ours(mut tokens: &[Token]) -> bool
    ensures { result ≡ single.has spec.is_ours tokens.entry.now }
{
    while let [first, rest @ ..] = tokens {
        if is_ours(&first.kind) {
            return true;
        }
        tokens = rest;
    }
    false
}

/// Whether a token after another one is a star that stands for the columns of all tables.
fn stands_for_all(before: &TokenKind, token: &Token) -> bool
    ensures { result ≡ spec.stands_for_all before.now token.now }
{
    is_star(&token.kind) && begins_columns(before) && !is_dot(before)
}

/// Whether an item stands for the columns of all tables.
pub fn has_all(before: &TokenKind, tokens: &[Token]) -> bool
    ensures { result ≡ spec.has_all before.now tokens.now }
{
    let mut last = before;
    let mut rest = tokens;
    while let [first, after @ ..] = rest {
        if stands_for_all(last, first) {
            return true;
        }
        last = &first.kind;
        rest = after;
    }
    false
}
