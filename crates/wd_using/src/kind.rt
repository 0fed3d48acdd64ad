//! Single tokens.

ghost use Rattle.std.specs.Prelude.{◌≡◌};
ghost use Rattle.wd_clauses.specs.Names as names;
ghost use Rattle.wd_clauses.specs.Reach as reach;
ghost use Rattle.wd_distinct_on.specs.Kinds as kinds;
ghost use Rattle.wd_using.specs.Kinds as spec;
ghost use Rattle.wd_with.specs.Derived.{goes_on};

use wd_lex::{Terminal, Token, TokenKind};

pub fn is_as(kind: &TokenKind) -> bool
    ensures { result ≡ kinds.is_as kind.now }
{
    matches!(kind, TokenKind::Terminal(Terminal::As))
}

pub fn is_on(kind: &TokenKind) -> bool
    ensures { result ≡ kinds.is_on kind.now }
{
    matches!(kind, TokenKind::Terminal(Terminal::On))
}

pub fn is_select(kind: &TokenKind) -> bool
    ensures { result ≡ kinds.is_select kind.now }
{
    matches!(kind, TokenKind::Terminal(Terminal::Select))
}

pub fn is_using(kind: &TokenKind) -> bool
    ensures { result ≡ spec.is_using kind.now }
{
    matches!(kind, TokenKind::Terminal(Terminal::Using))
}

pub fn is_inner(kind: &TokenKind) -> bool
    ensures { result ≡ spec.is_inner kind.now }
{
    matches!(kind, TokenKind::Terminal(Terminal::Inner))
}

pub fn is_star(kind: &TokenKind) -> bool
    ensures { result ≡ spec.is_star kind.now }
{
    matches!(kind, TokenKind::Terminal(Terminal::Star))
}

pub fn opens(kind: &TokenKind) -> bool
    ensures { result ≡ reach.opens kind.now }
{
    matches!(kind, TokenKind::Terminal(Terminal::LeftBracket))
}

pub fn ends_level(kind: &TokenKind) -> bool
    ensures { result ≡ reach.ends_level kind.now }
{
    matches!(
        kind,
        TokenKind::Terminal(Terminal::RightBracket | Terminal::Semicolon)
    )
}

/// Whether the token is FROM or JOIN, after which a table begins.
pub fn begins_table(kind: &TokenKind) -> bool
    ensures { result ≡ spec.begins_table kind.now }
{
    matches!(kind, TokenKind::Terminal(Terminal::From | Terminal::Join))
}

/// Whether the token ends a table and its condition in a FROM clause.
pub fn ends_table(kind: &TokenKind) -> bool
    ensures { result ≡ spec.ends_table kind.now }
{
    matches!(
        kind,
        TokenKind::Terminal(
            Terminal::Join
                | Terminal::Comma
                | Terminal::Left
                | Terminal::Right
                | Terminal::Full
                | Terminal::Natural
                | Terminal::Cross
        )
    )
}

pub fn is_and(kind: &TokenKind) -> bool
    ensures { result ≡ spec.is_and kind.now }
{
    matches!(kind, TokenKind::Terminal(Terminal::And))
}

/// Whether the token is OR, or CASE, in which AND and OR may appear without brackets.
pub fn is_choice(kind: &TokenKind) -> bool
    ensures { result ≡ spec.is_choice kind.now }
{
    matches!(kind, TokenKind::Terminal(Terminal::Or | Terminal::Case))
}

/// Whether the next AND after the token is part of a test.
pub fn is_between(kind: &TokenKind) -> bool
    ensures { result ≡ spec.is_between kind.now }
{
    match kind {
        TokenKind::Word(text) => text.as_bytes() == b"between".as_slice(),
        _ => false,
    }
}

/// Whether the token begins a clause that may remove rows by their order.
pub fn begins_limit(kind: &TokenKind) -> bool
    ensures { result ≡ spec.begins_limit kind.now }
{
    matches!(
        kind,
        TokenKind::Terminal(Terminal::Order | Terminal::Limit | Terminal::Offset | Terminal::Fetch)
    )
}

/// Whether a star after the token stands for columns.
pub fn begins_columns(kind: &TokenKind) -> bool
    ensures { result ≡ spec.begins_columns kind.now }
{
    matches!(
        kind,
        TokenKind::Terminal(
            Terminal::Select | Terminal::Distinct | Terminal::All | Terminal::Comma | Terminal::Dot
        )
    )
}

/// Whether a name after the token would name an item.
pub fn ends_value(kind: &TokenKind) -> bool
    ensures { result ≡ spec.ends_value kind.now }
{
    match kind {
        TokenKind::Terminal(terminal) => matches!(
            terminal,
            Terminal::As
                | Terminal::RightBracket
                | Terminal::End
                | Terminal::Null
                | Terminal::True
                | Terminal::False
        ),
        _ => true,
    }
}

/// Whether a name after the token is not a column without a table.
pub fn is_taken(kind: &TokenKind) -> bool
    ensures { result ≡ spec.is_taken kind.now }
{
    matches!(kind, TokenKind::Terminal(Terminal::As | Terminal::Dot))
}

/// Whether the first token is a dot or a bracket.
pub fn goes_on(after: &[Token]) -> bool
    ensures { result ≡ kinds.begins goes_on after.now }
{
    match after {
        [next, ..] => matches!(
            next.kind,
            TokenKind::Terminal(Terminal::Dot | Terminal::LeftBracket)
        ),
        [] => false,
    }
}

/// Whether the first token is DISTINCT.
pub fn begins_distinct(tokens: &[Token]) -> bool
    ensures { result ≡ kinds.begins kinds.is_distinct tokens.now }
{
    match tokens {
        [first, ..] => matches!(first.kind, TokenKind::Terminal(Terminal::Distinct)),
        [] => false,
    }
}

/// Whether the first token is FROM.
pub fn begins_from(tokens: &[Token]) -> bool
    ensures { result ≡ kinds.begins kinds.is_from tokens.now }
{
    match tokens {
        [first, ..] => matches!(first.kind, TokenKind::Terminal(Terminal::From)),
        [] => false,
    }
}

/// Whether the first token is ON.
pub fn begins_on(tokens: &[Token]) -> bool
    ensures { result ≡ kinds.begins kinds.is_on tokens.now }
{
    match tokens {
        [first, ..] => is_on(&first.kind),
        [] => false,
    }
}

/// Whether the token begins a further select.
pub fn begins_select(kind: &TokenKind) -> bool
    ensures { result ≡ spec.begins_select kind.now }
{
    matches!(
        kind,
        TokenKind::Terminal(Terminal::Select | Terminal::Union)
    )
}

/// Whether a further select is among the tokens.
pub fn has_select(mut tokens: &[Token]) -> bool
    ensures { result ≡ spec.has spec.begins_select tokens.entry.now }
{
    while let [first, rest @ ..] = tokens {
        if begins_select(&first.kind) {
            return true;
        }
        tokens = rest;
    }
    false
}

/// Whether a token is the name.
pub fn is_named(bytes: &[u8], kind: &TokenKind) -> bool
    ensures { result ≡ names.is_named bytes.now kind.now }
{
    match kind {
        TokenKind::Word(text) | TokenKind::Quoted(text) => bytes == text.as_bytes(),
        _ => false,
    }
}
