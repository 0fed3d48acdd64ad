//! Single tokens.

ghost use Rattle.std.specs.Prelude.{◌≡◌};
ghost use Rattle.wd_distinct_on.specs.Kinds as spec;

use wd_clauses::is_same_name;
use wd_lex::{Terminal, Token, TokenKind};

pub fn is_as(kind: &TokenKind) -> bool
    ensures { result ≡ spec.is_as kind.now }
{
    matches!(kind, TokenKind::Terminal(Terminal::As))
}

pub fn is_dot(kind: &TokenKind) -> bool
    ensures { result ≡ spec.is_dot kind.now }
{
    matches!(kind, TokenKind::Terminal(Terminal::Dot))
}

pub fn is_from(kind: &TokenKind) -> bool
    ensures { result ≡ spec.is_from kind.now }
{
    matches!(kind, TokenKind::Terminal(Terminal::From))
}

pub fn is_select(kind: &TokenKind) -> bool
    ensures { result ≡ spec.is_select kind.now }
{
    matches!(kind, TokenKind::Terminal(Terminal::Select))
}

pub fn is_distinct(kind: &TokenKind) -> bool
    ensures { result ≡ spec.is_distinct kind.now }
{
    matches!(kind, TokenKind::Terminal(Terminal::Distinct))
}

pub fn is_on(kind: &TokenKind) -> bool
    ensures { result ≡ spec.is_on kind.now }
{
    matches!(kind, TokenKind::Terminal(Terminal::On))
}

pub fn is_order(kind: &TokenKind) -> bool
    ensures { result ≡ spec.is_order kind.now }
{
    matches!(kind, TokenKind::Terminal(Terminal::Order))
}

pub fn is_by(kind: &TokenKind) -> bool
    ensures { result ≡ spec.is_by kind.now }
{
    matches!(kind, TokenKind::Terminal(Terminal::By))
}

pub fn is_number(kind: &TokenKind) -> bool
    ensures { result ≡ spec.is_number kind.now }
{
    matches!(kind, TokenKind::Number(_))
}

/// Whether a token is ASC, DESC or NULLS.
pub fn is_direction(kind: &TokenKind) -> bool
    ensures { result ≡ spec.is_direction kind.now }
{
    match kind {
        TokenKind::Terminal(Terminal::Asc | Terminal::Desc) => true,
        TokenKind::Word(text) => text.as_bytes() == b"nulls".as_slice(),
        _ => false,
    }
}

/// Whether two tokens say the same; a name may be quoted or not.
pub fn is_same(kind: &TokenKind, other: &TokenKind) -> bool
    ensures { result ≡ spec.is_same kind.now other.now }
{
    match kind {
        TokenKind::Terminal(terminal) => match other {
            TokenKind::Terminal(second) => *terminal == *second,
            _ => false,
        },
        TokenKind::Word(_) | TokenKind::Quoted(_) => is_same_name(kind, other),
        TokenKind::Literal(text) => match other {
            TokenKind::Literal(second) => text.as_bytes() == second.as_bytes(),
            _ => false,
        },
        TokenKind::Number(number) => match other {
            TokenKind::Number(second) => *number == *second,
            _ => false,
        },
    }
}

/// Whether the tokens begin with SELECT.
pub fn starts_with_select(tokens: &[Token]) -> bool
    ensures { result ≡ spec.begins spec.is_select tokens.now }
{
    match tokens {
        [first, ..] => is_select(&first.kind),
        [] => false,
    }
}
