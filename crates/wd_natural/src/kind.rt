//! Single tokens.

ghost use Rattle.std.specs.Prelude.{◌≡◌};
ghost use Rattle.wd_distinct_on.specs.Kinds as kinds;
ghost use Rattle.wd_natural.specs.Kinds as spec;
ghost use Rattle.wd_using.specs.Kinds as joining;

use wd_lex::{Terminal, Token, TokenKind};

pub fn is_natural(kind: &TokenKind) -> bool
    ensures { result ≡ spec.is_natural kind.now }
{
    matches!(kind, TokenKind::Terminal(Terminal::Natural))
}

pub fn is_join(kind: &TokenKind) -> bool
    ensures { result ≡ spec.is_join kind.now }
{
    matches!(kind, TokenKind::Terminal(Terminal::Join))
}

pub fn is_inner(kind: &TokenKind) -> bool
    ensures { result ≡ joining.is_inner kind.now }
{
    matches!(kind, TokenKind::Terminal(Terminal::Inner))
}

/// Whether the token is FROM or JOIN, after which a table begins.
pub fn begins_table(kind: &TokenKind) -> bool
    ensures { result ≡ joining.begins_table kind.now }
{
    matches!(kind, TokenKind::Terminal(Terminal::From | Terminal::Join))
}

/// Whether the token begins a condition on which tables are joined.
pub fn begins_condition(kind: &TokenKind) -> bool
    ensures { result ≡ spec.begins_condition kind.now }
{
    matches!(kind, TokenKind::Terminal(Terminal::On | Terminal::Using))
}

/// Whether the first token is FROM.
pub fn starts_with_from(tokens: &[Token]) -> bool
    ensures { result ≡ kinds.begins kinds.is_from tokens.now }
{
    match tokens {
        [first, ..] => matches!(first.kind, TokenKind::Terminal(Terminal::From)),
        [] => false,
    }
}

/// Whether NATURAL is among the tokens.
pub fn has_natural(mut tokens: &[Token]) -> bool
    ensures { result ≡ joining.has spec.is_natural tokens.entry.now }
{
    while let [first, rest @ ..] = tokens {
        if is_natural(&first.kind) {
            return true;
        }
        tokens = rest;
    }
    false
}
