//! Single tokens.

ghost use Rattle.std.specs.Prelude.{◌≡◌};
ghost use Rattle.wd_operands.specs.Operands as spec;

use wd_lex::{Terminal, TokenKind};

/// Whether a word begins what comes between an operand and the next, so that it is not a name.
pub fn is_test_word(text: &str) -> bool
    ensures { result ≡ spec.is_test_word text.now }
{
    matches!(text, "between" | "in" | "like" | "ilike" | "similar")
}

pub fn is_name(kind: &TokenKind) -> bool
    ensures { result ≡ spec.is_name kind.now }
{
    match kind {
        TokenKind::Word(text) => !is_test_word(text.as_str()),
        TokenKind::Quoted(_) => true,
        _ => false,
    }
}

pub fn is_filter(kind: &TokenKind) -> bool
    ensures { result ≡ spec.is_filter kind.now }
{
    match kind {
        TokenKind::Word(text) => text.as_str() == "filter",
        _ => false,
    }
}

pub fn is_left_bracket(kind: &TokenKind) -> bool
    ensures { result ≡ spec.is_left_bracket kind.now }
{
    matches!(kind, TokenKind::Terminal(Terminal::LeftBracket))
}

pub fn is_over(kind: &TokenKind) -> bool
    ensures { result ≡ spec.is_over kind.now }
{
    matches!(kind, TokenKind::Terminal(Terminal::Over))
}

pub fn is_sign(kind: &TokenKind) -> bool
    ensures { result ≡ spec.is_sign kind.now }
{
    matches!(kind, TokenKind::Terminal(Terminal::Plus | Terminal::Minus))
}

/// Whether it is a text, a number, NULL, TRUE or FALSE.
pub fn is_constant(kind: &TokenKind) -> bool
    ensures { result ≡ spec.is_constant kind.now }
{
    matches!(
        kind,
        TokenKind::Literal(_)
            | TokenKind::Number(_)
            | TokenKind::Terminal(Terminal::Null | Terminal::True | Terminal::False)
    )
}
