//! Single tokens.

ghost use Rattle.std.specs.Prelude.{◌≡◌};
ghost use Rattle.wd_casts.specs.Types as spec;
ghost use Rattle.wd_casts.specs.Terms as terms;

use wd_lex::{Terminal, TokenKind};

/// Whether a token is this word, which is not reserved.
pub fn is_word(kind: &TokenKind, text: &str) -> bool
    ensures { result ≡ spec.is_word text.now kind.now }
{
    match kind {
        TokenKind::Word(word) => word.as_str() == text,
        _ => false,
    }
}

pub fn is_percent(kind: &TokenKind) -> bool
    ensures { result ≡ terms.is_percent kind.now }
{
    matches!(kind, TokenKind::Terminal(Terminal::Percent))
}
