//! Names.

ghost use Rattle.std.specs.Prelude.{◌≡◌};
ghost use Rattle.wd_clauses.specs.Names as spec;

use wd_lex::TokenKind;

/// Whether a token is a name, quoted or not.
pub fn is_name(kind: &TokenKind) -> bool
    ensures { result ≡ spec.is_name kind.now }
{
    matches!(kind, TokenKind::Word(_) | TokenKind::Quoted(_))
}

/// Whether a token is the name with these bytes.
fn is_named(bytes: &[u8], kind: &TokenKind) -> bool
    ensures { result ≡ spec.is_named bytes.now kind.now }
{
    match kind {
        TokenKind::Word(text) | TokenKind::Quoted(text) => bytes == text.as_bytes(),
        _ => false,
    }
}

/// Whether two tokens are the same name.
pub fn is_same_name(name: &TokenKind, kind: &TokenKind) -> bool
    ensures { result ≡ spec.is_same_name name.now kind.now }
{
    match name {
        TokenKind::Word(text) | TokenKind::Quoted(text) => is_named(text.as_bytes(), kind),
        _ => false,
    }
}
