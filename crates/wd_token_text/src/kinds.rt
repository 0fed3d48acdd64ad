//! Tokens that are equal but for their places.

ghost use Rattle.std.specs.Prelude.{◌≡◌, true};
ghost use Rattle.wd_lex.specs.Lexed.{kinds_of};

use wd_lex::{Token, TokenKind};

/// Whether tokens are equal one by one, whatever their places.
pub fn say_the_same(tokens: &[Token], others: &[Token]) -> bool
    ensures same { result ≡ true → kinds_of tokens.now ≡ kinds_of others.now }
    ensures other { kinds_of tokens.now ≡ kinds_of others.now → result ≡ true }
{
    if tokens.len() != others.len() {
        return false;
    }
    for number in 0..tokens.len() {
        if !is_same(&tokens[number].kind, &others[number].kind) {
            return false;
        }
    }
    true
}

/// Whether two tokens are equal, whatever their places.
fn is_same(kind: &TokenKind, other: &TokenKind) -> bool
    ensures same { result ≡ true → kind.now ≡ other.now }
    ensures other { kind.now ≡ other.now → result ≡ true }
{
    match (kind, other) {
        (TokenKind::Terminal(a), TokenKind::Terminal(b)) => a == b,
        (TokenKind::Word(a), TokenKind::Word(b)) => a.as_str() == b.as_str(),
        (TokenKind::Quoted(a), TokenKind::Quoted(b)) => a.as_str() == b.as_str(),
        (TokenKind::Literal(a), TokenKind::Literal(b)) => a.as_str() == b.as_str(),
        (TokenKind::Number(a), TokenKind::Number(b)) => a == b,
        _ => false,
    }
}
