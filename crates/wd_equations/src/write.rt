//! Writes tokens one by one, at most 65,536.

ghost use Rattle.std.specs.Prelude.{◌≡◌, ◌∷◌, [], ◌≤◌, length, IfOk};
ghost use Rattle.wd_equations.specs.Given.{Adds, most_tokens};
ghost use Rattle.wd_equations.specs.Expanded.{made};

use crate::error::ExpandError;
use std::alloc::AllocError;
use wd_lex::{Span, Terminal, Token, TokenKind};

/// The most tokens that are written.
const MOST_TOKENS: usize = 65536;

/// Adds a token. The error is `TooLong` where there are 65,536 tokens already.
pub fn push(out: &mut Vec<Token>, token: Token) -> Result<(), ExpandError>
    requires { length out.old.items ≤ most_tokens }
    ensures { Adds result out.old.items out.new.items (token ∷ []) }
{
    if out.len() >= MOST_TOKENS {
        return Err(ExpandError::TooLong);
    }
    out.push(token)?;
    Ok(())
}

/// Adds a reserved word or a symbol.
pub fn push_mark(out: &mut Vec<Token>, at: Span, terminal: Terminal) -> Result<(), ExpandError>
    requires { length out.old.items ≤ most_tokens }
    ensures { Adds result out.old.items out.new.items (made terminal at ∷ []) }
{
    let kind = TokenKind::Terminal(terminal);
    push(out, Token { kind, span: at })
}

/// An equal kind of its own.
fn copied_kind(kind: &TokenKind) -> Result<TokenKind, AllocError>
    ensures { IfOk result (λ copied. copied ≡ kind.now) }
{
    match kind {
        TokenKind::Terminal(terminal) => Ok(TokenKind::Terminal(*terminal)),
        TokenKind::Word(text) => Ok(TokenKind::Word(text.copy()?)),
        TokenKind::Quoted(text) => Ok(TokenKind::Quoted(text.copy()?)),
        TokenKind::Literal(text) => Ok(TokenKind::Literal(text.copy()?)),
        TokenKind::Number(number) => Ok(TokenKind::Number(*number)),
    }
}

/// Adds an equal token.
pub fn push_copy(out: &mut Vec<Token>, token: &Token) -> Result<(), ExpandError>
    requires { length out.old.items ≤ most_tokens }
    ensures { Adds result out.old.items out.new.items (token.now ∷ []) }
{
    let kind = copied_kind(&token.kind)?;
    let span = token.span;
    push(out, Token { kind, span })
}
