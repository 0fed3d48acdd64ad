//! Appends tokens to those written so far, at most 65,536 in all.

ghost use Rattle.std.specs.Prelude.{◌≡◌, ◌∷◌, [], IfOk};
ghost use Rattle.wd_clauses.specs.Added as spec;
ghost use Rattle.wd_clauses.specs.Given.{Makes, Writes};

use crate::error::RespellError;
use std::alloc::{AllocError, Global};
use wd_lex::{Terminal, Token, TokenKind};

// The most tokens of a query.
const MOST_TOKENS: usize = 65_536;

/// An equal token.
pub fn copy_token(token: &Token) -> Result<Token, AllocError>
    ensures { IfOk result (λ t. t ≡ token.now) }
{
    let kind = match &token.kind {
        TokenKind::Terminal(terminal) => TokenKind::Terminal(*terminal),
        TokenKind::Word(text) => TokenKind::Word(text.copy()?),
        TokenKind::Quoted(text) => TokenKind::Quoted(text.copy()?),
        TokenKind::Literal(text) => TokenKind::Literal(text.copy()?),
        TokenKind::Number(number) => TokenKind::Number(*number),
    };
    Ok(Token {
        kind,
        span: token.span,
    })
}

/// A terminal that is added because of a word.
pub fn added_terminal(terminal: Terminal, word: &Token) -> Token
    ensures { result ≡ spec.added terminal word.now }
{
    Token {
        kind: TokenKind::Terminal(terminal),
        span: word.span,
    }
}

/// Adds a token. The error is `TooLong` where there are 65,536 tokens already; the tokens then stay as they are.
pub fn add(written: &mut Vec<Token>, token: Token) -> Result<(), RespellError>
    ensures { Writes written.old.items written.new.items result (token ∷ []) }
{
    if written.len() >= MOST_TOKENS {
        return Err(RespellError::TooLong);
    }
    written.push(token)?;
    Ok(())
}

/// Adds a copy of a token. The error is `TooLong` where there are 65,536 tokens already.
pub fn add_copy(written: &mut Vec<Token>, token: &Token) -> Result<(), RespellError>
    ensures { Writes written.old.items written.new.items result (token.now ∷ []) }
{
    add(written, copy_token(token)?)
}

/// Adds copies of tokens. The error is `TooLong` where there is not room for all of them.
pub fn add_all(written: &mut Vec<Token>, tokens: &[Token]) -> Result<(), RespellError>
    ensures { Writes written.old.items written.new.items result tokens.now }
{
    let mut rest = tokens;
    while let [first, after @ ..] = rest {
        add_copy(written, first)?;
        rest = after;
    }
    Ok(())
}

/// Copies of tokens. The error is `TooLong` where there are more than 65,536.
pub fn copy_tokens(alloc: Global, tokens: &[Token]) -> Result<Vec<Token>, RespellError>
    ensures { Makes (λ x. x.items) (λ x. x) result tokens.now }
{
    let mut written = Vec::new(alloc);
    add_all(&mut written, tokens)?;
    Ok(written)
}
