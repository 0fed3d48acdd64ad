use std::alloc::{AllocError, Global};
use wd_cases::{Failure, unescape};
use wd_lex::{Span, Token, TokenKind, lex};

/// `tokens TEXT`: each token as `kind@start..end`, or why there are none.
pub fn tokens(alloc: Global, text: &str) -> Result<String, Failure> {
    let text = unescape(alloc, text)?;
    match lex(alloc, &text) {
        Ok(tokens) => Ok(list_tokens(alloc, &tokens)?),
        Err(error) => Failure::from(error).explained(alloc, &error),
    }
}

fn list_tokens(alloc: Global, tokens: &[Token]) -> Result<String, AllocError> {
    let mut out = String::new(alloc);
    for token in tokens {
        if !out.is_empty() {
            out.push(' ')?;
        }
        push_token(&mut out, token)?;
    }
    Ok(out)
}

fn push_token(out: &mut String, token: &Token) -> Result<(), AllocError> {
    let Span { start, end } = token.span;
    push_kind(out, &token.kind)?;
    write!(out, "@{start}..{end}")
}

fn push_kind(out: &mut String, kind: &TokenKind) -> Result<(), AllocError> {
    let (word, text) = match kind {
        TokenKind::Terminal(terminal) => return write!(out, "{terminal:?}"),
        TokenKind::Number(number) => return write!(out, "number {number}"),
        TokenKind::Word(text) => ("word ", text),
        TokenKind::Quoted(text) => ("quoted ", text),
        TokenKind::Literal(text) => ("literal ", text),
    };
    out.push_str(word)?;
    out.push_str(text.as_str())
}
