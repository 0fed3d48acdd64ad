//! Tokens as a text.

ghost use Rattle.std.specs.Prelude.{◌≡◌, ◌↔◌, ◌++◌, IfOk, IfSome, IsSome, OnErr, OnOk};
ghost use Rattle.std.specs.String.{string_bytes};
ghost use Rattle.wd_lex.specs.Lexed.{kinds_of};
ghost use Rattle.wd_print.specs.Printed.{HasTokens, printed_token};
ghost use Rattle.wd_token_text.specs.Texts.{AreWritable, text_of};

use crate::kinds::say_the_same;
use std::alloc::{AllocError, Global};
use wd_lex::{LexError, Token, TokenKind, lex};
use wd_print::{push_literal, push_name, push_number, push_terminal, push_word};
use wd_value::OutOfMemory;

/// The text of tokens, each in its own spelling and with white space after it, in which the lexer reads just these. `None` where one of
/// them has no spelling, or the text would be longer than what the lexer reads.
pub fn token_text(alloc: Global, tokens: &[Token]) -> Result<Option<String>, OutOfMemory>
    // The lexer reads just these tokens in the text.
    ensures read { IfOk result (λ o. IfSome o (λ text. HasTokens (string_bytes text) (kinds_of tokens.now))) }

    // The text is the tokens, one after the other.
    ensures text { IfOk result (λ o. IfSome o (λ text. string_bytes text ≡ text_of tokens.now)) }

    // There is a text exactly where each token has a spelling and the text is short enough.
    ensures some { IfOk result (λ o. IsSome o ↔ AreWritable tokens.now) }
{
    let text = printed_tokens(alloc, tokens)?;
    match lex(alloc, text.as_str().as_bytes()) {
        Ok(own) => Ok(say_the_same(&own, tokens).then_some(text)),
        Err(error) => match error {
            LexError::OutOfMemory => Err(OutOfMemory),
            _ => Ok(None),
        },
    }
}

/// Tokens printed one after the other, whatever the lexer reads in them.
fn printed_tokens(alloc: Global, tokens: &[Token]) -> Result<String, AllocError>
    ensures { IfOk result (λ text. string_bytes text ≡ text_of tokens.now) }
{
    let mut text = String::new(alloc);
    let mut rest = tokens;
    while let [token, after @ ..] = rest {
        push_token(&mut text, token)?;
        rest = after;
    }
    Ok(text)
}

/// Prints a token.
pub fn push_token(text: &mut String, token: &Token) -> Result<(), AllocError>
    ensures printed { OnOk result (string_bytes text.new ≡ string_bytes text.old ++ printed_token token.now.kind) }
    ensures kept { OnErr result (string_bytes text.new ≡ string_bytes text.old) }
{
    match &token.kind {
        TokenKind::Terminal(terminal) => push_terminal(text, *terminal),
        TokenKind::Word(word) => push_word(text, word.as_str()),
        TokenKind::Quoted(name) => push_name(text, name.as_str()),
        TokenKind::Literal(literal) => push_literal(text, literal.as_str()),
        TokenKind::Number(number) => push_number(text, *number),
    }
}
