//! The tokens of a text.

ghost use Rattle.std.specs.Prelude.{◌≡◌, ◌≢◌, ◌≤◌, List, length, drop, Ok, Err, IfOk, IfErr};
ghost use Rattle.wd_lex.specs.declared.error.LexError.{LexError};
ghost use Rattle.wd_lex.specs.declared.token.Token.{Token};
ghost use Rattle.wd_lex.specs.Causes.{HasCause, Gives};
ghost use Rattle.wd_lex.specs.Lexed.{IsLexed, AreInOrder, most_bytes, start_of};

use crate::error::LexError;
use crate::pieces::token_at;
use crate::token::{Span, Token};
use std::alloc::Global;

/// The most bytes of a text.
const MOST_BYTES: usize = 65536;

/// The text after a byte order mark at its very start.
fn without_mark(text: &str) -> &str
    ensures { result.now ≡ drop (start_of text.now) text.now }
{
    match text.strip_prefix('\u{FEFF}') {
        Some(rest) => rest,
        None => text,
    }
}

/// The tokens of a text that is short enough.
fn tokens_of(alloc: Global, text: &str) -> Result<Vec<Token>, LexError>
    requires { length text.now ≤ most_bytes }
    ensures tokens { IfOk result (λ tokens. IsLexed text.now tokens.items) }
    ensures cause { IfErr result (λ refusal. refusal ≢ LexError.OutOfMemory → HasCause refusal text.now) }
{
    let mut tokens = Vec::new(alloc);
    let mut rest = without_mark(text);
    while !rest.is_empty() {
        let start = (text.len() - rest.len()) as u64;
        let (kind, after) = token_at(alloc, start, rest)?;
        if let Some(kind) = kind {
            let end = (text.len() - after.len()) as u64;
            tokens.push(Token {
                kind,
                span: Span { start, end },
            })?;
        }
        rest = after;
    }
    Ok(tokens)
}

/// The tokens of a text, or its refusal.
fn answer(alloc: Global, text: &[u8]) -> Result<Vec<Token>, LexError>
    ensures tokens { IfOk result (λ tokens. IsLexed text.now tokens.items) }
    ensures cause { IfErr result (λ refusal. refusal ≢ LexError.OutOfMemory → HasCause refusal text.now) }
{
    if text.len() > MOST_BYTES {
        return Err(LexError::TooLong);
    }
    match str::from_utf8(text) {
        Ok(text) => tokens_of(alloc, text),
        Err(_) => Err(LexError::NotUtf8),
    }
}

/// The tokens of a text of SQL.
///
/// White space and comments separate tokens, and are no tokens. One U+FEFF at the very start is skipped. Texts are at most 65,536 bytes
/// long. The refusal is 107 where a text is longer, else 106 where it is not UTF-8, else that of the first piece in the text that is no
/// white space, comment or token.
pub fn lex(alloc: Global, text: &[u8]) -> Result<Vec<Token>, LexError>
    // The text is short enough and UTF-8, and the tokens are its own.
    ensures tokens { IfOk result (λ found. IsLexed text.now found.items) }

    // The tokens are in order, within the text.
    ensures order { IfOk result (λ found. AreInOrder 0 found.items (length text.now)) }

    // A refusal occurs only where the text has its cause.
    ensures cause { IfErr result (λ refusal. refusal ≢ LexError.OutOfMemory → HasCause refusal text.now) }

    // Where the text has a cause, it is refused with that refusal, unless memory runs out.
    ensures refused { (refusal : LexError) → HasCause refusal text.now → Gives (λ found. found.items) result (Err refusal) }

    // Where the text has tokens, these are the answer, unless memory runs out.
    ensures lexed { (tokens : List Token) → IsLexed text.now tokens → Gives (λ found. found.items) result (Ok tokens) }
{
    answer(alloc, text)
}
