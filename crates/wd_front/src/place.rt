//! Where a refusal is in the text of a schema file.

use std::alloc::Global;
use wd_dialect_schema::DialectError;
use wd_dialect_text::mask_text;
use wd_lex::{LexError, Span, Token, lex};
use wd_schema::SchemaError;
use wd_value::OutOfMemory;

/// The place of a refusal of the text as PostgreSQL's tools write schemas. `None` if it names none.
pub(crate) fn dialect_place(
    alloc: Global,
    text: &[u8],
    refusal: DialectError,
) -> Result<Option<Span>, OutOfMemory> {
    match refusal {
        DialectError::Tokens(error) => Ok(error.place().map(byte_at)),
        DialectError::Unexpected { place } => token_at(alloc, &mask_text(alloc, text)?, place),
        DialectError::TooLong => Ok(None),
        DialectError::OutOfMemory => Err(OutOfMemory),
    }
}

/// The place of a refusal of the text by the profile. `None` if it names none.
pub(crate) fn profile_place(
    alloc: Global,
    text: &[u8],
    refusal: SchemaError,
) -> Result<Option<Span>, OutOfMemory> {
    match refusal {
        SchemaError::Unexpected { place } => token_at(alloc, text, place),
        _ => Ok(refusal.place().map(byte_at)),
    }
}

/// The byte with a number.
fn byte_at(place: u64) -> Span {
    Span {
        start: place,
        end: place.saturating_add(1),
    }
}

/// The token of a text with a number, or the end of the text if it has no more.
fn token_at(alloc: Global, text: &[u8], number: u64) -> Result<Option<Span>, OutOfMemory> {
    match lex(alloc, text) {
        Ok(tokens) => Ok(Some(span_of(&tokens, text.len() as u64, number))),
        Err(LexError::OutOfMemory) => Err(OutOfMemory),
        Err(_) => Ok(None),
    }
}

/// Where the token with a number is, or the end of the text.
fn span_of(tokens: &[Token], end: u64, number: u64) -> Span {
    let found = match usize::try_from(number) {
        Ok(number) => tokens.get(number),
        Err(_) => None,
    };
    match found {
        Some(token) => token.span,
        None => Span {
            start: end,
            end: end,
        },
    }
}
