//! Where a refused text has the cause of its refusal.

use std::alloc::Global;
use wd_decide::DecideError;
use wd_lex::{Span, Token, lex};
use wd_place::{query_place, schema_place};
use wd_query::TextError;

/// Which text a refusal is about.
#[derive(Clone, Copy, Debug, PartialEq, Eq)]
pub enum RefusedText {
    Schema,
    Query,
}

/// A refusal of a text.
#[derive(Clone, Copy)]
pub struct RefusedPlace {
    pub text: RefusedText,
    pub number: u32,
    /// The bytes that it is about: for 101 to 105 one byte; for 201, 202 and 309 a token, or the end of the text where a further token
    /// is needed; for the others the tokens at which their cause is found.
    pub span: Option<Span>,
}

/// The place of a refusal of a schema's text or a query's. `None` where memory runs out.
pub fn refused_place(
    alloc: Global,
    schema: &[u8],
    query: &[u8],
    error: &DecideError,
) -> Option<RefusedPlace> {
    let number = error.number()?;
    let text = refused_text(error)?;
    let bytes = match text {
        RefusedText::Schema => schema,
        RefusedText::Query => query,
    };
    let span = match error.place() {
        Some(place) => span_at(alloc, bytes, number, place),
        None => cause_at(alloc, schema, query, text, number)?,
    };
    Some(RefusedPlace { text, number, span })
}

/// Which text a refusal is about.
fn refused_text(error: &DecideError) -> Option<RefusedText> {
    match error {
        DecideError::Texts(TextError::Schema(_)) => Some(RefusedText::Schema),
        DecideError::Texts(TextError::Query(_)) => Some(RefusedText::Query),
        DecideError::OutOfMemory => None,
    }
}

/// Where the cause of a refusal of this number is found. `None` where memory runs out.
fn cause_at(
    alloc: Global,
    schema: &[u8],
    query: &[u8],
    text: RefusedText,
    number: u32,
) -> Option<Option<Span>> {
    let found = match text {
        RefusedText::Schema => schema_place(alloc, schema, number),
        RefusedText::Query => query_place(alloc, schema, query, number),
    };
    found.ok()
}

/// The bytes of a place that a refusal of this number names.
fn span_at(alloc: Global, text: &[u8], number: u32, place: u64) -> Option<Span> {
    if number < 200 {
        return Some(Span {
            start: place,
            end: place.saturating_add(1),
        });
    }
    match lex(alloc, text) {
        Ok(tokens) => token_span(&tokens, text.len() as u64, place),
        Err(_) => None,
    }
}

/// Where the token of this number is, or the end of the text where there are fewer tokens.
fn token_span(tokens: &[Token], end: u64, number: u64) -> Option<Span> {
    match tokens.get(usize::try_from(number).ok()?) {
        Some(token) => Some(token.span),
        None => Some(Span {
            start: end,
            end: end,
        }),
    }
}
