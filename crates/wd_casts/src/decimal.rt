//! Numbers with a point, which are two numbers in a masked text.

ghost use Rattle.std.specs.Prelude.{◌≡◌, ◌∷◌, None, IfOk};
ghost use Rattle.std.specs.Option.{option_map};
ghost use Rattle.wd_casts.specs.Decimals as spec;
ghost use Rattle.wd_casts.specs.Decimals.{literals_from};

use std::alloc::{AllocError, Global};
use wd_clauses::copy_token;
use wd_lex::{Span, Token, TokenKind};
use wd_value::Text;

fn is_number(kind: &TokenKind) -> bool
    ensures { result ≡ spec.is_number kind.now }
{
    matches!(kind, TokenKind::Number(_))
}

/// Whether two tokens are numbers with one byte between them.
fn is_pair(first: &Token, second: &Token) -> bool
    ensures { result ≡ spec.is_pair first.now second.now }
{
    is_number(&first.kind)
        && is_number(&second.kind)
        && second.span.start.saturating_sub(first.span.end) == 1
}

/// The text of these bytes, where they are UTF-8.
fn text_of(bytes: &[u8]) -> Option<&str>
    ensures { option_map (λ text. text.now) result ≡ spec.text_of bytes.now }
{
    match str::from_utf8(bytes) {
        Ok(text) => Some(text),
        Err(_) => None,
    }
}

/// The text of the query from one place to another.
#[tactic(auto, unfolding(crate::specs::Decimals::said_between))]
fn said_between(query: &[u8], start: u64, end: u64) -> Option<&str>
    ensures { option_map (λ said. said.now) result ≡ spec.said_between query.now start end }
{
    if start > end || end as usize > query.len() {
        return None;
    }
    text_of(&query[start as usize..end as usize])
}

/// The number with a point at the start, as the query writes it.
#[tactic(auto, unfolding(crate::specs::Decimals::decimal_at))]
fn decimal_at<'q>(query: &'q [u8], tokens: &[Token]) -> Option<&'q str>
    ensures { option_map (λ said. said.now) result ≡ spec.decimal_at query.now tokens.now }
{
    match tokens {
        [first, second, ..] => if is_pair(first, second) {
            said_between(query, first.span.start, second.span.end)
        } else {
            None
        },
        _ => None,
    }
}

/// The word NUMERIC in place of the first of the two numbers, where a number with a point was found; otherwise an equal token.
fn word_for(alloc: Global, said: Option<&str>, token: &Token) -> Result<Token, AllocError>
    ensures { IfOk result (λ found. found ≡ spec.word_for (option_map (λ text. text.now) said.entry) token.now) }
{
    match said {
        Some(_) => {
            let kind = TokenKind::Word(Text::from_str(alloc, "numeric")?);
            let span = token.span;
            Ok(Token { kind, span })
        }
        None => copy_token(token),
    }
}

/// A text in quotes.
fn text_at(alloc: Global, said: &str, at: Span) -> Result<Token, AllocError>
    ensures { IfOk result (λ found. found ≡ spec.text_at said.now at) }
{
    let kind = TokenKind::Literal(Text::from_str(alloc, said)?);
    Ok(Token { kind, span: at })
}

/// The replacement of a token that ends a number with a point, or perhaps begins one; and the number with a point that the next token
/// ends, if any.
fn next_for<'q>(
    alloc: Global,
    said: Option<&'q str>,
    begun: Option<&'q str>,
    token: &Token,
) -> Result<(Token, Option<&'q str>), AllocError>
    ensures token { IfOk result (λ x. x.0 ≡ (spec.next_for (option_map (λ text. text.now) said.entry) (option_map (λ text. text.now) begun.entry) token.now).0) }
    ensures next { IfOk result (λ x. option_map (λ text. text.now) x.1 ≡ (spec.next_for (option_map (λ text. text.now) said.entry) (option_map (λ text. text.now) begun.entry) token.now).1) }
{
    match said {
        Some(text) => {
            let token = text_at(alloc, text, token.span)?;
            Ok((token, None))
        }
        None => {
            let token = word_for(alloc, begun, token)?;
            Ok((token, begun))
        }
    }
}

/// The tokens of a masked query with `NUMERIC '12.50'` for each number with a point, which is two numbers there. The quotes hold the
/// query's own text, and each token has the place of the one that it replaces.
#[tactic(auto, unfolding(crate::specs::Decimals::with_literals))]
pub fn with_literals(
    alloc: Global,
    query: &[u8],
    tokens: &[Token],
) -> Result<Vec<Token>, AllocError>
    ensures { IfOk result (λ found. found.items ≡ spec.with_literals query.now tokens.now) }
{
    let mut found = Vec::new(alloc);
    let mut said = None;
    let mut rest = tokens;
    while let [first, after @ ..] = rest {
        let begun = decimal_at(query, rest);
        let (token, next) = next_for(alloc, said, begun, first)?;
        found.push(token)?;
        said = next;
        rest = after;
    }
    Ok(found)
}
