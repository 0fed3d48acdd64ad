//! One WITH clause within brackets.

ghost use Rattle.std.specs.Prelude.{◌≡◌, ◌∷◌, ◌++◌};
ghost use Rattle.wd_clauses.specs.Given.{Makes};
ghost use Rattle.wd_clauses.specs.Reach as reach;
ghost use Rattle.wd_inner_with.specs.Inner as spec;
ghost use Rattle.wd_with.specs.Expanded as members;

use std::alloc::Global;
use wd_clauses::{RespellError, add_all, add_copy, closing, copy_tokens};
use wd_distinct_on::split_at_place;
use wd_lex::{Terminal, Token, TokenKind};
use wd_with::{Expanded, without_with};

/// Whether the tokens begin with a bracket and WITH.
pub fn begins_inner(tokens: &[Token]) -> bool
    ensures { result ≡ spec.begins_inner tokens.now }
{
    match tokens {
        [bracket, with, ..] => {
            matches!(bracket.kind, TokenKind::Terminal(Terminal::LeftBracket))
                && matches!(with.kind, TokenKind::Terminal(Terminal::With))
        }
        _ => false,
    }
}

/// These tokens with a query in brackets between them.
fn joined(
    alloc: Global,
    front: &[Token],
    bracket: &Token,
    query: &[Token],
    after: &[Token],
) -> Result<Vec<Token>, RespellError>
    ensures { Makes (λ x. x.items) (λ x. x) result (front.now ++ bracket.now ∷ (query.now ++ after.now)) }
{
    let mut written = copy_tokens(alloc, front)?;
    add_copy(&mut written, bracket)?;
    add_all(&mut written, query)?;
    add_all(&mut written, after)?;
    Ok(written)
}

/// A query in brackets without its WITH clause, put between these tokens.
fn between(
    alloc: Global,
    front: &[Token],
    bracket: &Token,
    query: &[Token],
    after: &[Token],
) -> Result<Expanded, RespellError>
    ensures { Makes members.said (λ s. s.tokens) result (spec.between front.now bracket.now (members.expanded query.now) after.now) }
{
    let Expanded { tokens, read_twice } = without_with(alloc, query)?;
    Ok(Expanded {
        tokens: joined(alloc, front, bracket, &tokens, after)?,
        read_twice,
    })
}

/// The query up to the bracket that closes it, put between these tokens.
fn up_to(
    alloc: Global,
    front: &[Token],
    bracket: &Token,
    tokens: &[Token],
) -> Result<Option<Expanded>, RespellError>
    ensures { spec.MaySay members.said result (spec.up_to front.now bracket.now tokens.now (reach.closing tokens.now)) }
{
    match closing(tokens) {
        Some(place) => {
            let query = between(alloc, front, bracket, &tokens[..place], &tokens[place..])?;
            Ok(Some(query))
        }
        None => Ok(None),
    }
}

/// The query without the WITH clause in the bracket at a place.
#[tactic(auto, unfolding(crate::specs::Inner::open_at))]
pub fn open_at(
    alloc: Global,
    place: usize,
    tokens: &[Token],
) -> Result<Option<Expanded>, RespellError>
    ensures { spec.MaySay members.said result (spec.open_at place tokens.now) }
{
    let (front, rest) = split_at_place(place, tokens);
    match rest {
        [bracket, inner @ ..] if begins_inner(rest) => up_to(alloc, front, bracket, inner),
        _ => Ok(None),
    }
}
