//! An operand with its casts.

ghost use Rattle.std.specs.Prelude.{◌≡◌, ◌++◌, IfOk};
ghost use Rattle.wd_clauses.specs.Given.{Finds};
ghost use Rattle.wd_casts.specs.Seen.{found_rest, term_seen};
ghost use Rattle.wd_casts.specs.Terms as spec;

use crate::kind::Kind;
use crate::token::{is_percent, is_word};
use crate::type_name::type_at;
use std::alloc::{AllocError, Global};
use wd_lex::{Span, Token};
use wd_operands::{brackets_at, primary_length};
use wd_units::{Stop, begins_bracket, part_length};

/// A cast: its type, and the place of its `::` or its CAST.
#[derive(Clone, Copy)]
pub struct Cast {
    pub kind: Kind,
    pub at: Span,
}

/// An operand, its casts, and the tokens after them.
#[derive(Drop)]
pub struct Term<'t> {
    pub operand: &'t [Token],
    pub casts: Vec<Cast>,
    pub rest: &'t [Token],
}

/// Whether the tokens begin with `::`, as it is masked.
#[tactic(auto, unfolding(crate::specs::Terms::begins_sign))]
fn begins_sign(tokens: &[Token]) -> bool
    ensures { result ≡ spec.begins_sign tokens.now }
{
    match tokens {
        [first, second, ..] => {
            is_percent(&first.kind)
                && is_percent(&second.kind)
                && first.span.end == second.span.start
        }
        _ => false,
    }
}

/// Whether the tokens begin with `CAST (`.
#[tactic(auto, unfolding(crate::specs::Terms::begins_call))]
fn begins_call(tokens: &[Token]) -> bool
    ensures { result ≡ spec.begins_call tokens.now }
{
    match tokens {
        [first, rest @ ..] => is_word(&first.kind, "cast") && begins_bracket(rest),
        [] => false,
    }
}

/// Whether a cast is among the tokens of a masked text.
#[tactic(auto, unfolding(crate::specs::Terms::has_casts))]
pub fn has_casts(tokens: &[Token]) -> bool
    ensures { result ≡ spec.has_casts tokens.now }
{
    let mut rest = tokens;
    while let [_, after @ ..] = rest {
        if begins_sign(rest) || begins_call(rest) {
            return true;
        }
        rest = after;
    }
    false
}

/// The cast at the start, after an operand, and the tokens after it.
#[tactic(auto, unfolding(crate::specs::Terms::cast_at))]
fn cast_at(tokens: &[Token]) -> Option<(Cast, &[Token])>
    ensures { Finds found_rest result (spec.cast_at tokens.now) }
{
    let [first, _, rest @ ..] = tokens else {
        return None;
    };
    if !begins_sign(tokens) {
        return None;
    }
    let Some((kind, after)) = type_at(rest) else {
        return None;
    };
    let cast = Cast {
        kind,
        at: first.span,
    };
    Some((cast, after))
}

/// Adds the casts at the start of the tokens, and returns the tokens after them.
#[tactic(auto, unfolding(crate::specs::Terms::casts_at))]
fn push_casts<'t>(casts: &mut Vec<Cast>, tokens: &'t [Token]) -> Result<&'t [Token], AllocError>
    ensures casts { IfOk result (λ _. casts.new.items ≡ casts.old.items ++ (spec.casts_at tokens.now).0) }
    ensures rest { IfOk result (λ rest. rest.now ≡ (spec.casts_at tokens.now).1) }
{
    let mut rest = tokens;
    for _ in 0..tokens.len() {
        let Some((cast, after)) = cast_at(rest) else {
            return Ok(rest);
        };
        casts.push(cast)?;
        rest = after;
    }
    Ok(rest)
}

/// An operand with these casts and those that follow.
#[tactic(auto, unfolding(crate::specs::Terms::term_of))]
fn term_of<'t>(
    operand: &'t [Token],
    first: Vec<Cast>,
    tokens: &'t [Token],
) -> Result<Option<Term<'t>>, AllocError>
    ensures { IfOk result (λ found. Finds term_seen found (spec.term_of operand.now first.items tokens.now)) }
{
    let mut casts = first;
    let rest = push_casts(&mut casts, tokens)?;
    if begins_sign(rest) {
        return Ok(None);
    }
    Ok(Some(Term {
        operand,
        casts,
        rest,
    }))
}

/// A primary with the casts after it.
#[tactic(auto, unfolding(crate::specs::Terms::primary_at))]
fn primary_at(alloc: Global, tokens: &[Token]) -> Result<Option<Term<'_>>, AllocError>
    ensures { IfOk result (λ found. Finds term_seen found (spec.primary_at tokens.now)) }
{
    let length = primary_length(tokens);
    if length == 0 {
        return Ok(None);
    }
    let (operand, rest) = tokens.split_at(length);
    term_of(operand, Vec::new(alloc), rest)
}

/// The type after AS, and nothing after it.
#[tactic(auto, unfolding(crate::specs::Terms::type_after))]
fn type_after(tokens: &[Token]) -> Option<Kind>
    ensures { result ≡ spec.type_after tokens.now }
{
    let [_, rest @ ..] = tokens else {
        return None;
    };
    match type_at(rest) {
        Some((kind, after)) => if after.is_empty() { Some(kind) } else { None },
        None => None,
    }
}

/// `CAST ( x AS type )`, with the casts after it.
#[tactic(auto, unfolding(crate::specs::Terms::call_at))]
fn call_at(alloc: Global, tokens: &[Token]) -> Result<Option<Term<'_>>, AllocError>
    ensures { IfOk result (λ found. Finds term_seen found (spec.call_at tokens.now)) }
{
    let [first, after_word @ ..] = tokens else {
        return Ok(None);
    };
    let Some((inside, rest)) = brackets_at(after_word) else {
        return Ok(None);
    };
    let (operand, after) = inside.split_at(part_length(Stop::As, inside));
    let Some(kind) = type_after(after) else {
        return Ok(None);
    };
    let cast = Cast {
        kind,
        at: first.span,
    };
    let casts = Vec::from_slice(alloc, &[cast])?;
    term_of(operand, casts, rest)
}

/// The operand at the start, with its casts.
#[tactic(auto, unfolding(crate::specs::Terms::term_at))]
pub fn term_at(alloc: Global, tokens: &[Token]) -> Result<Option<Term<'_>>, AllocError>
    ensures { IfOk result (λ found. Finds term_seen found (spec.term_at tokens.now)) }
{
    if begins_call(tokens) {
        call_at(alloc, tokens)
    } else {
        primary_at(alloc, tokens)
    }
}
