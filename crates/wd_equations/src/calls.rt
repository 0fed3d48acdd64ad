//! Calls that are abbreviations, calls with FILTER, and a CASE with an operand.

ghost use Rattle.std.specs.Prelude.{◌≡◌, IfOk};
ghost use Rattle.wd_operands.specs.Given.{Finds};
ghost use Rattle.wd_equations.specs.Places.{seen};
ghost use Rattle.wd_equations.specs.Calls.{begins_arms, begins_value, call_at, case_after, coalesce_after, counted, filter_after, filter_word, filtered, is_aggregate, is_all, named_call, null_if_after};

use crate::equation::Form;
use crate::found::Found;
use crate::split::parts_of;
use crate::tokens::{is_terminal, is_word, past};
use std::alloc::{AllocError, Global};
use wd_lex::{Span, Terminal, Token, TokenKind};
use wd_operands::{brackets_at, nest_at};

/// `COALESCE (x, y, ..)`, after its name: at least two values.
#[tactic(auto, unfolding(crate::specs::Calls::coalesce_after))]
fn coalesce_after<'t>(
    alloc: Global,
    at: Span,
    tokens: &'t [Token],
) -> Result<Option<Found<'t>>, AllocError>
    ensures { IfOk result (λ found. Finds seen found (coalesce_after at tokens.now)) }
{
    let Some((list, rest)) = brackets_at(tokens) else {
        return Ok(None);
    };
    let parts = parts_of(alloc, Terminal::Comma, Terminal::Comma, list)?;
    if parts.len() < 2 {
        return Ok(None);
    }
    Ok(Some(Found {
        form: Form::Coalesce,
        is_not: false,
        at,
        parts,
        rest,
    }))
}

/// `NULLIF (x, y)`, after its name.
#[tactic(auto, unfolding(crate::specs::Calls::null_if_after))]
fn null_if_after<'t>(
    alloc: Global,
    at: Span,
    tokens: &'t [Token],
) -> Result<Option<Found<'t>>, AllocError>
    ensures { IfOk result (λ found. Finds seen found (null_if_after at tokens.now)) }
{
    let Some((list, rest)) = brackets_at(tokens) else {
        return Ok(None);
    };
    let parts = parts_of(alloc, Terminal::Comma, Terminal::Comma, list)?;
    if parts.len() != 2 {
        return Ok(None);
    }
    Ok(Some(Found {
        form: Form::NullIf,
        is_not: false,
        at,
        parts,
        rest,
    }))
}

/// The place of FILTER, if the tokens begin with it, and the tokens after it.
#[tactic(auto, unfolding(crate::specs::Calls::filter_word))]
fn filter_word(tokens: &[Token]) -> Option<(Span, &[Token])>
    ensures { Finds (λ found. (found.0, found.1.now)) result (filter_word tokens.now) }
{
    match tokens {
        [first, rest @ ..] => {
            if is_word(&first.kind, "filter") {
                Some((first.span, rest))
            } else {
                None
            }
        }
        [] => None,
    }
}

/// `*` alone.
#[tactic(auto, unfolding(crate::specs::Calls::is_all))]
fn is_all(tokens: &[Token]) -> bool
    ensures { result ≡ is_all tokens.now }
{
    match tokens {
        [only] => is_terminal(&only.kind, Terminal::Star),
        _ => false,
    }
}

/// Whether the tokens begin with a value, as far as the first token tells: there is one, and it is neither DISTINCT nor ALL.
#[tactic(auto, unfolding(crate::specs::Calls::begins_value))]
fn begins_value(tokens: &[Token]) -> bool
    ensures { result ≡ begins_value tokens.now }
{
    match tokens {
        [first, ..] => {
            !is_terminal(&first.kind, Terminal::Distinct)
                && !is_terminal(&first.kind, Terminal::All)
        }
        [] => false,
    }
}

/// The form of a call with FILTER and this argument.
#[tactic(auto, unfolding(crate::specs::Calls::filtered))]
fn filter_call<'t>(
    alloc: Global,
    at: Span,
    name: &'t [Token],
    condition: &'t [Token],
    argument: &'t [Token],
    rest: &'t [Token],
) -> Result<Option<Found<'t>>, AllocError>
    ensures { IfOk result (λ found. Finds seen found (filtered at name.now condition.now argument.now rest.now)) }
{
    if !begins_value(argument) {
        return Ok(None);
    }
    let parts = Vec::from_slice(alloc, &[name, condition, argument])?;
    Ok(Some(Found {
        form: Form::Filter,
        is_not: false,
        at,
        parts,
        rest,
    }))
}

/// The form of `COUNT ( * )` with FILTER.
fn count_all_call<'t>(
    alloc: Global,
    at: Span,
    name: &'t [Token],
    condition: &'t [Token],
    rest: &'t [Token],
) -> Result<Option<Found<'t>>, AllocError>
    ensures { IfOk result (λ found. Finds seen found (counted at name.now condition.now rest.now)) }
{
    let parts = Vec::from_slice(alloc, &[name, condition])?;
    Ok(Some(Found {
        form: Form::CountAll,
        is_not: false,
        at,
        parts,
        rest,
    }))
}

/// Whether a token is the name of an aggregate that passes over NULL.
fn is_aggregate(kind: &TokenKind) -> bool
    ensures { result ≡ is_aggregate kind.now }
{
    is_word(kind, "count") || is_word(kind, "sum") || is_word(kind, "min") || is_word(kind, "max")
}

/// `f (x) FILTER (WHERE p)`, after its name.
#[tactic(auto, unfolding(crate::specs::Calls::filter_after))]
fn filter_after<'t>(
    alloc: Global,
    is_count: bool,
    name: &'t [Token],
    tokens: &'t [Token],
) -> Result<Option<Found<'t>>, AllocError>
    ensures { IfOk result (λ found. Finds seen found (filter_after is_count name.now tokens.now)) }
{
    let Some((argument, rest)) = brackets_at(tokens) else {
        return Ok(None);
    };
    let Some((at, rest)) = filter_word(rest) else {
        return Ok(None);
    };
    let Some((inside, rest)) = brackets_at(rest) else {
        return Ok(None);
    };
    let Some(condition) = past(inside, Terminal::Where) else {
        return Ok(None);
    };
    if is_count && is_all(argument) {
        count_all_call(alloc, at, name, condition, rest)
    } else if is_all(argument) {
        Ok(None)
    } else {
        filter_call(alloc, at, name, condition, argument, rest)
    }
}

/// Whether the tokens begin with the arms of a CASE, without an operand.
#[tactic(auto, unfolding(crate::specs::Calls::begins_arms))]
fn begins_arms(tokens: &[Token]) -> bool
    ensures { result ≡ begins_arms tokens.now }
{
    match tokens {
        [first, ..] => is_terminal(&first.kind, Terminal::When),
        [] => true,
    }
}

/// `CASE x WHEN a THEN r .. END`, from CASE on.
#[tactic(auto, unfolding(crate::specs::Calls::case_after))]
fn case_after<'t>(
    alloc: Global,
    at: Span,
    tokens: &'t [Token],
) -> Result<Option<Found<'t>>, AllocError>
    ensures { IfOk result (λ found. Finds seen found (case_after at tokens.now)) }
{
    let Some((inside, rest)) = nest_at(tokens) else {
        return Ok(None);
    };
    if begins_arms(inside) {
        return Ok(None);
    }
    let parts = parts_of(alloc, Terminal::When, Terminal::Then, inside)?;
    if parts.len() < 3 || parts.len() % 2 == 0 {
        return Ok(None);
    }
    Ok(Some(Found {
        form: Form::SimpleCase,
        is_not: false,
        at,
        parts,
        rest,
    }))
}

/// A call with this name that is an abbreviation or has FILTER.
#[tactic(auto, unfolding(crate::specs::Calls::named_call))]
fn named_call<'t>(
    alloc: Global,
    first: &Token,
    name: &'t [Token],
    tokens: &'t [Token],
) -> Result<Option<Found<'t>>, AllocError>
    ensures { IfOk result (λ found. Finds seen found (named_call first.now name.now tokens.now)) }
{
    if is_word(&first.kind, "coalesce") {
        coalesce_after(alloc, first.span, tokens)
    } else if is_word(&first.kind, "nullif") {
        null_if_after(alloc, first.span, tokens)
    } else if is_aggregate(&first.kind) {
        filter_after(alloc, is_word(&first.kind, "count"), name, tokens)
    } else {
        Ok(None)
    }
}

/// A call or a CASE that begins here and is written by an equation.
#[tactic(auto, unfolding(crate::specs::Calls::call_at))]
pub fn call_at<'t>(alloc: Global, tokens: &'t [Token]) -> Result<Option<Found<'t>>, AllocError>
    ensures { IfOk result (λ found. Finds seen found (call_at tokens.now)) }
{
    let [first, rest @ ..] = tokens else {
        return Ok(None);
    };
    if is_terminal(&first.kind, Terminal::Case) {
        case_after(alloc, first.span, tokens)
    } else {
        named_call(alloc, first, tokens.split_at(1).0, rest)
    }
}
