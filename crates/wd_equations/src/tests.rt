//! Tests after an operand: BETWEEN, IN, and IS with DISTINCT FROM, TRUE, FALSE or UNKNOWN.

ghost use Rattle.std.specs.Prelude.{◌≡◌, ◌∷◌, map, IfOk};
ghost use Rattle.wd_operands.specs.Given.{Finds};
ghost use Rattle.wd_equations.specs.Parts.{values_of};
ghost use Rattle.wd_equations.specs.Places.{seen};
ghost use Rattle.wd_equations.specs.Tests.{among_after, begins_list, begins_query, begins_symmetry, between_after, distinct_after, is_after, is_query_word, is_test, test_after, test_at, truth_after, truth_form, word_test, word_test_at};

use crate::equation::Form;
use crate::found::{Before, Found};
use crate::split::parts_of;
use crate::tokens::{goes_on, is_terminal, is_word, past};
use std::alloc::{AllocError, Global};
use wd_lex::{Span, Terminal, Token, TokenKind};
use wd_operands::{brackets_at, operand_at};

/// Whether the tokens begin with SYMMETRIC or ASYMMETRIC.
#[tactic(auto, unfolding(crate::specs::Tests::begins_symmetry))]
fn begins_symmetry(tokens: &[Token]) -> bool
    ensures { result ≡ begins_symmetry tokens.now }
{
    match tokens {
        [first, ..] => is_word(&first.kind, "symmetric") || is_word(&first.kind, "asymmetric"),
        [] => false,
    }
}

/// `x [NOT] BETWEEN a AND b`, after BETWEEN.
#[tactic(auto, unfolding(crate::specs::Tests::between_after))]
fn between_after<'t>(
    alloc: Global,
    is_not: bool,
    at: Span,
    tested: &'t [Token],
    tokens: &'t [Token],
) -> Result<Option<Found<'t>>, AllocError>
    ensures { IfOk result (λ found. Finds seen found (between_after is_not at tested.now tokens.now)) }
{
    if begins_symmetry(tokens) {
        return Ok(None);
    }
    let Some((low, rest)) = operand_at(tokens) else {
        return Ok(None);
    };
    let Some(rest) = past(rest, Terminal::And) else {
        return Ok(None);
    };
    match operand_at(rest) {
        Some((high, rest)) => {
            let parts = Vec::from_slice(alloc, &[tested, low, high])?;
            Ok(Some(Found {
                form: Form::Between,
                is_not,
                at,
                parts,
                rest,
            }))
        }
        None => Ok(None),
    }
}

/// Whether a query begins with a token.
fn is_query_word(kind: &TokenKind) -> bool
    ensures { result ≡ is_query_word kind.now }
{
    match kind {
        TokenKind::Terminal(Terminal::Select | Terminal::With | Terminal::Table) => true,
        TokenKind::Word(text) => text.as_str() == "values",
        _ => false,
    }
}

/// Whether the tokens begin with a query, in brackets or not.
#[tactic(auto, unfolding(crate::specs::Tests::begins_query))]
fn begins_query(tokens: &[Token]) -> bool
    ensures { result ≡ begins_query tokens.now }
{
    let mut rest = tokens;
    while let [first, after @ ..] = rest {
        if !is_terminal(&first.kind, Terminal::LeftBracket) {
            return is_query_word(&first.kind);
        }
        rest = after;
    }
    false
}

/// Whether the tokens begin with a list of values that is not a query.
#[tactic(auto, unfolding(crate::specs::Tests::begins_list))]
fn begins_list(tokens: &[Token]) -> bool
    ensures { result ≡ begins_list tokens.now }
{
    match tokens {
        [_, ..] => !begins_query(tokens),
        [] => false,
    }
}

/// What is tested, and the values of a list.
fn parts_among<'t>(
    alloc: Global,
    tested: &'t [Token],
    list: &'t [Token],
) -> Result<Vec<&'t [Token]>, AllocError>
    ensures { IfOk result (λ parts. map (λ part. part.now) parts.items ≡ tested.now ∷ values_of list.now) }
{
    let mut parts = Vec::from_slice(alloc, &[tested])?;
    let values = parts_of(alloc, Terminal::Comma, Terminal::Comma, list)?;
    parts.extend_from_slice(&values)?;
    Ok(parts)
}

/// `x [NOT] IN (a, b, ..)`, after IN.
#[tactic(auto, unfolding(crate::specs::Tests::among_after))]
fn among_after<'t>(
    alloc: Global,
    is_not: bool,
    at: Span,
    tested: &'t [Token],
    tokens: &'t [Token],
) -> Result<Option<Found<'t>>, AllocError>
    ensures { IfOk result (λ found. Finds seen found (among_after is_not at tested.now tokens.now)) }
{
    let Some((list, rest)) = brackets_at(tokens) else {
        return Ok(None);
    };
    if !begins_list(list) {
        return Ok(None);
    }
    let parts = parts_among(alloc, tested, list)?;
    Ok(Some(Found {
        form: Form::Among,
        is_not,
        at,
        parts,
        rest,
    }))
}

/// BETWEEN or IN, and what follows it.
#[tactic(auto, unfolding(crate::specs::Tests::word_test))]
fn word_test<'t>(
    alloc: Global,
    is_not: bool,
    tested: &'t [Token],
    tokens: &'t [Token],
) -> Result<Option<Found<'t>>, AllocError>
    ensures { IfOk result (λ found. Finds seen found (word_test is_not tested.now tokens.now)) }
{
    let [first, rest @ ..] = tokens else {
        return Ok(None);
    };
    if is_word(&first.kind, "between") {
        between_after(alloc, is_not, first.span, tested, rest)
    } else if is_word(&first.kind, "in") {
        among_after(alloc, is_not, first.span, tested, rest)
    } else {
        Ok(None)
    }
}

/// `[NOT] BETWEEN ..` or `[NOT] IN ..`
#[tactic(auto, unfolding(crate::specs::Tests::word_test_at))]
fn word_test_at<'t>(
    alloc: Global,
    tested: &'t [Token],
    tokens: &'t [Token],
) -> Result<Option<Found<'t>>, AllocError>
    ensures { IfOk result (λ found. Finds seen found (word_test_at tested.now tokens.now)) }
{
    match past(tokens, Terminal::Not) {
        Some(rest) => word_test(alloc, true, tested, rest),
        None => word_test(alloc, false, tested, tokens),
    }
}

/// `x IS [NOT] DISTINCT FROM y`, after DISTINCT.
#[tactic(auto, unfolding(crate::specs::Tests::distinct_after))]
fn distinct_after<'t>(
    alloc: Global,
    is_not: bool,
    at: Span,
    tested: &'t [Token],
    tokens: &'t [Token],
) -> Result<Option<Found<'t>>, AllocError>
    ensures { IfOk result (λ found. Finds seen found (distinct_after is_not at tested.now tokens.now)) }
{
    let Some(rest) = past(tokens, Terminal::From) else {
        return Ok(None);
    };
    let Some((other, rest)) = operand_at(rest) else {
        return Ok(None);
    };
    if goes_on(rest) {
        return Ok(None);
    }
    let parts = Vec::from_slice(alloc, &[tested, other])?;
    Ok(Some(Found {
        form: Form::Distinct,
        is_not,
        at,
        parts,
        rest,
    }))
}

/// What a word after IS tests.
fn truth_form(kind: &TokenKind) -> Option<Form>
    ensures { result ≡ truth_form kind.now }
{
    match kind {
        TokenKind::Terminal(Terminal::True) => Some(Form::IsTrue),
        TokenKind::Terminal(Terminal::False) => Some(Form::IsFalse),
        TokenKind::Word(text) => if text.as_str() == "unknown" {
            Some(Form::IsUnknown)
        } else {
            None
        },
        _ => None,
    }
}

/// `x IS [NOT] TRUE`, and the same with FALSE and UNKNOWN, from that word on.
#[tactic(auto, unfolding(crate::specs::Tests::truth_after))]
fn truth_after<'t>(
    alloc: Global,
    is_not: bool,
    at: Span,
    tested: &'t [Token],
    tokens: &'t [Token],
) -> Result<Option<Found<'t>>, AllocError>
    ensures { IfOk result (λ found. Finds seen found (truth_after is_not at tested.now tokens.now)) }
{
    let [first, rest @ ..] = tokens else {
        return Ok(None);
    };
    let Some(form) = truth_form(&first.kind) else {
        return Ok(None);
    };
    if goes_on(rest) {
        return Ok(None);
    }
    let parts = Vec::from_slice(alloc, &[tested])?;
    Ok(Some(Found {
        form,
        is_not,
        at,
        parts,
        rest,
    }))
}

/// What follows IS, or IS NOT.
#[tactic(auto, unfolding(crate::specs::Tests::is_test))]
fn is_test<'t>(
    alloc: Global,
    is_not: bool,
    at: Span,
    tested: &'t [Token],
    tokens: &'t [Token],
) -> Result<Option<Found<'t>>, AllocError>
    ensures { IfOk result (λ found. Finds seen found (is_test is_not at tested.now tokens.now)) }
{
    match past(tokens, Terminal::Distinct) {
        Some(rest) => distinct_after(alloc, is_not, at, tested, rest),
        None => truth_after(alloc, is_not, at, tested, tokens),
    }
}

/// What follows IS.
#[tactic(auto, unfolding(crate::specs::Tests::is_after))]
fn is_after<'t>(
    alloc: Global,
    at: Span,
    tested: &'t [Token],
    tokens: &'t [Token],
) -> Result<Option<Found<'t>>, AllocError>
    ensures { IfOk result (λ found. Finds seen found (is_after at tested.now tokens.now)) }
{
    match past(tokens, Terminal::Not) {
        Some(rest) => is_test(alloc, true, at, tested, rest),
        None => is_test(alloc, false, at, tested, tokens),
    }
}

/// A test whose whole left side is this.
#[tactic(auto, unfolding(crate::specs::Tests::test_after))]
fn test_after<'t>(
    alloc: Global,
    tested: &'t [Token],
    tokens: &'t [Token],
) -> Result<Option<Found<'t>>, AllocError>
    ensures { IfOk result (λ found. Finds seen found (test_after tested.now tokens.now)) }
{
    let [first, rest @ ..] = tokens else {
        return Ok(None);
    };
    if is_terminal(&first.kind, Terminal::Is) {
        is_after(alloc, first.span, tested, rest)
    } else {
        word_test_at(alloc, tested, tokens)
    }
}

/// A test of the operand that begins here.
#[tactic(auto, unfolding(crate::specs::Tests::test_at))]
pub fn test_at<'t>(
    alloc: Global,
    before: Before,
    tokens: &'t [Token],
) -> Result<Option<Found<'t>>, AllocError>
    ensures { IfOk result (λ found. Finds seen found (test_at before tokens.now)) }
{
    if let Before::Inside = before {
        return Ok(None);
    }
    let Some((tested, rest)) = operand_at(tokens) else {
        return Ok(None);
    };
    match before {
        Before::Open => test_after(alloc, tested, rest),
        _ => word_test_at(alloc, tested, rest),
    }
}
