//! Goes over tokens from left to right, and writes the right side of each equation in place of its left side.
//!
//! `walk` goes on step by step, and walks each part of an equation in turn. A part is within fewer brackets than the whole, or is a
//! smaller operand, and brackets are followed to 64 levels, so that `walk` is called within itself at most 130 times.

ghost use Rattle.std.specs.Prelude.{◌≡◌, ◌≤◌, ◌<◌, length, map, IfOk, IfErr};
ghost use Rattle.wd_equations.specs.declared.found.Before.{Before};
ghost use Rattle.wd_equations.specs.declared.error.ExpandError.{ExpandError};
ghost use Rattle.wd_equations.specs.declared.equation.Piece.{Piece};
ghost use Rattle.wd_equations.specs.Equations.{equation, stated};
ghost use Rattle.wd_operands.specs.Given.{Finds};
ghost use Rattle.wd_equations.specs.Given.{Adds, most_tokens};
ghost use Rattle.wd_equations.specs.Places.{seen};
ghost use Rattle.wd_equations.specs.Expanded.{expanded, part_tokens, piece_tokens, pieces_tokens, place_at, step, walked, written};

use crate::calls::call_at;
use crate::equation::{Piece, negate_if, pieces_of};
use crate::error::ExpandError;
use crate::found::{Before, Found, after};
use crate::tests::test_at;
use crate::write::{push, push_copy, push_mark};
use std::alloc::{AllocError, Global};
use wd_lex::{Span, Terminal, Token, TokenKind};

/// The equation that applies here, if any.
#[tactic(auto, unfolding(crate::specs::Expanded::place_at))]
fn place_at<'t>(
    alloc: Global,
    before: Before,
    tokens: &'t [Token],
) -> Result<Option<Found<'t>>, AllocError>
    ensures { IfOk result (λ found. Finds seen found (place_at before tokens.now)) }
{
    match test_at(alloc, before, tokens)? {
        Some(found) => Ok(Some(found)),
        None => call_at(alloc, tokens),
    }
}

/// The right side of an equation, as pieces.
fn right_side(alloc: Global, found: &Found) -> Result<Vec<Piece>, AllocError>
    ensures { IfOk result (λ pieces. pieces.items ≡ stated found.now.is_not (equation found.now.form (length found.now.parts.items))) }
{
    let pieces = pieces_of(alloc, found.form, found.parts.len())?;
    negate_if(alloc, found.is_not, &pieces)
}

/// Writes a part, expanded.
#[cycle(walk)]
fn push_part(
    out: &mut Vec<Token>,
    turns: usize,
    parts: &[&[Token]],
    index: usize,
) -> Result<(), ExpandError>
    requires { length out.old.items ≤ most_tokens }
    ensures { Adds result out.old.items out.new.items (part_tokens (walked turns Before.Open) (map (λ part. part.now) parts.now) index) }
{
    if index < parts.len() {
        walk(out, turns, Before::Open, parts[index])
    } else {
        Ok(())
    }
}

/// Writes a part in brackets.
#[cycle(walk)]
fn push_operand(
    out: &mut Vec<Token>,
    turns: usize,
    at: Span,
    parts: &[&[Token]],
    index: usize,
) -> Result<(), ExpandError>
    requires { length out.old.items ≤ most_tokens }
    ensures { Adds result out.old.items out.new.items (piece_tokens (walked turns Before.Open) at (map (λ part. part.now) parts.now) (Piece.Operand index)) }
{
    push_mark(out, at, Terminal::LeftBracket)?;
    push_part(out, turns, parts, index)?;
    push_mark(out, at, Terminal::RightBracket)
}

/// Writes a piece.
#[cycle(walk)]
fn push_piece(
    out: &mut Vec<Token>,
    turns: usize,
    at: Span,
    parts: &[&[Token]],
    piece: Piece,
) -> Result<(), ExpandError>
    requires { length out.old.items ≤ most_tokens }
    ensures { Adds result out.old.items out.new.items (piece_tokens (walked turns Before.Open) at (map (λ part. part.now) parts.now) piece) }
{
    match piece {
        Piece::Mark(terminal) => push_mark(out, at, terminal),
        Piece::One => push(
            out,
            Token {
                kind: TokenKind::Number(1),
                span: at,
            },
        ),
        Piece::Operand(index) => push_operand(out, turns, at, parts, index),
        Piece::Clause(index) => push_part(out, turns, parts, index),
    }
}

/// Writes pieces.
#[cycle(walk)]
fn push_pieces(
    out: &mut Vec<Token>,
    turns: usize,
    at: Span,
    parts: &[&[Token]],
    pieces: &[Piece],
) -> Result<(), ExpandError>
    requires { length out.old.items ≤ most_tokens }
    ensures { Adds result out.old.items out.new.items (pieces_tokens (walked turns Before.Open) at (map (λ part. part.now) parts.now) pieces.now) }
{
    let mut rest = pieces;
    while let [piece, following @ ..] = rest {
        push_piece(out, turns, at, parts, *piece)?;
        rest = following;
    }
    Ok(())
}

/// Writes the right side of an equation.
#[tactic(auto, unfolding(crate::specs::Expanded::written))]
#[cycle(walk)]
fn push_found(out: &mut Vec<Token>, turns: usize, found: &Found) -> Result<(), ExpandError>
    requires { length out.old.items ≤ most_tokens }
    ensures { Adds result out.old.items out.new.items (written (walked turns Before.Open) (seen found.now)) }
{
    let pieces = right_side(*out.allocator(), found)?;
    push_pieces(out, turns, found.at, &found.parts, &pieces)
}

/// Writes the replacement of what begins here. Returns what is known of the next place, and the tokens from there on.
#[tactic(auto, unfolding(crate::specs::Expanded::step))]
#[cycle(walk)]
fn step<'t>(
    out: &mut Vec<Token>,
    turns: usize,
    before: Before,
    tokens: &'t [Token],
) -> Result<(Before, &'t [Token]), ExpandError>
    requires { length out.old.items ≤ most_tokens }
    ensures added { Adds result out.old.items out.new.items (step (walked turns Before.Open) before tokens.now).0 }
    ensures next { IfOk result (λ x. x.0 ≡ (step (walked turns Before.Open) before tokens.now).1) }
    ensures rest { IfOk result (λ x. x.1.now ≡ (step (walked turns Before.Open) before tokens.now).2) }
{
    if let Some(found) = place_at(*out.allocator(), before, tokens)? {
        push_found(out, turns, &found)?;
        return Ok((Before::Inside, found.rest));
    }
    match tokens {
        [first, rest @ ..] => {
            push_copy(out, first)?;
            Ok((after(before, &first.kind), rest))
        }
        [] => Ok((before, tokens)),
    }
}

/// Writes tokens, expanded.
#[cycle(walk)]
fn walk(
    out: &mut Vec<Token>,
    turns: usize,
    from: Before,
    tokens: &[Token],
) -> Result<(), ExpandError>
    requires { length out.old.items ≤ most_tokens }
    ensures { Adds result out.old.items out.new.items (walked turns from tokens.now) }
{
    let mut before = from;
    let mut rest = tokens;
    for turn in 0..turns {
        if rest.is_empty() {
            return Ok(());
        }
        let (next, following) = step(out, turns - 1 - turn, before, rest)?;
        before = next;
        rest = following;
    }
    Ok(())
}

/// The tokens with the standard's equations applied: each test, call or CASE that has an equation is replaced by what it is defined to
/// be. A token that is added has the place of the word that the equation is about. The error is `TooLong` where the result has more
/// than 65,536 tokens; no more than these are written.
#[tactic(auto, unfolding(crate::specs::Expanded::expanded))]
pub fn expand(alloc: Global, tokens: &[Token]) -> Result<Vec<Token>, ExpandError>
    // The result is the expanded tokens, and not too many.
    ensures expanded { IfOk result (λ out. out.items ≡ expanded tokens.now) }
    ensures within { IfOk result (λ out. length out.items ≤ most_tokens) }

    // It is refused as too long only where it would be.
    ensures long { IfErr result (λ e. e ≡ ExpandError.TooLong → most_tokens < length (expanded tokens.now)) }
{
    let mut out = Vec::new(alloc);
    walk(&mut out, tokens.len(), Before::Open, tokens)?;
    Ok(out)
}
