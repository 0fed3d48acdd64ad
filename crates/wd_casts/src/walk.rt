//! Goes over tokens from left to right, and writes the form of each operand with casts.
//!
//! The operand of a cast is walked in turn. It is within fewer brackets than the whole, or is the operand of a CAST, and brackets are
//! followed to 64 levels, so that `walk` is called within itself at most 130 times.

ghost use Rattle.std.specs.Prelude.{◌≡◌, length, true, IfOk};
ghost use Rattle.wd_clauses.specs.Given.{Finds, Makes, Writes};
ghost use Rattle.wd_casts.specs.Equations as equations;
ghost use Rattle.wd_casts.specs.Seen.{kinds_seen, term_seen};
ghost use Rattle.wd_casts.specs.Walked as spec;
ghost use Rattle.wd_casts.specs.Walked.{step, walked};
ghost use Rattle.wd_casts.specs.Placed.{place_seen};

use crate::agreed::{KnownKinds, known_kinds};
use crate::equation::{Form, add_form, equation};
use crate::known::{Known, known_after, known_as, known_of};
use crate::term::{Cast, Term, term_at};
use std::alloc::{AllocError, Global};
use wd_clauses::{RespellError, add, add_all, copy_token};
use wd_dialect_read::Statement;
use wd_lex::{Terminal, Token, TokenKind};
use wd_operands::is_test_word;

/// An operand whose casts have equations, and what is known of it.
#[derive(Drop)]
pub struct Place<'t> {
    pub known: Known,
    pub term: Term<'t>,
}

fn is_nothing(known: Known) -> bool
    ensures { result ≡ spec.is_nothing known }
{
    matches!(known, Known::Nothing)
}

/// An operand with its casts, if each cast has an equation.
fn place_of<'t>(known: Known, term: Term<'t>) -> Option<Place<'t>>
    ensures { Finds place_seen result (spec.place_of known (term_seen term.entry)) }
{
    if term.casts.is_empty() || is_nothing(known_after(known, &term.casts)) {
        None
    } else {
        Some(Place { known, term })
    }
}

/// The operand with casts that begins here, if one may begin here.
#[tactic(auto, unfolding(crate::specs::Walked::place_at))]
fn place_at<'t>(
    alloc: Global,
    kinds: &KnownKinds,
    begins: bool,
    tokens: &'t [Token],
) -> Result<Option<Place<'t>>, AllocError>
    ensures { IfOk result (λ found. Finds place_seen found (spec.place_at (kinds_seen kinds.now) begins tokens.now)) }
{
    if !begins {
        return Ok(None);
    }
    match term_at(alloc, tokens)? {
        Some(term) => {
            let known = known_of(alloc, kinds, term.operand)?;
            Ok(place_of(known, term))
        }
        None => Ok(None),
    }
}

/// An operand with one cast written out.
fn cast_once(operand: Vec<Token>, known: Known, cast: Cast) -> Result<Vec<Token>, RespellError>
    ensures { Makes (λ x. x.items) (λ x. x) result (equations.cast_tokens cast.at operand.items (equations.equation known cast.kind)) }
{
    match equation(known, cast.kind) {
        None => Ok(operand),
        Some(Form::Same) => Ok(operand),
        Some(form) => {
            let mut written = Vec::new(*operand.allocator());
            add_form(&mut written, cast.at, &operand, form)?;
            Ok(written)
        }
    }
}

/// An operand with its casts written out, one after the other.
#[tactic(auto, unfolding(crate::specs::Walked::cast_by))]
fn cast_by(known: Known, casts: &[Cast], operand: Vec<Token>) -> Result<Vec<Token>, RespellError>
    ensures { Makes (λ x. x.items) (λ x. x) result (spec.cast_by known casts.now operand.items) }
{
    let mut known = known;
    let mut operand = operand;
    let mut rest = casts;
    while let [cast, after @ ..] = rest {
        operand = cast_once(operand, known, *cast)?;
        known = known_as(known, cast.kind);
        rest = after;
    }
    Ok(operand)
}

/// Whether an operand may begin after a token.
fn begins_after(kind: &TokenKind) -> bool
    ensures { result ≡ spec.begins_after kind.now }
{
    match kind {
        TokenKind::Word(text) => is_test_word(text.as_str()),
        TokenKind::Quoted(_) | TokenKind::Literal(_) | TokenKind::Number(_) => false,
        TokenKind::Terminal(terminal) => !matches!(
            terminal,
            Terminal::RightBracket
                | Terminal::End
                | Terminal::Dot
                | Terminal::Over
                | Terminal::Null
                | Terminal::True
                | Terminal::False
        ),
    }
}

/// Writes an operand without the casts in it, and then its own casts.
#[cycle(walk)]
fn add_place(
    written: &mut Vec<Token>,
    kinds: &KnownKinds,
    turns: usize,
    place: &Place,
) -> Result<(), RespellError>
    ensures { Writes written.old.items written.new.items result (spec.cast_by place.now.known place.now.term.casts.items (walked (kinds_seen kinds.now) turns true place.now.term.operand.now)) }
{
    let mut operand = Vec::new(*written.allocator());
    walk(&mut operand, kinds, turns, true, place.term.operand)?;
    let cast = cast_by(place.known, &place.term.casts, operand)?;
    add_all(written, &cast)
}

/// Writes the replacement of what begins here. Returns whether an operand may begin after it, and the tokens from there on.
#[tactic(auto, unfolding(crate::specs::Walked::step))]
#[cycle(walk)]
fn step<'t>(
    written: &mut Vec<Token>,
    kinds: &KnownKinds,
    turns: usize,
    begins: bool,
    tokens: &'t [Token],
) -> Result<(bool, &'t [Token]), RespellError>
    ensures added { Writes written.old.items written.new.items result (step (walked (kinds_seen kinds.now) turns true) (kinds_seen kinds.now) begins tokens.now).0 }
    ensures next { IfOk result (λ x. x.0 ≡ (step (walked (kinds_seen kinds.now) turns true) (kinds_seen kinds.now) begins tokens.now).1) }
    ensures rest { IfOk result (λ x. x.1.now ≡ (step (walked (kinds_seen kinds.now) turns true) (kinds_seen kinds.now) begins tokens.now).2) }
{
    if let Some(place) = place_at(*written.allocator(), kinds, begins, tokens)? {
        add_place(written, kinds, turns, &place)?;
        return Ok((false, place.term.rest));
    }
    match tokens {
        [first, rest @ ..] => {
            add(written, copy_token(first)?)?;
            Ok((begins_after(&first.kind), rest))
        }
        [] => Ok((false, tokens)),
    }
}

/// Writes tokens with their casts written out.
#[cycle(walk)]
fn walk(
    written: &mut Vec<Token>,
    kinds: &KnownKinds,
    turns: usize,
    from: bool,
    tokens: &[Token],
) -> Result<(), RespellError>
    ensures { Writes written.old.items written.new.items result (walked (kinds_seen kinds.now) turns from tokens.now) }
{
    let mut begins = from;
    let mut rest = tokens;
    for turn in 0..turns {
        if rest.is_empty() {
            return Ok(());
        }
        let (next, following) = step(written, kinds, turns - 1 - turn, begins, rest)?;
        begins = next;
        rest = following;
    }
    Ok(())
}

/// The tokens with their casts written out, where this is known of names.
fn walk_all(alloc: Global, kinds: &KnownKinds, tokens: &[Token]) -> Result<Vec<Token>, RespellError>
    ensures { Makes (λ x. x.items) (λ x. x) result (walked (kinds_seen kinds.now) (length tokens.now) true tokens.now) }
{
    let mut written = Vec::new(alloc);
    walk(&mut written, kinds, tokens.len(), true, tokens)?;
    Ok(written)
}

/// The tokens of a masked query without its casts, as far as their equations are known by the statements that make its schema: a cast
/// that keeps the value is left out, a text gets the word of its type, and a moment becomes its day or a day its first moment. What is
/// added has the place of the cast's `::` or CAST. The error is `TooLong` where the result has more than 65,536 tokens.
#[tactic(auto, unfolding(crate::specs::Walked::without_casts))]
pub fn without_casts(
    alloc: Global,
    statements: &[Statement],
    tokens: &[Token],
) -> Result<Vec<Token>, RespellError>
    ensures { Makes (λ x. x.items) (λ x. x) result (spec.without_casts statements.now tokens.now) }
{
    match known_kinds(alloc, statements, tokens) {
        Ok(kinds) => walk_all(alloc, &kinds, tokens),
        Err(_) => Err(RespellError::OutOfMemory),
    }
}
