//! Goes over tokens from left to right, and writes numbers in place of the literals of moments and of numbers beside decimals.

ghost use Rattle.std.specs.Prelude.{◌≡◌, ◌≤◌, ◌<◌, ◌+◌, length, true, IfOk, IfErr};
ghost use Rattle.wd_moments.specs.declared.error.MomentError.{MomentError};
ghost use Rattle.wd_operands.specs.Given.{Finds};
ghost use Rattle.wd_amounts.specs.Seen.{known_seen};
ghost use Rattle.wd_moments.specs.Decimals.{depth_of};
ghost use Rattle.wd_moments.specs.Given.{Adds, most_tokens};
ghost use Rattle.wd_moments.specs.Numbered as spec;
ghost use Rattle.wd_moments.specs.Numbered.{compared, midnight_back, midnight_front, numbers_for, numbers_within, side_beside, step};
ghost use Rattle.wd_clashes.specs.Seen.{comparison_seen};
ghost use Rattle.wd_moments.specs.Seen.{item_seen};
ghost use Rattle.wd_moments.specs.Sides.{piece, side};
ghost use Rattle.wd_clashes.specs.Unlike.{unlike_from, with_word};

use crate::decimal::{Stand, beyond};
use crate::error::MomentError;
use crate::item::{Item, Start, is_item, is_side, item_at, start_after};
use crate::literal::DAY;
use crate::side::{own_length, push_one};
use crate::write::{push_copies, push_copy, push_mark, push_number};
use std::alloc::Global;
use wd_amounts::{KnownNames, known_names};
use wd_clashes::{Comparison, comparison_at, copy_with_word, first_unlike};
use wd_dialect_read::Statement;
use wd_lex::{Span, Terminal, Token};
use wd_units::{Unit, depth_after};

/// How many levels deep parts of an operand are written on their own.
const MOST_LEVELS: usize = 65;

/// Writes what opens the midnight of a day.
fn push_midnight_front(out: &mut Vec<Token>, at: Span) -> Result<(), MomentError>
    requires { length out.old.items ≤ most_tokens }
    ensures { Adds result out.old.items out.new.items (midnight_front at) }
{
    push_mark(out, at, Terminal::LeftBracket)?;
    push_mark(out, at, Terminal::LeftBracket)
}

/// Writes what closes the midnight of a day.
fn push_midnight_back(out: &mut Vec<Token>, at: Span) -> Result<(), MomentError>
    requires { length out.old.items ≤ most_tokens }
    ensures { Adds result out.old.items out.new.items (midnight_back at) }
{
    push_mark(out, at, Terminal::RightBracket)?;
    push_mark(out, at, Terminal::Star)?;
    push_number(out, at, DAY)?;
    push_mark(out, at, Terminal::RightBracket)
}

/// The comparison that begins here, if one may.
fn comparison_begun<'t>(
    known: &KnownNames<Unit>,
    start: Start,
    tokens: &'t [Token],
) -> Option<Comparison<'t>>
    ensures { Finds comparison_seen result (spec.comparison_begun (known_seen known.now) start tokens.now) }
{
    if is_side(start) {
        comparison_at(known, tokens)
    } else {
        None
    }
}

/// The item that begins here, if one may.
fn item_begun<'t>(known: &KnownNames<Unit>, start: Start, tokens: &'t [Token]) -> Option<Item<'t>>
    ensures { Finds item_seen result (spec.item_begun (known_seen known.now) start tokens.now) }
{
    if is_item(start) {
        item_at(known, tokens)
    } else {
        None
    }
}

/// Writes what replaces a literal, a token or a part that is written on its own; the result is the place of the next token, and the
/// tokens from there on.
#[cycle(push_numbered)]
fn push_piece<'t>(
    out: &mut Vec<Token>,
    known: &KnownNames<Unit>,
    levels: usize,
    unit: Unit,
    stand: Stand,
    tokens: &'t [Token],
) -> Result<(Stand, &'t [Token]), MomentError>
    requires room { length out.old.items ≤ most_tokens }
    requires shallow { depth_of stand ≤ 9223372036854775807 }
    ensures added { Adds result out.old.items out.new.items (piece (numbers_within (known_seen known.now) levels) (known_seen known.now) unit stand tokens.now).0 }
    ensures next { IfOk result (λ x. x.0 ≡ (piece (numbers_within (known_seen known.now) levels) (known_seen known.now) unit stand tokens.now).1) }
    ensures rest { IfOk result (λ x. x.1.now ≡ (piece (numbers_within (known_seen known.now) levels) (known_seen known.now) unit stand tokens.now).2) }
    ensures shallow { IfOk result (λ x. depth_of x.0 + length x.1.now ≤ depth_of stand + length tokens.now) }
{
    let own = own_length(known, unit, stand, tokens);
    if own == 0 {
        return push_one(out, unit, stand, tokens);
    }
    let (itself, rest) = tokens.split_at(own);
    push_numbered(out, known, levels, itself)?;
    Ok((beyond(stand), rest))
}

/// Writes an operand that counts a unit, with numbers of that unit.
#[cycle(push_numbered)]
fn push_side(
    out: &mut Vec<Token>,
    known: &KnownNames<Unit>,
    levels: usize,
    unit: Unit,
    tokens: &[Token],
) -> Result<(), MomentError>
    requires { length out.old.items ≤ most_tokens }
    ensures { Adds result out.old.items out.new.items (side (numbers_within (known_seen known.now) levels) (known_seen known.now) unit tokens.now) }
{
    let mut stand = Stand::Term;
    let mut rest = tokens;
    for _ in 0..tokens.len() {
        if rest.is_empty() {
            return Ok(());
        }
        let (next, following) = push_piece(out, known, levels, unit, stand, rest)?;
        stand = next;
        rest = following;
    }
    Ok(())
}

/// Writes a side of a comparison whose other side counts this unit.
#[cycle(push_numbered)]
fn push_beside(
    out: &mut Vec<Token>,
    known: &KnownNames<Unit>,
    levels: usize,
    at: Span,
    unit: Unit,
    other: Unit,
    tokens: &[Token],
) -> Result<(), MomentError>
    requires { length out.old.items ≤ most_tokens }
    ensures { Adds result out.old.items out.new.items (side_beside (numbers_within (known_seen known.now) levels) (known_seen known.now) at unit other tokens.now) }
{
    match (unit, other) {
        (Unit::Days, Unit::Microseconds) => {
            push_midnight_front(out, at)?;
            push_side(out, known, levels, Unit::Days, tokens)?;
            push_midnight_back(out, at)
        }
        _ => push_side(out, known, levels, unit, tokens),
    }
}

/// Writes a comparison with numbers of the units of its sides.
#[cycle(push_numbered)]
fn push_compared(
    out: &mut Vec<Token>,
    known: &KnownNames<Unit>,
    levels: usize,
    comparison: &Comparison,
) -> Result<(), MomentError>
    requires { length out.old.items ≤ most_tokens }
    ensures { Adds result out.old.items out.new.items (compared (numbers_within (known_seen known.now) levels) (known_seen known.now) (comparison_seen comparison.now)) }
{
    let Comparison {
        left,
        sign,
        right,
        first,
        second,
        ..
    } = *comparison;
    push_beside(out, known, levels, sign.span, first, second, left)?;
    push_copy(out, sign)?;
    push_beside(out, known, levels, sign.span, second, first, right)
}

/// Writes what replaces the comparison, item or token that begins here; the result is what may begin after it, and the tokens from there
/// on.
#[tactic(auto, unfolding(crate::specs::Numbered::step))]
#[cycle(push_numbered)]
fn push_step<'t>(
    out: &mut Vec<Token>,
    known: &KnownNames<Unit>,
    levels: usize,
    start: Start,
    tokens: &'t [Token],
) -> Result<(Start, &'t [Token]), MomentError>
    requires { length out.old.items ≤ most_tokens }
    ensures added { Adds result out.old.items out.new.items (step (numbers_within (known_seen known.now) levels) (known_seen known.now) start tokens.now).0 }
    ensures next { IfOk result (λ x. x.0 ≡ (step (numbers_within (known_seen known.now) levels) (known_seen known.now) start tokens.now).1) }
    ensures rest { IfOk result (λ x. x.1.now ≡ (step (numbers_within (known_seen known.now) levels) (known_seen known.now) start tokens.now).2) }
{
    if let Some(comparison) = comparison_begun(known, start, tokens) {
        push_compared(out, known, levels, &comparison)?;
        return Ok((Start::Elsewhere, comparison.rest));
    }
    if let Some(item) = item_begun(known, start, tokens) {
        push_side(out, known, levels, item.unit, item.operand)?;
        return Ok((Start::Elsewhere, item.rest));
    }
    match tokens {
        [first, rest @ ..] => {
            push_copy(out, first)?;
            Ok((start_after(&first.kind), rest))
        }
        [] => Ok((Start::Elsewhere, tokens)),
    }
}

/// Writes tokens with numbers beside what counts their unit. Parts within an operand are written on their own to the given number of
/// levels.
#[cycle(push_numbered)]
fn push_numbered(
    out: &mut Vec<Token>,
    known: &KnownNames<Unit>,
    levels: usize,
    tokens: &[Token],
) -> Result<(), MomentError>
    requires { length out.old.items ≤ most_tokens }
    ensures { Adds result out.old.items out.new.items (numbers_within (known_seen known.now) levels tokens.now) }
{
    if levels == 0 {
        return push_copies(out, tokens);
    }
    let mut start = Start::AtSide;
    let mut rest = tokens;
    for _ in 0..tokens.len() {
        if rest.is_empty() {
            return Ok(());
        }
        let (next, following) = push_step(out, known, levels - 1, start, rest)?;
        start = next;
        rest = following;
    }
    Ok(())
}

/// The tokens with numbers beside what counts their unit.
fn copy_with_numbers(
    alloc: Global,
    known: &KnownNames<Unit>,
    tokens: &[Token],
) -> Result<Vec<Token>, MomentError>
    ensures numbered { IfOk result (λ out. out.items ≡ numbers_for (known_seen known.now) tokens.now) }
    ensures within { IfOk result (λ out. length out.items ≤ most_tokens) }
    ensures long { IfErr result (λ e. e ≡ MomentError.TooLong → most_tokens < length (numbers_for (known_seen known.now) tokens.now)) }
{
    let mut out = Vec::new(alloc);
    push_numbered(&mut out, known, MOST_LEVELS, tokens)?;
    Ok(out)
}

/// Whether more than 64 brackets are open at once.
#[tactic(auto, unfolding(crate::specs::Numbered::is_deep))]
fn is_deep(tokens: &[Token]) -> bool
    ensures { result ≡ spec.is_deep 0 tokens.now }
{
    let mut depth = 0;
    let mut rest = tokens;
    while let [first, after @ ..] = rest {
        if depth > 64 {
            return true;
        }
        depth = depth_after(depth, &first.kind);
        rest = after;
    }
    false
}

/// Equal tokens, if there are not too many.
fn copy_tokens(alloc: Global, tokens: &[Token]) -> Result<Vec<Token>, MomentError>
    ensures same { IfOk result (λ out. out.items ≡ tokens.now) }
    ensures within { IfOk result (λ out. length out.items ≤ most_tokens) }
    ensures long { IfErr result (λ e. e ≡ MomentError.TooLong → most_tokens < length tokens.now) }
{
    let mut out = Vec::new(alloc);
    push_copies(&mut out, tokens)?;
    Ok(out)
}

/// The tokens with numbers, and with a word in place of the first operator that has no equation.
fn rewrite_amounts(
    alloc: Global,
    known: &KnownNames<Unit>,
    tokens: &[Token],
) -> Result<Vec<Token>, MomentError>
    requires { length tokens.now ≤ 9223372036854775806 }
    ensures numbered { IfOk result (λ out. out.items ≡ numbers_for (known_seen known.now) (with_word (unlike_from (known_seen known.now) 0 true tokens.now) tokens.now)) }
    ensures within { IfOk result (λ out. length out.items ≤ most_tokens) }
    ensures long { IfErr result (λ e. e ≡ MomentError.TooLong → most_tokens < length (numbers_for (known_seen known.now) (with_word (unlike_from (known_seen known.now) 0 true tokens.now) tokens.now))) }
{
    match first_unlike(known, tokens) {
        Some(unlike) => {
            let said = copy_with_word(alloc, unlike, tokens)?;
            copy_with_numbers(alloc, known, &said)
        }
        None => copy_with_numbers(alloc, known, tokens),
    }
}

/// The tokens of a query with numbers in place of the literals of moments, where they are compared with an operand that is known to count
/// the same unit: days, microseconds of a moment, or microseconds between two moments; and where an operand that counts a moment is an
/// item of its own after SELECT, DISTINCT, BY or a comma, or bounds the frame of such a key. A number has the place of the literal's
/// first word. A number that is compared with a decimal, or is a term of such a comparison or item, becomes the number of units of the
/// decimal's last place. In place of the first operator that has no equation in whole numbers, as a product of decimals, the result has a
/// word that the profile refuses. A query with more than 64 open brackets stays as it is. It refuses with `TooLong` where the result has
/// more than 65,536 tokens.
#[tactic(auto, unfolding(crate::specs::Numbered::with_numbers))]
pub fn with_numbers(
    alloc: Global,
    statements: &[Statement],
    tokens: &[Token],
) -> Result<Vec<Token>, MomentError>
    // The result is the tokens with numbers, and not too many.
    ensures numbered { IfOk result (λ out. out.items ≡ spec.with_numbers statements.now tokens.now) }
    ensures within { IfOk result (λ out. length out.items ≤ most_tokens) }

    // It refuses with `TooLong` only where the result would have too many tokens.
    ensures long { IfErr result (λ e. e ≡ MomentError.TooLong → most_tokens < length (spec.with_numbers statements.now tokens.now)) }
{
    if is_deep(tokens) {
        return copy_tokens(alloc, tokens);
    }
    let known = known_names(alloc, statements, tokens)?;
    rewrite_amounts(alloc, &known, tokens)
}
