//! Numbers beside decimals, written as units of their last place.

ghost use Rattle.std.specs.Prelude.{◌≡◌, ◌∷◌, [], ◌≤◌, ◌+◌, length, true, IfOk};
ghost use Rattle.wd_moments.specs.Given.{Adds, most_tokens};
ghost use Rattle.wd_moments.specs.Decimals as spec;
ghost use Rattle.wd_moments.specs.Decimals.{depth_of, first_in_units, token_in_units};

use crate::error::MomentError;
use crate::write::{push_copy, push_number};
use wd_lex::{Terminal, Token, TokenKind};
use wd_operands::is_sign;
use wd_units::{Numeral, depth_after, numeral_at};

/// The place of a token in an operand.
#[derive(Clone, Copy)]
pub enum Stand {
    /// At the beginning of a term.
    Term,
    /// After a star.
    Factor,
    /// Elsewhere.
    Other,
    /// In a call's number of rows, within this many open brackets of it.
    Within(usize),
}

/// A whole number in units of the last place; `None` where 64 bits with a sign don't hold it.
fn units_of(scale: u64, number: u64) -> Option<u64>
    ensures { result ≡ spec.units_of scale number }
{
    let mut units = number;
    for _ in 0..scale {
        if units >= 922_337_203_685_477_581 {
            return None;
        }
        units *= 10;
    }
    Some(units)
}

fn within(depth: usize) -> Stand
    ensures { result ≡ spec.within depth }
{
    if depth == 0 {
        Stand::Other
    } else {
        Stand::Within(depth)
    }
}

fn is_comma(kind: &TokenKind) -> bool
    ensures { result ≡ spec.is_comma kind.now }
{
    matches!(kind, TokenKind::Terminal(Terminal::Comma))
}

/// Whether the bounds of a frame begin after the token.
fn begins_bounds(kind: &TokenKind) -> bool
    ensures { result ≡ spec.begins_bounds kind.now }
{
    match kind {
        TokenKind::Word(text) => text.as_str() == "between",
        _ => false,
    }
}

fn stand_by(kind: &TokenKind) -> Stand
    ensures value { result ≡ spec.stand_by kind.now }
    ensures within { depth_of result ≤ 1 }
{
    match kind {
        TokenKind::Terminal(
            Terminal::LeftBracket
            | Terminal::Plus
            | Terminal::Minus
            | Terminal::Then
            | Terminal::Else
            | Terminal::Range
            | Terminal::And,
        ) => Stand::Term,
        TokenKind::Terminal(Terminal::Star) => Stand::Factor,
        TokenKind::Terminal(Terminal::Comma) => Stand::Within(1),
        _ => if begins_bounds(kind) {
            Stand::Term
        } else {
            Stand::Other
        },
    }
}

/// The place of the token after this one.
pub fn stand_after(stand: Stand, kind: &TokenKind) -> Stand
    requires { depth_of stand ≤ 9223372036854775807 }
    ensures value { result ≡ spec.stand_after stand kind.now }
    ensures within { depth_of result ≤ depth_of stand + 1 }
{
    match stand {
        Stand::Within(depth) => if depth == 1 && is_comma(kind) {
            Stand::Term
        } else {
            within(depth_after(depth, kind))
        },
        Stand::Factor if is_sign(kind) => Stand::Factor,
        _ => stand_by(kind),
    }
}

/// The place of the token after a part that is written on its own.
pub fn beyond(stand: Stand) -> Stand
    ensures value { result ≡ spec.beyond stand }
    ensures within { depth_of result ≤ depth_of stand }
{
    match stand {
        Stand::Within(depth) => Stand::Within(depth),
        _ => Stand::Other,
    }
}

fn is_term(stand: Stand) -> bool
    ensures { result ≡ spec.is_term stand }
{
    matches!(stand, Stand::Term)
}

/// The units, or the first number that 64 bits with a sign do not hold, which the profile refuses.
fn or_past(units: Option<u64>) -> u64
    ensures { result ≡ spec.or_past units }
{
    match units {
        Some(units) => units,
        None => 9_223_372_036_854_775_808,
    }
}

/// Writes a token; a number is written in units.
fn push_units(out: &mut Vec<Token>, scale: u64, token: &Token) -> Result<(), MomentError>
    requires { length out.old.items ≤ most_tokens }
    ensures { Adds result out.old.items out.new.items (token_in_units scale true token.now ∷ []) }
{
    match &token.kind {
        TokenKind::Number(number) => {
            push_number(out, token.span, or_past(units_of(scale, *number)))
        }
        _ => push_copy(out, token),
    }
}

/// Writes a token; a number that is a term is written in units.
fn push_token(
    out: &mut Vec<Token>,
    scale: u64,
    is_term: bool,
    token: &Token,
) -> Result<(), MomentError>
    requires { length out.old.items ≤ most_tokens }
    ensures { Adds result out.old.items out.new.items (token_in_units scale is_term token.now ∷ []) }
{
    if is_term {
        push_units(out, scale, token)
    } else {
        push_copy(out, token)
    }
}

/// A number with a point in units of the last place of the scale; `None` where it has more places than these.
#[tactic(auto, unfolding(crate::specs::Decimals::numeral_units))]
fn numeral_units(scale: u64, numeral: Numeral) -> Option<u64>
    ensures { result ≡ spec.numeral_units scale numeral }
{
    if numeral.places <= scale {
        Some(or_past(units_of(scale - numeral.places, numeral.number)))
    } else {
        None
    }
}

/// The number with a point at the start in units, if it is a term.
#[tactic(auto, unfolding(crate::specs::Decimals::term_units))]
fn term_units(scale: u64, stand: Stand, tokens: &[Token]) -> Option<u64>
    ensures { result ≡ spec.term_units scale stand tokens.now }
{
    let numeral = numeral_at(tokens)?;
    if is_term(stand) {
        numeral_units(scale, numeral)
    } else {
        None
    }
}

/// Writes what replaces the first token, or the first two; the result is whether it replaces two.
#[tactic(auto, unfolding(crate::specs::Decimals::first_in_units))]
pub fn push_in_units(
    out: &mut Vec<Token>,
    scale: u64,
    stand: Stand,
    tokens: &[Token],
) -> Result<bool, MomentError>
    requires { length out.old.items ≤ most_tokens }
    ensures added { Adds result out.old.items out.new.items (first_in_units scale stand tokens.now).0 }
    ensures pair { IfOk result (λ is_pair. is_pair ≡ (first_in_units scale stand tokens.now).1) }
{
    let [first, ..] = tokens else {
        return Ok(false);
    };
    match term_units(scale, stand, tokens) {
        Some(units) => {
            push_number(out, first.span, units)?;
            Ok(true)
        }
        None => {
            push_token(out, scale, is_term(stand), first)?;
            Ok(false)
        }
    }
}
