//! Operands outside of comparisons that count a moment or a decimal: items of a select list, keys and their frames, and arguments.

ghost use Rattle.std.specs.Prelude.{◌≡◌, ◌≤◌, length};
ghost use Rattle.wd_operands.specs.Given.{Finds};
ghost use Rattle.wd_amounts.specs.Seen.{known_seen};
ghost use Rattle.wd_moments.specs.Items as spec;
ghost use Rattle.wd_moments.specs.Seen.{item_seen};

use wd_amounts::{KnownNames, unit_of};
use wd_clashes::begins_side;
use wd_lex::{Terminal, Token, TokenKind};
use wd_operands::operand_at;
use wd_units::{Stop, Unit, amount_at, begins_item, is_comparison, numeral_at, part_length};

/// What may begin at a token.
#[derive(Clone, Copy)]
pub enum Start {
    Elsewhere,
    /// The left side of a comparison.
    AtSide,
    /// The left side of a comparison, or an item of a list.
    AtItem,
}

/// An operand, perhaps with a frame after it, what it counts, and the tokens after it.
#[derive(Clone, Copy)]
pub struct Item<'t> {
    pub operand: &'t [Token],
    pub unit: Unit,
    pub rest: &'t [Token],
}

/// What may begin after a token.
pub fn start_after(kind: &TokenKind) -> Start
    ensures { result ≡ spec.start_after kind.now }
{
    if begins_item(kind) {
        Start::AtItem
    } else if begins_side(kind) {
        Start::AtSide
    } else {
        Start::Elsewhere
    }
}

pub fn is_item(start: Start) -> bool
    ensures { result ≡ spec.is_item start }
{
    matches!(start, Start::AtItem)
}

pub fn is_side(start: Start) -> bool
    ensures { result ≡ spec.is_side start }
{
    !matches!(start, Start::Elsewhere)
}

/// Whether the token is the word of a field, which shortens an interval before it.
fn is_field(kind: &TokenKind) -> bool
    ensures { result ≡ spec.is_field kind.now }
{
    match kind {
        TokenKind::Word(text) => {
            let text = text.as_str();
            text == "year"
                || text == "month"
                || text == "day"
                || text == "hour"
                || text == "minute"
                || text == "second"
        }
        _ => false,
    }
}

/// Whether neither the sign of a comparison nor a field follows.
#[tactic(auto, unfolding(crate::specs::Items::ends_item))]
fn ends_item(tokens: &[Token]) -> bool
    ensures { result ≡ spec.ends_item tokens.now }
{
    match tokens {
        [first, ..] => !is_comparison(&first.kind) && !is_field(&first.kind),
        [] => true,
    }
}

/// Whether a literal of a moment or a span is among tokens.
#[tactic(auto, unfolding(crate::specs::Items::holds_amount))]
fn holds_amount(tokens: &[Token]) -> bool
    ensures { result ≡ spec.holds_amount tokens.now }
{
    let mut rest = tokens;
    while let [_, after @ ..] = rest {
        if amount_at(rest).is_some() {
            return true;
        }
        rest = after;
    }
    false
}

/// Whether a number is among tokens, with a point or not.
#[tactic(auto, unfolding(crate::specs::Items::holds_number))]
fn holds_number(tokens: &[Token]) -> bool
    ensures { result ≡ spec.holds_number tokens.now }
{
    let mut rest = tokens;
    while let [first, after @ ..] = rest {
        if matches!(first.kind, TokenKind::Number(_)) || numeral_at(rest).is_some() {
            return true;
        }
        rest = after;
    }
    false
}

/// Whether an operand that counts this unit has literals to be written in the unit.
fn is_written(unit: Unit, tokens: &[Token]) -> bool
    ensures { result ≡ spec.is_written unit tokens.now }
{
    match unit {
        Unit::Days | Unit::Microseconds => holds_amount(tokens),
        Unit::Decimal(_) => holds_number(tokens),
        _ => false,
    }
}

/// Whether RANGE is among tokens.
#[tactic(auto, unfolding(crate::specs::Items::holds_range))]
fn holds_range(tokens: &[Token]) -> bool
    ensures { result ≡ spec.holds_range tokens.now }
{
    let mut rest = tokens;
    while let [first, after @ ..] = rest {
        if matches!(first.kind, TokenKind::Terminal(Terminal::Range)) {
            return true;
        }
        rest = after;
    }
    false
}

/// How many tokens after a key are its frame, if that is in RANGE.
#[tactic(auto, unfolding(crate::specs::Items::frame_length))]
fn frame_length(tokens: &[Token]) -> usize
    ensures value { result ≡ spec.frame_length tokens.now }
    ensures within { result ≤ length tokens.now }
{
    let count = part_length(Stop::Frame, tokens);
    let (frame, _) = tokens.split_at(count);
    if holds_range(frame) { count } else { 0 }
}

/// The given number of tokens as an item that counts this unit, if it has literals to be written in the unit.
fn item_of<'t>(unit: Option<Unit>, tokens: &'t [Token], count: usize) -> Option<Item<'t>>
    requires { count ≤ length tokens.now }
    ensures { Finds item_seen result (spec.item_by unit tokens.now count) }
{
    let (operand, rest) = tokens.split_at(count);
    match unit {
        Some(unit) if ends_item(rest) && is_written(unit, operand) => Some(Item {
            operand,
            unit,
            rest,
        }),
        _ => None,
    }
}

/// The operand at the start and its frame, if it counts a moment or a decimal, and literals or numbers are in them.
#[tactic(auto, unfolding(crate::specs::Items::item_at))]
pub fn item_at<'t>(known: &KnownNames<Unit>, tokens: &'t [Token]) -> Option<Item<'t>>
    ensures { Finds item_seen result (spec.item_at (known_seen known.now) tokens.now) }
{
    let Some((operand, rest)) = operand_at(tokens) else {
        return None;
    };
    item_of(
        unit_of(known, operand),
        tokens,
        operand.len() + frame_length(rest),
    )
}
