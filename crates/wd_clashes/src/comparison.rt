//! Comparisons whose sides count one unit.

ghost use Rattle.std.specs.Prelude.{◌≡◌};
ghost use Rattle.wd_clashes.specs.Comparisons as spec;
ghost use Rattle.wd_operands.specs.Given.{Finds};
ghost use Rattle.wd_amounts.specs.Seen.{known_seen};
ghost use Rattle.wd_clashes.specs.Seen.{comparison_seen};

use wd_amounts::{KnownNames, unit_of};
use wd_lex::{Terminal, Token, TokenKind};
use wd_operands::{is_left_bracket, is_name, operand_at};
use wd_units::{Unit, common_unit, is_comparison, is_right_bracket, number_said};

/// A comparison, what its sides count, and the tokens after it.
#[derive(Clone, Copy)]
pub struct Comparison<'t> {
    pub left: &'t [Token],
    pub sign: &'t Token,
    pub right: &'t [Token],
    pub first: Unit,
    pub second: Unit,
    pub rest: &'t [Token],
}

/// Whether an operand after a token is the whole left side of a comparison.
pub fn begins_side(kind: &TokenKind) -> bool
    ensures { result ≡ spec.begins_side kind.now }
{
    matches!(
        kind,
        TokenKind::Terminal(
            Terminal::LeftBracket
                | Terminal::Comma
                | Terminal::And
                | Terminal::Or
                | Terminal::Not
                | Terminal::When
                | Terminal::Then
                | Terminal::Else
                | Terminal::Where
                | Terminal::On
                | Terminal::Having
                | Terminal::Select
                | Terminal::Distinct
                | Terminal::By,
        )
    )
}

/// Whether all tokens close brackets.
#[tactic(auto, unfolding(crate::specs::Comparisons::closes))]
fn closes(tokens: &[Token]) -> bool
    ensures { result ≡ spec.closes tokens.now }
{
    let mut rest = tokens;
    while let [first, after @ ..] = rest {
        if !is_right_bracket(&first.kind) {
            return false;
        }
        rest = after;
    }
    true
}

/// Whether the operand is only a text, in brackets or not, that denotes an amount of that unit.
#[tactic(auto, unfolding(crate::specs::Comparisons::says))]
fn says(unit: Unit, tokens: &[Token]) -> bool
    ensures { result ≡ spec.says unit tokens.now }
{
    let mut rest = tokens;
    while let [first, after @ ..] = rest {
        if !is_left_bracket(&first.kind) {
            return number_said(unit, &first.kind).is_some() && closes(after);
        }
        rest = after;
    }
    false
}

/// One unit for both sides.
fn both(unit: Option<Unit>) -> Option<(Unit, Unit)>
    ensures { result ≡ spec.both unit }
{
    match unit {
        Some(unit) => Some((unit, unit)),
        None => None,
    }
}

/// The units of sides that count these, where they can be compared.
pub fn sides_of(first: Unit, second: Unit) -> Option<(Unit, Unit)>
    ensures { result ≡ spec.sides_of first second }
{
    match (first, second) {
        (Unit::Days, Unit::Microseconds) | (Unit::Microseconds, Unit::Days) => {
            Some((first, second))
        }
        _ => both(common_unit(first, second)),
    }
}

/// The units of both sides, by what each counts.
fn common(
    first: Option<Unit>,
    second: Option<Unit>,
    left: &[Token],
    right: &[Token],
) -> Option<(Unit, Unit)>
    ensures { result ≡ spec.common first second left.now right.now }
{
    let (unit, is_said) = match (first, second) {
        (Some(first), Some(second)) => return sides_of(first, second),
        (Some(first), None) => (first, says(first, right)),
        (None, Some(second)) => (second, says(second, left)),
        (None, None) => return None,
    };
    if is_said { both(Some(unit)) } else { None }
}

/// The sign of a comparison, and the tokens after it.
#[tactic(auto, unfolding(crate::specs::Comparisons::sign_at))]
pub fn sign_at(tokens: &[Token]) -> Option<(&Token, &[Token])>
    ensures { Finds (λ x. (x.0.now, x.1.now)) result (spec.sign_at tokens.now) }
{
    match tokens {
        [first, rest @ ..] => if is_comparison(&first.kind) {
            Some((first, rest))
        } else {
            None
        },
        [] => None,
    }
}

/// Whether no name follows that would continue the last operand.
#[tactic(auto, unfolding(crate::specs::Comparisons::is_done))]
fn is_done(tokens: &[Token]) -> bool
    ensures { result ≡ spec.is_done tokens.now }
{
    match tokens {
        [first, ..] => !is_name(&first.kind),
        [] => true,
    }
}

/// The comparison at the start, if it is known what its sides count.
#[tactic(auto, unfolding(crate::specs::Comparisons::comparison_at))]
pub fn comparison_at<'t>(known: &KnownNames<Unit>, tokens: &'t [Token]) -> Option<Comparison<'t>>
    ensures { Finds comparison_seen result (spec.comparison_at (known_seen known.now) tokens.now) }
{
    let Some((left, rest)) = operand_at(tokens) else {
        return None;
    };
    let Some((sign, rest)) = sign_at(rest) else {
        return None;
    };
    let Some((right, rest)) = operand_at(rest) else {
        return None;
    };
    if !is_done(rest) {
        return None;
    }
    let (first, second) = common(unit_of(known, left), unit_of(known, right), left, right)?;
    Some(Comparison {
        left,
        sign,
        right,
        first,
        second,
        rest,
    })
}
