//! What a number counts.

ghost use Rattle.std.specs.Prelude.{◌≡◌};
ghost use Rattle.wd_units.specs.Units as spec;

use wd_dialect_read::ColumnKind;
use wd_lex::{Terminal, TokenKind};

/// What a number counts.
#[derive(Clone, Copy)]
pub enum Unit {
    /// Days from 1970-01-01 on.
    Days,
    /// Microseconds from the first of that day on.
    Microseconds,
    /// Microseconds between two moments.
    Span,
    /// Whatever else a whole number says.
    Plain,
    /// A number that is written, with so many places after the point: so many of what stands beside it.
    Number(u64),
    /// Units of the last of so many places after the point.
    Decimal(u64),
    /// Decimals, of which it isn't clear what they count: of several scales, or of one and whole numbers.
    Unclear,
}

pub fn is_same(first: Unit, second: Unit) -> bool
    ensures { result ≡ spec.is_same first second }
{
    match (first, second) {
        (Unit::Days, Unit::Days)
        | (Unit::Microseconds, Unit::Microseconds)
        | (Unit::Span, Unit::Span)
        | (Unit::Plain, Unit::Plain) => true,
        (Unit::Number(first), Unit::Number(second)) => first == second,
        (Unit::Decimal(first), Unit::Decimal(second)) => first == second,
        _ => false,
    }
}

/// What the values of a decimal count, of which 64 bits hold at least one whole one.
fn decimal_unit(scale: Option<u64>) -> Option<Unit>
    ensures { result ≡ spec.decimal_unit scale }
{
    match scale {
        Some(scale) => if scale < 19 {
            Some(Unit::Decimal(scale))
        } else {
            None
        },
        None => None,
    }
}

/// What the values of a column count.
pub fn unit_of_kind(kind: ColumnKind) -> Option<Unit>
    ensures { result ≡ spec.unit_of_kind kind }
{
    match kind {
        ColumnKind::Small | ColumnKind::Whole | ColumnKind::Big => Some(Unit::Plain),
        ColumnKind::Date => Some(Unit::Days),
        ColumnKind::Timestamp => Some(Unit::Microseconds),
        ColumnKind::Decimal(scale) => decimal_unit(scale),
        _ => None,
    }
}

pub fn is_number(unit: Unit) -> bool
    ensures { result ≡ spec.is_number unit }
{
    matches!(unit, Unit::Number(_))
}

pub fn is_unclear(unit: Unit) -> bool
    ensures { result ≡ spec.is_unclear unit }
{
    matches!(unit, Unit::Unclear)
}

/// Whether it counts units of the last place of a decimal, be it clear of which or not.
fn is_decimal(unit: Unit) -> bool
    ensures { result ≡ spec.is_decimal unit }
{
    matches!(unit, Unit::Decimal(_) | Unit::Unclear)
}

pub fn counts_decimal(unit: Option<Unit>) -> bool
    ensures { result ≡ spec.counts_decimal unit }
{
    match unit {
        Some(unit) => is_decimal(unit),
        None => false,
    }
}

/// Whether what is written as a whole number alone can say so many of these.
fn takes_numbers(unit: Unit) -> bool
    ensures { result ≡ spec.takes_numbers unit }
{
    matches!(unit, Unit::Plain | Unit::Decimal(_))
}

/// Whether a number that is written with so many places can say how much of these there is.
fn takes_places(unit: Unit, places: u64) -> bool
    ensures { result ≡ spec.takes_places unit places }
{
    match unit {
        Unit::Plain => places == 0,
        Unit::Number(others) => places <= others,
        Unit::Decimal(scale) => places <= scale,
        _ => false,
    }
}

/// Whether the second is a number that is written, which counts what the first does.
fn goes_with(first: Unit, second: Unit) -> bool
    ensures { result ≡ spec.goes_with first second }
{
    match second {
        Unit::Number(places) => takes_places(first, places),
        _ => false,
    }
}

/// What two count that are compared, or added where neither is a moment.
pub fn common_unit(first: Unit, second: Unit) -> Option<Unit>
    ensures { result ≡ spec.common_unit first second }
{
    if is_unclear(first) || is_unclear(second) {
        Some(Unit::Unclear)
    } else if is_same(first, second) {
        Some(first)
    } else if goes_with(first, second) {
        Some(first)
    } else if goes_with(second, first) {
        Some(second)
    } else {
        None
    }
}

/// What counts the one or the other.
pub fn either(first: Option<Unit>, second: Option<Unit>) -> Option<Unit>
    ensures { result ≡ spec.either first second }
{
    let both = match (first, second) {
        (Some(first), Some(second)) => common_unit(first, second),
        _ => None,
    };
    match both {
        Some(unit) => Some(unit),
        None => if counts_decimal(first) || counts_decimal(second) {
            Some(Unit::Unclear)
        } else {
            None
        },
    }
}

/// Whether it says how many of something there are.
fn counts_ones(unit: Unit) -> bool
    ensures { result ≡ spec.counts_ones unit }
{
    match unit {
        Unit::Plain => true,
        Unit::Number(places) => places == 0,
        _ => false,
    }
}

/// A day, so many days later or earlier.
fn days_by(count: Unit) -> Option<Unit>
    ensures { result ≡ spec.days_by count }
{
    if counts_ones(count) {
        Some(Unit::Days)
    } else {
        None
    }
}

fn sum_unit(first: Unit, second: Unit) -> Option<Unit>
    ensures { result ≡ spec.sum_unit first second }
{
    match (first, second) {
        (Unit::Microseconds, Unit::Span) | (Unit::Span, Unit::Microseconds) => {
            Some(Unit::Microseconds)
        }
        (Unit::Microseconds, _) => None,
        (Unit::Days, count) | (count, Unit::Days) => days_by(count),
        (first, second) => common_unit(first, second),
    }
}

fn difference_unit(first: Unit, second: Unit) -> Option<Unit>
    ensures { result ≡ spec.difference_unit first second }
{
    match (first, second) {
        (Unit::Microseconds, Unit::Microseconds) => Some(Unit::Span),
        (Unit::Microseconds, Unit::Span) => Some(Unit::Microseconds),
        (Unit::Days, Unit::Days) => Some(Unit::Plain),
        (Unit::Microseconds, _) => None,
        (Unit::Days, count) => days_by(count),
        (first, second) => common_unit(first, second),
    }
}

/// So many of what the other factor counts.
fn product_unit(first: Unit, second: Unit) -> Option<Unit>
    ensures { result ≡ spec.product_unit first second }
{
    if is_unclear(first) || is_unclear(second) {
        Some(Unit::Unclear)
    } else if counts_ones(first) && counts_ones(second) {
        Some(Unit::Plain)
    } else if counts_ones(second) && takes_numbers(first) {
        Some(first)
    } else if counts_ones(first) && takes_numbers(second) {
        Some(second)
    } else {
        None
    }
}

/// A quotient of whole numbers, or its remainder.
fn quotient_unit(first: Unit, second: Unit) -> Option<Unit>
    ensures { result ≡ spec.quotient_unit first second }
{
    if counts_ones(first) && counts_ones(second) {
        Some(Unit::Plain)
    } else {
        None
    }
}

/// What two operands come to with an operator between them.
pub fn operation_unit(sign: &TokenKind, first: Option<Unit>, second: Option<Unit>) -> Option<Unit>
    ensures { result ≡ spec.operation_unit sign.now first second }
{
    let (Some(first), Some(second)) = (first, second) else {
        return None;
    };
    match sign {
        TokenKind::Terminal(Terminal::Plus) => sum_unit(first, second),
        TokenKind::Terminal(Terminal::Minus) => difference_unit(first, second),
        TokenKind::Terminal(Terminal::Star) => product_unit(first, second),
        TokenKind::Terminal(Terminal::Slash | Terminal::Percent) => quotient_unit(first, second),
        _ => None,
    }
}

/// What the values of a CASE count: those so far, and what follows WHEN, THEN or ELSE.
pub fn with_branch(word: &TokenKind, so_far: Option<Unit>, next: Option<Unit>) -> Option<Unit>
    ensures { result ≡ spec.with_branch word.now so_far next }
{
    match word {
        TokenKind::Terminal(Terminal::When) => so_far,
        _ => either(so_far, next),
    }
}

/// What the values of an operand count: a number that is written counts ones, where it is whole.
pub fn as_value(unit: Option<Unit>) -> Option<Unit>
    ensures { result ≡ spec.as_value unit }
{
    match unit {
        Some(Unit::Number(places)) => if places == 0 { Some(Unit::Plain) } else { None },
        _ => unit,
    }
}

/// Ones, or units of a decimal.
pub fn number_alone(unit: Option<Unit>) -> Option<Unit>
    ensures { result ≡ spec.number_alone unit }
{
    match unit {
        Some(Unit::Plain | Unit::Decimal(_) | Unit::Unclear) => unit,
        _ => None,
    }
}

fn is_moment(unit: Option<Unit>) -> bool
    ensures { result ≡ spec.is_moment unit }
{
    matches!(unit, Some(Unit::Days | Unit::Microseconds | Unit::Span))
}

/// What a value counts, or a default in its place.
pub fn with_default(value: Option<Unit>, default: Option<Unit>) -> Option<Unit>
    ensures { result ≡ spec.with_default value default }
{
    if is_moment(value) {
        value
    } else {
        either(value, default)
    }
}
