//! Calls and what stands in brackets, and what is left of an operand without them.

ghost use Rattle.std.specs.Prelude.{◌≡◌, ◌≤◌, drop, length, IfSome};
ghost use Rattle.wd_operands.specs.Given.{Finds};
ghost use Rattle.wd_amounts.specs.Seen.{known_seen};
ghost use Rattle.wd_amounts.specs.Terms as spec;

use crate::known::KnownNames;
use wd_lex::{Terminal, Token, TokenKind};
use wd_operands::{brackets_at, is_name, is_over, is_sign, nest_length};
use wd_units::{
    Amount, Numeral, Stop, Unit, amount_at, holds_text, is_case, is_dot, is_end, numeral_at,
    part_length,
};

fn token_unit(known: &KnownNames<Unit>, kind: &TokenKind) -> Option<Unit>
    ensures { result ≡ spec.token_unit (known_seen known.now) kind.now }
{
    match kind {
        TokenKind::Word(name) | TokenKind::Quoted(name) => known.value_named(name.as_str()),
        TokenKind::Number(_) | TokenKind::Terminal(Terminal::Null) => Some(Unit::Number(0)),
        _ => None,
    }
}

/// A name, of a table or not, or a number. Nothing, before a sign, is as 0.
#[tactic(auto, unfolding(crate::specs::Terms::column_unit))]
pub fn column_unit(known: &KnownNames<Unit>, tokens: &[Token]) -> Option<Unit>
    ensures { result ≡ spec.column_unit (known_seen known.now) tokens.now }
{
    match tokens {
        [] => Some(Unit::Number(0)),
        [only] => token_unit(known, &only.kind),
        [table, dot, column] => {
            if is_name(&table.kind) && is_dot(&dot.kind) && is_name(&column.kind) {
                token_unit(known, &column.kind)
            } else {
                None
            }
        }
        _ => None,
    }
}

fn unit_in(amount: Option<Amount>) -> Option<Unit>
    ensures { result ≡ spec.unit_in amount }
{
    match amount {
        Some(amount) => Some(amount.unit),
        None => None,
    }
}

fn places_in(numeral: Option<Numeral>) -> Option<Unit>
    ensures { result ≡ spec.places_in numeral }
{
    match numeral {
        Some(numeral) => Some(Unit::Number(numeral.places)),
        None => None,
    }
}

/// A literal of a moment, or a number with a point.
#[tactic(auto, unfolding(crate::specs::Terms::literal_unit))]
fn literal_unit(tokens: &[Token]) -> Option<Unit>
    ensures { result ≡ spec.literal_unit tokens.now }
{
    if tokens.len() != 2 {
        return None;
    }
    match unit_in(amount_at(tokens)) {
        Some(unit) => Some(unit),
        None => places_in(numeral_at(tokens)),
    }
}

/// Whether a call gives one of the values of its first argument.
pub fn is_picked(kind: &TokenKind) -> bool
    ensures { result ≡ spec.is_picked kind.now }
{
    match kind {
        TokenKind::Word(name) => matches!(
            name.as_str(),
            "lag" | "lead" | "first_value" | "last_value" | "nth_value" | "min" | "max"
        ),
        _ => false,
    }
}

/// Whether a call counts rows.
fn is_counted(kind: &TokenKind) -> bool
    ensures { result ≡ spec.is_counted kind.now }
{
    match kind {
        TokenKind::Word(name) => matches!(
            name.as_str(),
            "count" | "row_number" | "rank" | "dense_rank" | "ntile"
        ),
        _ => false,
    }
}

/// Whether it is a window's name, or what stands in brackets.
#[tactic(auto, unfolding(crate::specs::Terms::is_window))]
fn is_window(tokens: &[Token]) -> bool
    ensures { result ≡ spec.is_window tokens.now }
{
    match tokens {
        [] => false,
        [only] => is_name(&only.kind),
        _ => nest_length(tokens) == tokens.len(),
    }
}

/// Whether it is nothing, or OVER and a window.
#[tactic(auto, unfolding(crate::specs::Terms::ends_call))]
fn ends_call(tokens: &[Token]) -> bool
    ensures { result ≡ spec.ends_call tokens.now }
{
    match tokens {
        [] => true,
        [first, rest @ ..] => is_over(&first.kind) && is_window(rest),
    }
}

/// The arguments of a call, after its name.
#[tactic(auto, unfolding(crate::specs::Terms::arguments_of))]
fn arguments_of(tokens: &[Token]) -> Option<&[Token]>
    ensures { Finds (λ r. r.now) result (spec.arguments_of tokens.now) }
{
    let Some((arguments, rest)) = brackets_at(tokens) else {
        return None;
    };
    if ends_call(rest) {
        Some(arguments)
    } else {
        None
    }
}

/// The first argument, where no text stands in the others.
#[tactic(auto, unfolding(crate::specs::Terms::first_argument))]
fn first_argument(tokens: &[Token]) -> Option<&[Token]>
    ensures { Finds (λ r. r.now) result (spec.first_argument tokens.now) }
{
    let Some(arguments) = arguments_of(tokens) else {
        return None;
    };
    let (first, others) = arguments.split_at(part_length(Stop::Comma, arguments));
    if holds_text(others) {
        None
    } else {
        Some(first)
    }
}

/// A call that counts rows.
#[tactic(auto, unfolding(crate::specs::Terms::count_unit))]
fn count_unit(tokens: &[Token]) -> Option<Unit>
    ensures { result ≡ spec.count_unit tokens.now }
{
    let [first, rest @ ..] = tokens else {
        return None;
    };
    if !is_counted(&first.kind) {
        return None;
    }
    match arguments_of(rest) {
        Some(arguments) => if holds_text(arguments) {
            None
        } else {
            Some(Unit::Plain)
        },
        None => None,
    }
}

/// The argument of which a call gives one of the values.
#[tactic(auto, unfolding(crate::specs::Terms::picked_argument))]
pub fn picked_argument(tokens: &[Token]) -> Option<&[Token]>
    ensures { Finds (λ r. r.now) result (spec.picked_argument tokens.now) }
{
    match tokens {
        [first, rest @ ..] => if is_picked(&first.kind) {
            first_argument(rest)
        } else {
            None
        },
        [] => None,
    }
}

fn is_sum(kind: &TokenKind) -> bool
    ensures { result ≡ spec.is_sum kind.now }
{
    match kind {
        TokenKind::Word(name) => name.as_str() == "sum",
        _ => false,
    }
}

/// The argument of SUM.
#[tactic(auto, unfolding(crate::specs::Terms::summed_argument))]
pub fn summed_argument(tokens: &[Token]) -> Option<&[Token]>
    ensures { Finds (λ r. r.now) result (spec.summed_argument tokens.now) }
{
    match tokens {
        [first, rest @ ..] => if is_sum(&first.kind) {
            first_argument(rest)
        } else {
            None
        },
        [] => None,
    }
}

/// The tokens after the first comma.
#[tactic(auto, unfolding(crate::specs::Terms::past_comma))]
fn past_comma(tokens: &[Token]) -> &[Token]
    ensures { result.now ≡ spec.past_comma tokens.now }
{
    let (_, rest) = tokens.split_at(part_length(Stop::Comma, tokens));
    let (_, others) = rest.split_at(rest.len().min(1));
    others
}

/// The third argument of a call, and nothing where it has none.
#[tactic(auto, unfolding(crate::specs::Terms::default_of))]
pub fn default_of(tokens: &[Token]) -> &[Token]
    ensures { result.now ≡ spec.default_of tokens.now }
{
    let [_, rest @ ..] = tokens else {
        return &[];
    };
    match arguments_of(rest) {
        Some(arguments) => {
            let others = past_comma(past_comma(arguments));
            let (third, _) = others.split_at(part_length(Stop::Comma, others));
            third
        }
        None => &[],
    }
}

/// What stands in brackets, where nothing stands after them.
#[tactic(auto, unfolding(crate::specs::Terms::bracket_contents))]
pub fn bracket_contents(tokens: &[Token]) -> Option<&[Token]>
    ensures { Finds (λ r. r.now) result (spec.bracket_contents tokens.now) }
{
    let Some((inside, rest)) = brackets_at(tokens) else {
        return None;
    };
    if rest.is_empty() { Some(inside) } else { None }
}

/// The smaller operand that counts what this one does.
#[tactic(auto, unfolding(crate::specs::Terms::inner_operand))]
pub fn inner_operand(tokens: &[Token]) -> Option<&[Token]>
    ensures { Finds (λ r. r.now) result (spec.inner_operand tokens.now) }
{
    match bracket_contents(tokens) {
        Some(inside) => Some(inside),
        None => picked_argument(tokens),
    }
}

/// Whether it is the number of the microseconds of a day.
fn is_day(kind: &TokenKind) -> bool
    ensures { result ≡ spec.is_day kind.now }
{
    match kind {
        TokenKind::Number(number) => *number == 86_400_000_000,
        _ => false,
    }
}

fn is_slash(kind: &TokenKind) -> bool
    ensures { result ≡ spec.is_slash kind.now }
{
    matches!(kind, TokenKind::Terminal(Terminal::Slash))
}

pub fn is_star(kind: &TokenKind) -> bool
    ensures { result ≡ spec.is_star kind.now }
{
    matches!(kind, TokenKind::Terminal(Terminal::Star))
}

#[tactic(auto, unfolding(crate::specs::Terms::begins_case))]
fn begins_case(tokens: &[Token]) -> bool
    ensures { result ≡ spec.begins_case tokens.now }
{
    match tokens {
        [first, ..] => is_case(&first.kind),
        [] => false,
    }
}

/// What an operand counts by its last three tokens, where it is written as a cast.
#[tactic(auto, unfolding(crate::specs::Terms::ended_unit))]
fn ended_unit(tokens: &[Token]) -> Option<Unit>
    ensures { result ≡ spec.ended_unit tokens.now }
{
    match tokens {
        [first, second, third] => {
            if is_slash(&first.kind) && is_day(&second.kind) && is_end(&third.kind) {
                Some(Unit::Days)
            } else if is_star(&second.kind) && is_day(&third.kind) {
                Some(Unit::Microseconds)
            } else {
                None
            }
        }
        _ => None,
    }
}

fn by_end(begins_case: bool, unit: Option<Unit>) -> Option<Unit>
    ensures { result ≡ spec.by_end begins_case unit }
{
    match (begins_case, unit) {
        (true, Some(Unit::Days)) | (false, Some(Unit::Microseconds)) => unit,
        _ => None,
    }
}

/// The day of a moment and the first moment of a day, as casts are written.
#[tactic(auto, unfolding(crate::specs::Terms::cast_unit))]
fn cast_unit(tokens: &[Token]) -> Option<Unit>
    ensures { result ≡ spec.cast_unit tokens.now }
{
    let (_, last) = tokens.split_at(tokens.len().saturating_sub(3));
    by_end(begins_case(tokens), ended_unit(last))
}

/// What stands between CASE and its END, where nothing stands after them.
#[tactic(auto, unfolding(crate::specs::Terms::case_contents))]
pub fn case_contents(tokens: &[Token]) -> Option<&[Token]>
    ensures value { Finds (λ r. r.now) result (spec.case_contents tokens.now) }
    ensures within { IfSome result (λ r. length r.now ≤ length tokens.now) }
{
    if !begins_case(tokens) || nest_length(tokens) != tokens.len() || tokens.len() < 2 {
        return None;
    }
    let (_, rest) = tokens.split_at(1);
    let (inside, _) = rest.split_at(tokens.len() - 2);
    Some(inside)
}

/// What a name, a number, a literal, a call or a cast counts that has no smaller operand.
#[tactic(auto, unfolding(crate::specs::Terms::plain_unit))]
pub fn plain_unit(known: &KnownNames<Unit>, tokens: &[Token]) -> Option<Unit>
    ensures { result ≡ spec.plain_unit (known_seen known.now) tokens.now }
{
    if let Some(unit) = column_unit(known, tokens) {
        return Some(unit);
    }
    match literal_unit(tokens) {
        Some(unit) => Some(unit),
        None => match count_unit(tokens) {
            Some(unit) => Some(unit),
            None => cast_unit(tokens),
        },
    }
}

/// A factor without its sign.
#[tactic(auto, unfolding(crate::specs::Terms::past_sign))]
pub fn past_sign(tokens: &[Token]) -> &[Token]
    ensures { result.now ≡ spec.past_sign tokens.now }
{
    match tokens {
        [first, rest @ ..] if is_sign(&first.kind) => rest,
        _ => tokens,
    }
}
