//! Numbers in place of the literals of moments.

ghost use Rattle.std.specs.Prelude.{◌≡◌, ◌≤◌, length, Some, IfOk};
ghost use Rattle.wd_units.specs.Amounts as amounts;
ghost use Rattle.wd_moments.specs.Given.{Adds, most_tokens};
ghost use Rattle.wd_moments.specs.Literals as spec;
ghost use Rattle.wd_moments.specs.Literals.{by_amount, by_days, by_number, first_written};

use crate::error::MomentError;
use crate::write::{push_copy, push_mark, push_number};
use wd_lex::{Span, Terminal, Token};
use wd_units::{Amount, Unit, amount_at, number_said};

/// The microseconds of a day.
pub const DAY: u64 = 86_400_000_000;

/// Writes a number, a negative one in brackets.
#[tactic(auto, unfolding(crate::specs::Literals::number_tokens))]
fn push_signed(out: &mut Vec<Token>, at: Span, number: i64) -> Result<(), MomentError>
    requires { length out.old.items ≤ most_tokens }
    ensures { Adds result out.old.items out.new.items (spec.number_tokens at number) }
{
    if number < 0 {
        push_negative(out, at, number.unsigned_abs())
    } else {
        push_number(out, at, number.unsigned_abs())
    }
}

/// Writes a negative number in brackets.
fn push_negative(out: &mut Vec<Token>, at: Span, number: u64) -> Result<(), MomentError>
    requires { length out.old.items ≤ most_tokens }
    ensures { Adds result out.old.items out.new.items (spec.negative_tokens at number) }
{
    push_mark(out, at, Terminal::LeftBracket)?;
    push_mark(out, at, Terminal::Minus)?;
    push_number(out, at, number)?;
    push_mark(out, at, Terminal::RightBracket)
}

/// Writes a token where no literal of a type begins.
fn push_token(out: &mut Vec<Token>, unit: Unit, token: &Token) -> Result<(), MomentError>
    requires { length out.old.items ≤ most_tokens }
    ensures { Adds result out.old.items out.new.items (by_number token.now (amounts.number_said unit token.now.kind)).0 }
{
    match number_said(unit, &token.kind) {
        Some(number) => push_signed(out, token.span, number),
        None => push_copy(out, token),
    }
}

/// The number of whole days in the microseconds.
fn days_in(number: i64) -> Option<u64>
    ensures { result ≡ spec.days_in number }
{
    if number < 0 || number.unsigned_abs() % DAY != 0 {
        None
    } else {
        Some(number.unsigned_abs() / DAY)
    }
}

/// Writes a literal; the result is whether it takes two tokens. A span beside days is written as a number of days, if that is whole.
fn push_amount(
    out: &mut Vec<Token>,
    unit: Unit,
    token: &Token,
    amount: Amount,
) -> Result<bool, MomentError>
    requires { length out.old.items ≤ most_tokens }
    ensures added { Adds result out.old.items out.new.items (by_amount unit token.now (Some amount)).0 }
    ensures pair { IfOk result (λ is_pair. is_pair ≡ (by_amount unit token.now (Some amount)).1) }
{
    match (unit, amount.unit) {
        (Unit::Days, Unit::Span) => push_days(out, token, days_in(amount.number)),
        _ => {
            push_signed(out, token.span, amount.number)?;
            Ok(true)
        }
    }
}

/// Writes a number of days, if it is known.
fn push_days(out: &mut Vec<Token>, token: &Token, days: Option<u64>) -> Result<bool, MomentError>
    requires { length out.old.items ≤ most_tokens }
    ensures added { Adds result out.old.items out.new.items (by_days token.now days).0 }
    ensures pair { IfOk result (λ is_pair. is_pair ≡ (by_days token.now days).1) }
{
    match days {
        Some(days) => {
            push_number(out, token.span, days)?;
            Ok(true)
        }
        None => {
            push_copy(out, token)?;
            Ok(false)
        }
    }
}

/// Writes what replaces the first token, or the first two; the result is whether it replaces two.
#[tactic(auto, unfolding(crate::specs::Literals::first_written))]
pub fn push_written(out: &mut Vec<Token>, unit: Unit, tokens: &[Token]) -> Result<bool, MomentError>
    requires { length out.old.items ≤ most_tokens }
    ensures added { Adds result out.old.items out.new.items (first_written unit tokens.now).0 }
    ensures pair { IfOk result (λ is_pair. is_pair ≡ (first_written unit tokens.now).1) }
{
    let [first, ..] = tokens else {
        return Ok(false);
    };
    match amount_at(tokens) {
        Some(amount) => push_amount(out, unit, first, amount),
        None => {
            push_token(out, unit, first)?;
            Ok(false)
        }
    }
}
