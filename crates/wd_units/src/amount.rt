//! Literals of moments, and how much they say.

ghost use Rattle.std.specs.Prelude.{◌≡◌};
ghost use Rattle.wd_units.specs.Amounts as spec;

use crate::unit::Unit;
use wd_calendar::{day_of, interval_of, microsecond_of};
use wd_lex::{Token, TokenKind};
use wd_value::Text;

/// What a literal counts, and how much of it.
#[derive(Clone, Copy)]
pub struct Amount {
    pub unit: Unit,
    pub number: i64,
}

fn amount_of(unit: Unit, number: Option<i64>) -> Option<Amount>
    ensures { result ≡ spec.amount_of unit number }
{
    match number {
        Some(number) => Some(Amount { unit, number }),
        None => None,
    }
}

/// What a text says after a word of a type.
#[tactic(auto, unfolding(crate::specs::Amounts::amount_said))]
fn amount_said(word: &str, text: &Text) -> Option<Amount>
    ensures { result ≡ spec.amount_said word.now text.now }
{
    match word {
        "date" => amount_of(Unit::Days, day_of(text.as_bytes())),
        "timestamp" | "timestamptz" => {
            amount_of(Unit::Microseconds, microsecond_of(text.as_bytes()))
        }
        "interval" => amount_of(Unit::Span, interval_of(text.as_bytes())),
        _ => None,
    }
}

/// The literal at the start: `DATE '..'` and its like.
#[tactic(auto, unfolding(crate::specs::Amounts::amount_at))]
pub fn amount_at(tokens: &[Token]) -> Option<Amount>
    ensures { result ≡ spec.amount_at tokens.now }
{
    match tokens {
        [
            Token {
                kind: TokenKind::Word(word),
                ..
            },
            Token {
                kind: TokenKind::Literal(text),
                ..
            },
            ..
        ] => amount_said(word.as_str(), text),
        _ => None,
    }
}

/// The number that a text alone says, where it is known what it is to count.
pub fn number_said(unit: Unit, kind: &TokenKind) -> Option<i64>
    ensures { result ≡ spec.number_said unit kind.now }
{
    match (unit, kind) {
        (Unit::Days, TokenKind::Literal(text)) => day_of(text.as_bytes()),
        (Unit::Microseconds, TokenKind::Literal(text)) => microsecond_of(text.as_bytes()),
        _ => None,
    }
}
