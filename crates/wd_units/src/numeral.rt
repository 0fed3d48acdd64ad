//! Numbers that are written with a point.

ghost use Rattle.std.specs.Prelude.{◌≡◌, ◌≤◌, drop, length};
ghost use Rattle.wd_units.specs.Numerals as spec;
ghost use Rattle.wd_units.specs.Numerals.{whole_from};

use wd_lex::{Token, TokenKind};
use wd_value::Text;

/// A number that is written with a point: so many units of the last of so many places after it.
#[derive(Clone, Copy)]
pub struct Numeral {
    pub number: u64,
    pub places: u64,
}

/// The number that digits write after those of a number.
#[tactic(auto, unfolding(crate::specs::Numerals::digits_after))]
fn digits_after(number: u64, text: &[u8]) -> Option<u64>
    ensures { result ≡ spec.digits_after number text.now }
{
    let mut so_far = number;
    let mut rest = text;
    while let [first, after @ ..] = rest {
        if !first.is_ascii_digit() || so_far >= 922_337_203_685_477_580 {
            return None;
        }
        so_far = so_far * 10 + u64::from(*first - b'0');
        rest = after;
    }
    Some(so_far)
}

/// The number of the digits before a point and those after it.
#[tactic(auto, unfolding(crate::specs::Numerals::digits_around))]
fn digits_around(whole: &[u8], fraction: &[u8]) -> Option<Numeral>
    ensures { result ≡ spec.digits_around whole.now fraction.now }
{
    if whole.is_empty() || fraction.is_empty() {
        return None;
    }
    let before = digits_after(0, whole)?;
    let number = digits_after(before, fraction)?;
    Some(Numeral {
        number,
        places: fraction.len() as u64,
    })
}

/// How many bytes stand before the first point, or before the end where there is none.
#[tactic(auto, unfolding(crate::specs::Numerals::whole_from))]
fn whole_length(text: &[u8]) -> usize
    ensures value { result ≡ whole_from 0 text.now }
    ensures within { result ≤ length text.now }
{
    let mut count = 0;
    let mut rest = text;
    while let [first, after @ ..] = rest {
        if *first == b'.' {
            return count;
        }
        count += 1;
        rest = after;
    }
    count
}

/// The bytes without the first.
fn past_point(text: &[u8]) -> &[u8]
    ensures { result.now ≡ drop 1 text.now }
{
    let (_, rest) = text.split_at(text.len().min(1));
    rest
}

/// The number that a text writes as digits, a point and digits. None where it writes none, or one whose units 64 bits may not hold.
#[tactic(auto, unfolding(crate::specs::Numerals::numeral_of))]
fn numeral_of(text: &[u8]) -> Option<Numeral>
    ensures { result ≡ spec.numeral_of text.now }
{
    let (whole, rest) = text.split_at(whole_length(text));
    digits_around(whole, past_point(rest))
}

/// What a text says after a word.
#[tactic(auto, unfolding(crate::specs::Numerals::numeral_said))]
fn numeral_said(word: &str, text: &Text) -> Option<Numeral>
    ensures { result ≡ spec.numeral_said word.now text.now }
{
    if word == "numeric" {
        numeral_of(text.as_bytes())
    } else {
        None
    }
}

/// The number with a point at the start: `NUMERIC '..'`.
#[tactic(auto, unfolding(crate::specs::Numerals::numeral_at))]
pub fn numeral_at(tokens: &[Token]) -> Option<Numeral>
    ensures { result ≡ spec.numeral_at tokens.now }
{
    match tokens {
        [
            Token {
                kind: TokenKind::Word(word),
                ..
            },
            Token {
                kind: TokenKind::Literal(text),
                ..
            },
            ..
        ] => numeral_said(word.as_str(), text),
        _ => None,
    }
}
