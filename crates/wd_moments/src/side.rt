//! Parts of an operand that are written on their own, and what replaces the other tokens of an operand that counts a unit.

ghost use Rattle.std.specs.Prelude.{◌≡◌, ◌≤◌, ◌+◌, drop, length, IfOk};
ghost use Rattle.wd_amounts.specs.Seen.{known_seen};
ghost use Rattle.wd_moments.specs.Decimals.{depth_of};
ghost use Rattle.wd_moments.specs.Given.{Adds, most_tokens};
ghost use Rattle.wd_moments.specs.Sides as spec;
ghost use Rattle.wd_moments.specs.Sides.{first_by, one_piece};

use crate::decimal::{Stand, beyond, push_in_units, stand_after};
use crate::error::MomentError;
use crate::literal::push_written;
use wd_amounts::{KnownNames, is_star, unit_of};
use wd_lex::{Terminal, Token, TokenKind};
use wd_operands::{is_over, nest_length};
use wd_units::{Stop, Unit, counts_decimal, part_length};

fn is_when(kind: &TokenKind) -> bool
    ensures { result ≡ spec.is_when kind.now }
{
    matches!(kind, TokenKind::Terminal(Terminal::When))
}

fn counts_units(unit: Unit) -> bool
    ensures { result ≡ spec.counts_units unit }
{
    matches!(unit, Unit::Decimal(_))
}

fn begins_factor(stand: Stand) -> bool
    ensures { result ≡ spec.begins_factor stand }
{
    matches!(stand, Stand::Term | Stand::Factor)
}

fn is_factor(stand: Stand) -> bool
    ensures { result ≡ spec.is_factor stand }
{
    matches!(stand, Stand::Factor)
}

#[tactic(auto, unfolding(crate::specs::Sides::begins_star))]
fn begins_star(tokens: &[Token]) -> bool
    ensures { result ≡ spec.begins_star tokens.now }
{
    match tokens {
        [first, ..] => is_star(&first.kind),
        [] => false,
    }
}

/// Whether the first `count` tokens are a factor of a product, and count no decimal.
fn is_multiplier(known: &KnownNames<Unit>, stand: Stand, count: usize, tokens: &[Token]) -> bool
    requires { count ≤ length tokens.now }
    ensures { result ≡ spec.is_multiplier (known_seen known.now) stand count tokens.now }
{
    let (factor, rest) = tokens.split_at(count);
    (is_factor(stand) || begins_star(rest)) && !counts_decimal(unit_of(known, factor))
}

/// How many tokens at the start are a factor by which a decimal is multiplied.
fn multiplier_length(known: &KnownNames<Unit>, stand: Stand, tokens: &[Token]) -> usize
    ensures value { result ≡ spec.multiplier_length (known_seen known.now) stand tokens.now }
    ensures within { result ≤ length tokens.now }
{
    let count = part_length(Stop::Link, tokens);
    if is_multiplier(known, stand, count, tokens) {
        count
    } else {
        0
    }
}

/// How many tokens of an operand are written on their own from here on: WHEN and a condition, OVER and a window, or a factor by which a
/// decimal is multiplied.
#[tactic(auto, unfolding(crate::specs::Sides::own_length))]
pub fn own_length(known: &KnownNames<Unit>, unit: Unit, stand: Stand, tokens: &[Token]) -> usize
    ensures value { result ≡ spec.own_length (known_seen known.now) unit stand tokens.now }
    ensures within { result ≤ length tokens.now }
{
    let [first, rest @ ..] = tokens else {
        return 0;
    };
    if is_when(&first.kind) {
        1 + part_length(Stop::Then, rest)
    } else if is_over(&first.kind) {
        1 + nest_length(rest)
    } else if counts_units(unit) && begins_factor(stand) {
        multiplier_length(known, stand, tokens)
    } else {
        0
    }
}

/// Writes what replaces the first token, or the first two; the result is whether it replaces two.
fn push_first(
    out: &mut Vec<Token>,
    unit: Unit,
    stand: Stand,
    tokens: &[Token],
) -> Result<bool, MomentError>
    requires { length out.old.items ≤ most_tokens }
    ensures added { Adds result out.old.items out.new.items (first_by unit stand tokens.now).0 }
    ensures pair { IfOk result (λ is_pair. is_pair ≡ (first_by unit stand tokens.now).1) }
{
    match unit {
        Unit::Decimal(scale) => push_in_units(out, scale, stand, tokens),
        _ => push_written(out, unit, tokens),
    }
}

/// The tokens after the first.
fn past_first(tokens: &[Token]) -> &[Token]
    ensures { result.now ≡ drop 1 tokens.now }
{
    let (_, rest) = tokens.split_at(tokens.len().min(1));
    rest
}

/// Writes what replaces a literal or a token; the result is the place of the next token, and the tokens from there on.
#[tactic(auto, unfolding(crate::specs::Sides::one_piece))]
pub fn push_one<'t>(
    out: &mut Vec<Token>,
    unit: Unit,
    stand: Stand,
    tokens: &'t [Token],
) -> Result<(Stand, &'t [Token]), MomentError>
    requires room { length out.old.items ≤ most_tokens }
    requires shallow { depth_of stand ≤ 9223372036854775807 }
    ensures added { Adds result out.old.items out.new.items (one_piece unit stand tokens.now).0 }
    ensures next { IfOk result (λ x. x.0 ≡ (one_piece unit stand tokens.now).1) }
    ensures rest { IfOk result (λ x. x.1.now ≡ (one_piece unit stand tokens.now).2) }
    ensures shallow { IfOk result (λ x. depth_of x.0 + length x.1.now ≤ depth_of stand + length tokens.now) }
{
    let [first, rest @ ..] = tokens else {
        return Ok((stand, tokens));
    };
    if push_first(out, unit, stand, tokens)? {
        Ok((beyond(stand), past_first(rest)))
    } else {
        Ok((stand_after(stand, &first.kind), rest))
    }
}
