//! What an operand counts.

ghost use Rattle.std.specs.Prelude.{◌≡◌, ◌≤◌};
ghost use Rattle.wd_amounts.specs.Seen.{known_seen};
ghost use Rattle.wd_amounts.specs.Terms as spec;
ghost use Rattle.wd_amounts.specs.Terms.{chain_of, unit_within};
ghost use Rattle.wd_units.specs.Units as units;
ghost use Rattle.wd_units.specs.declared.token.Stop.TheVariants.{Branch};

use crate::known::KnownNames;
use crate::term::{
    case_contents, column_unit, default_of, inner_operand, past_sign, plain_unit, summed_argument,
};
use wd_lex::Token;
use wd_units::{
    Stop, Unit, as_value, number_alone, operation_unit, part_length, with_branch, with_default,
};

/// How many brackets are followed, and the operand itself.
const MOST_DEEP: usize = 65;

/// What is no sum.
#[tactic(auto, unfolding(crate::specs::Terms::term_unit))]
#[cycle(unit_within)]
fn term_unit(known: &KnownNames<Unit>, depth: usize, tokens: &[Token]) -> Option<Unit>
    ensures { result ≡ spec.term_unit (unit_within (known_seen known.now) depth) (known_seen known.now) tokens.now }
{
    match inner_operand(tokens) {
        Some(inside) => with_default(
            unit_within(known, depth, inside),
            unit_within(known, depth, default_of(tokens)),
        ),
        None => match plain_unit(known, tokens) {
            Some(unit) => Some(unit),
            None => scaled_unit(known, depth, tokens),
        },
    }
}

/// What a CASE, a sum of numbers or a product counts.
#[tactic(auto, unfolding(crate::specs::Terms::scaled_unit))]
#[cycle(unit_within)]
fn scaled_unit(known: &KnownNames<Unit>, depth: usize, tokens: &[Token]) -> Option<Unit>
    ensures { result ≡ spec.scaled_unit (unit_within (known_seen known.now) depth) (known_seen known.now) tokens.now }
{
    match case_unit(known, depth, tokens) {
        Some(unit) => Some(unit),
        None => match summed_unit(known, depth, tokens) {
            Some(unit) => Some(unit),
            None => multiple_unit(known, depth, tokens),
        },
    }
}

/// What a sum of numbers counts.
#[cycle(unit_within)]
fn summed_unit(known: &KnownNames<Unit>, depth: usize, tokens: &[Token]) -> Option<Unit>
    ensures { result ≡ spec.summed_unit (unit_within (known_seen known.now) depth) tokens.now }
{
    match summed_argument(tokens) {
        Some(argument) => number_alone(as_value(unit_within(known, depth, argument))),
        None => None,
    }
}

/// What the values of a CASE count.
#[tactic(auto, unfolding(crate::specs::Terms::case_unit))]
#[cycle(unit_within)]
fn case_unit(known: &KnownNames<Unit>, depth: usize, tokens: &[Token]) -> Option<Unit>
    ensures { result ≡ spec.case_unit (unit_within (known_seen known.now) depth) tokens.now }
{
    match case_contents(tokens) {
        Some(inside) => branches_unit(known, depth, inside),
        None => None,
    }
}

/// What the values of a CASE count, of which this stands before its END.
#[cycle(unit_within)]
fn branches_unit(known: &KnownNames<Unit>, depth: usize, inside: &[Token]) -> Option<Unit>
    ensures { result ≡ chain_of Branch units.with_branch (unit_within (known_seen known.now) depth) inside.now }
{
    let (first, others) = inside.split_at(part_length(Stop::Branch, inside));
    let mut unit = unit_within(known, depth, first);
    let mut rest = others;
    for _ in 0..inside.len() {
        let [word, following @ ..] = rest else {
            return unit;
        };
        let (part, others) = following.split_at(part_length(Stop::Branch, following));
        unit = with_branch(&word.kind, unit, unit_within(known, depth, part));
        rest = others;
    }
    unit
}

/// What a factor counts: a name or a number, or else ones or a decimal.
#[tactic(auto, unfolding(crate::specs::Terms::factor_unit))]
#[cycle(unit_within)]
fn factor_unit(known: &KnownNames<Unit>, depth: usize, tokens: &[Token]) -> Option<Unit>
    ensures { result ≡ spec.factor_unit (unit_within (known_seen known.now) depth) (known_seen known.now) tokens.now }
{
    let name = past_sign(tokens);
    if name.is_empty() {
        return None;
    }
    match column_unit(known, name) {
        Some(unit) => Some(unit),
        None => number_alone(as_value(unit_within(known, depth, tokens))),
    }
}

/// What a product of two factors or more counts.
#[tactic(auto, unfolding(crate::specs::Terms::multiple_unit))]
#[cycle(unit_within)]
fn multiple_unit(known: &KnownNames<Unit>, depth: usize, tokens: &[Token]) -> Option<Unit>
    ensures { result ≡ spec.multiple_unit (unit_within (known_seen known.now) depth) (known_seen known.now) tokens.now }
{
    let (first, others) = tokens.split_at(part_length(Stop::Factor, tokens));
    if others.is_empty() {
        return None;
    }
    let mut unit = factor_unit(known, depth, first);
    let mut rest = others;
    for _ in 0..tokens.len() {
        let [operator, following @ ..] = rest else {
            return unit;
        };
        let (factor, others) = following.split_at(part_length(Stop::Factor, following));
        unit = operation_unit(&operator.kind, unit, factor_unit(known, depth, factor));
        rest = others;
    }
    unit
}

/// What an operand counts, looked for in so many brackets.
#[cycle(unit_within)]
fn unit_within(known: &KnownNames<Unit>, depth: usize, tokens: &[Token]) -> Option<Unit>
    ensures { result ≡ unit_within (known_seen known.now) depth tokens.now }
{
    if depth == 0 {
        return None;
    }
    let (first, others) = tokens.split_at(part_length(Stop::Sign, tokens));
    let mut unit = term_unit(known, depth - 1, first);
    let mut rest = others;
    for _ in 0..tokens.len() {
        let [sign, following @ ..] = rest else {
            return unit;
        };
        let (term, others) = following.split_at(part_length(Stop::Sign, following));
        unit = operation_unit(&sign.kind, unit, term_unit(known, depth - 1, term));
        rest = others;
    }
    unit
}

/// What an operand counts.
pub fn unit_of(known: &KnownNames<Unit>, tokens: &[Token]) -> Option<Unit>
    ensures { result ≡ spec.unit_of (known_seen known.now) tokens.now }
{
    unit_within(known, MOST_DEEP, tokens)
}
