//! Operators between amounts that have no equation in whole numbers: products and quotients of decimals, and sums, comparisons, branches
//! and defaults of two units, or where it isn't clear what an operand counts.
//!
//! Each operand of a query is gone through once, with what its sum and its product count so far; of a CASE and of a call with a default
//! only the unit of the values is computed. No tree is built: an operator is found by its place among the tokens.

ghost use Rattle.std.specs.Prelude.{◌≡◌, ◌≤◌, ◌+◌, length, true};
ghost use Rattle.wd_amounts.specs.Seen.{known_seen};
ghost use Rattle.wd_clashes.specs.Unlike as spec;

use crate::comparison::{begins_side, sides_of, sign_at};
use wd_amounts::{
    KnownNames, case_contents, default_of, is_picked, is_star, past_sign, picked_argument, unit_of,
};
use wd_lex::{Token, TokenKind};
use wd_operands::{is_left_bracket, is_sign, nest_length, operand_at, primary_length};
use wd_units::{
    Stop, Unit, counts_decimal, depth_after, either, is_between_factors, is_branch, is_case,
    is_comparison, is_number, is_unclear, operation_unit, part_length, with_branch,
};

/// Why an operator is not allowed.
#[derive(Clone, Copy)]
pub enum Clash {
    /// Two decimals are multiplied.
    Product,
    /// A decimal is divided, or a decimal divides.
    Quotient,
    /// Two units are added or compared.
    Units,
}

/// An operator that is not allowed, and how many tokens come before it.
#[derive(Clone, Copy)]
pub struct Unlike {
    pub place: usize,
    pub clash: Clash,
}

/// The place of a token in an operand.
#[derive(Clone, Copy)]
pub struct Standing {
    /// How many tokens come before the token.
    pub place: usize,
    /// How many brackets are open.
    pub depth: usize,
    /// What the sum counts up to the next sign.
    pub sum: Option<Unit>,
    /// What the product counts up to the next operator.
    pub product: Option<Unit>,
    /// Whether a factor begins here, perhaps with a sign of its own.
    pub is_factor: bool,
    /// Whether the operand has neither texts nor brackets.
    pub is_simple: bool,
}

/// Whether the unit is known, and is not that of a plain number.
fn is_known(unit: Option<Unit>) -> bool
    ensures { result ≡ spec.is_known unit }
{
    match unit {
        Some(unit) => !is_number(unit),
        None => false,
    }
}

fn counts_unclear(unit: Option<Unit>) -> bool
    ensures { result ≡ spec.counts_unclear unit }
{
    match unit {
        Some(unit) => is_unclear(unit),
        None => false,
    }
}

/// Whether one operand counts a decimal, and the unit of the other is not known.
fn is_half_known(first: Option<Unit>, second: Option<Unit>) -> bool
    ensures { result ≡ spec.is_half_known first second }
{
    (counts_decimal(first) && second.is_none()) || (first.is_none() && counts_decimal(second))
}

/// Whether two operands together count nothing, or an unclear unit.
fn are_apart(
    is_simple: bool,
    first: Option<Unit>,
    second: Option<Unit>,
    together: Option<Unit>,
) -> bool
    ensures { result ≡ spec.are_apart is_simple first second together }
{
    match together {
        Some(unit) => is_unclear(unit),
        None => {
            (is_known(first) && is_known(second)) || (is_simple && is_half_known(first, second))
        }
    }
}

/// Whether two operands can't be compared.
fn are_unlike(is_simple: bool, first: Option<Unit>, second: Option<Unit>) -> bool
    ensures { result ≡ spec.are_unlike is_simple first second }
{
    match (first, second) {
        (Some(first), Some(second)) => {
            is_unclear(first)
                || is_unclear(second)
                || (!is_number(first) && !is_number(second) && sides_of(first, second).is_none())
        }
        _ => is_simple && is_half_known(first, second),
    }
}

/// Whether the token is a text, a bracket or CASE.
fn opens(kind: &TokenKind) -> bool
    ensures { result ≡ spec.opens kind.now }
{
    match kind {
        TokenKind::Literal(_) => true,
        _ => is_left_bracket(kind) || is_case(kind),
    }
}

/// Whether neither a text nor a bracket nor CASE is among tokens.
#[tactic(auto, unfolding(crate::specs::Unlike::is_simple))]
fn is_simple(tokens: &[Token]) -> bool
    ensures { result ≡ spec.is_simple tokens.now }
{
    let mut rest = tokens;
    while let [first, after @ ..] = rest {
        if opens(&first.kind) {
            return false;
        }
        rest = after;
    }
    true
}

fn clash_if(is_unlike: bool, clash: Clash) -> Option<Clash>
    ensures { result ≡ spec.clash_if is_unlike clash }
{
    if is_unlike { Some(clash) } else { None }
}

/// Whether a decimal is multiplied by something other than a plain number.
fn has_no_product(
    is_simple: bool,
    before: Option<Unit>,
    next: Option<Unit>,
    together: Option<Unit>,
) -> bool
    ensures { result ≡ spec.has_no_product is_simple before next together }
{
    (counts_decimal(before) || counts_decimal(next))
        && together.is_none()
        && ((is_known(before) && is_known(next)) || (is_simple && is_half_known(before, next)))
}

/// Why the operator between the product of the factors before and the next factor is not allowed.
fn clash_between(
    is_simple: bool,
    kind: &TokenKind,
    before: Option<Unit>,
    next: Option<Unit>,
) -> Option<Clash>
    ensures { result ≡ spec.clash_between is_simple kind.now before next }
{
    if !is_star(kind) {
        clash_if(
            counts_decimal(before) || counts_decimal(next),
            Clash::Quotient,
        )
    } else if counts_decimal(before) && counts_decimal(next) {
        Some(Clash::Product)
    } else {
        clash_if(
            has_no_product(is_simple, before, next, operation_unit(kind, before, next)),
            Clash::Units,
        )
    }
}

/// What the term at the start counts.
#[tactic(auto, unfolding(crate::specs::Unlike::term_ahead))]
fn term_ahead(known: &KnownNames<Unit>, tokens: &[Token]) -> Option<Unit>
    ensures { result ≡ spec.term_ahead (known_seen known.now) tokens.now }
{
    let (term, _) = tokens.split_at(part_length(Stop::Sign, tokens));
    unit_of(known, term)
}

/// What the factor at the start counts, perhaps with a sign of its own.
#[tactic(auto, unfolding(crate::specs::Unlike::factor_ahead))]
fn factor_ahead(known: &KnownNames<Unit>, tokens: &[Token]) -> Option<Unit>
    ensures { result ≡ spec.factor_ahead (known_seen known.now) tokens.now }
{
    let tokens = past_sign(tokens);
    let (factor, _) = tokens.split_at(part_length(Stop::Operator, tokens));
    unit_of(known, factor)
}

/// Why an operator outside brackets, which these tokens follow, is not allowed.
fn clash_at_operator(
    known: &KnownNames<Unit>,
    here: Standing,
    kind: &TokenKind,
    tokens: &[Token],
) -> Option<Clash>
    ensures { result ≡ spec.clash_at_operator (known_seen known.now) here kind.now tokens.now }
{
    if is_sign(kind) && !here.is_factor {
        let next = term_ahead(known, tokens);
        clash_if(
            are_apart(
                here.is_simple,
                here.sum,
                next,
                operation_unit(kind, here.sum, next),
            ),
            Clash::Units,
        )
    } else if is_between_factors(kind) {
        clash_between(
            here.is_simple,
            kind,
            here.product,
            factor_ahead(known, tokens),
        )
    } else {
        None
    }
}

fn clash_here(
    known: &KnownNames<Unit>,
    here: Standing,
    kind: &TokenKind,
    tokens: &[Token],
) -> Option<Clash>
    ensures { result ≡ spec.clash_here (known_seen known.now) here kind.now tokens.now }
{
    if here.depth == 0 {
        clash_at_operator(known, here, kind, tokens)
    } else {
        None
    }
}

/// The place of the first of these tokens, which follow this one.
fn stands_after(
    known: &KnownNames<Unit>,
    here: Standing,
    kind: &TokenKind,
    tokens: &[Token],
) -> Standing
    requires shallow { here.depth ≤ 9223372036854775807 }
    requires room { here.place ≤ 9223372036854775807 }
    ensures value { result ≡ spec.stands_after (known_seen known.now) here kind.now tokens.now }
    ensures place { result.place ≡ here.place + 1 }
    ensures within { result.depth ≤ here.depth + 1 }
{
    let place = here.place + 1;
    if here.depth == 0 && (is_sign(kind) && !here.is_factor) {
        Standing {
            place,
            depth: 0,
            sum: operation_unit(kind, here.sum, term_ahead(known, tokens)),
            product: factor_ahead(known, tokens),
            is_factor: false,
            is_simple: here.is_simple,
        }
    } else if here.depth == 0 && is_between_factors(kind) {
        Standing {
            place,
            depth: 0,
            sum: here.sum,
            product: operation_unit(kind, here.product, factor_ahead(known, tokens)),
            is_factor: true,
            is_simple: here.is_simple,
        }
    } else {
        Standing {
            place,
            depth: depth_after(here.depth, kind),
            sum: here.sum,
            product: here.product,
            is_factor: false,
            is_simple: here.is_simple,
        }
    }
}

/// The first such operator of an operand; `count` tokens come before it.
#[tactic(auto, unfolding(crate::specs::Unlike::operand_clash, crate::specs::Unlike::clash_from))]
fn operand_clash(known: &KnownNames<Unit>, count: usize, tokens: &[Token]) -> Option<Unlike>
    requires { count + length tokens.now ≤ 9223372036854775807 }
    ensures { result ≡ spec.operand_clash (known_seen known.now) count tokens.now }
{
    let mut here = Standing {
        place: count,
        depth: 0,
        sum: term_ahead(known, tokens),
        product: factor_ahead(known, tokens),
        is_factor: false,
        is_simple: is_simple(tokens),
    };
    let mut rest = tokens;
    while let [first, after @ ..] = rest {
        if let Some(clash) = clash_here(known, here, &first.kind, after) {
            return Some(Unlike {
                place: here.place,
                clash,
            });
        }
        here = stands_after(known, here, &first.kind, after);
        rest = after;
    }
    None
}

/// The sign of a comparison whose sides count two units; `count` tokens come before the left side.
fn unlike_sides(
    known: &KnownNames<Unit>,
    count: usize,
    left: &[Token],
    right: &[Token],
) -> Option<Unlike>
    requires { count + length left.now ≤ 9223372036854775807 }
    ensures { result ≡ spec.unlike_sides (known_seen known.now) count left.now right.now }
{
    if are_unlike(
        is_simple(left) && is_simple(right),
        unit_of(known, left),
        unit_of(known, right),
    ) {
        Some(Unlike {
            place: count + left.len(),
            clash: Clash::Units,
        })
    } else {
        None
    }
}

/// The sign of the comparison of a left side and the tokens after it, where its sides count two units.
#[tactic(auto, unfolding(crate::specs::Unlike::comparison_clash))]
fn comparison_clash(
    known: &KnownNames<Unit>,
    count: usize,
    left: &[Token],
    tokens: &[Token],
) -> Option<Unlike>
    requires { count + length left.now ≤ 9223372036854775807 }
    ensures { result ≡ spec.comparison_clash (known_seen known.now) count left.now tokens.now }
{
    let Some((_, rest)) = sign_at(tokens) else {
        return None;
    };
    let Some((right, _)) = operand_at(rest) else {
        return None;
    };
    unlike_sides(known, count, left, right)
}

/// The first such operator of the operand at the start, or else the sign of the comparison that the operand begins.
#[tactic(auto, unfolding(crate::specs::Unlike::clash_at))]
fn clash_at(known: &KnownNames<Unit>, count: usize, tokens: &[Token]) -> Option<Unlike>
    requires { count + length tokens.now ≤ 9223372036854775807 }
    ensures { result ≡ spec.clash_at (known_seen known.now) count tokens.now }
{
    let Some((left, rest)) = operand_at(tokens) else {
        return None;
    };
    match operand_clash(known, count, left) {
        Some(unlike) => Some(unlike),
        None => comparison_clash(known, count, left, rest),
    }
}

/// What the value or the condition at the start counts.
#[tactic(auto, unfolding(crate::specs::Unlike::branch_ahead))]
fn branch_ahead(known: &KnownNames<Unit>, tokens: &[Token]) -> Option<Unit>
    ensures { result ≡ spec.branch_ahead (known_seen known.now) tokens.now }
{
    let (branch, _) = tokens.split_at(part_length(Stop::Branch, tokens));
    unit_of(known, branch)
}

/// What the values of a CASE count up to the next branch.
fn unit_after(
    known: &KnownNames<Unit>,
    depth: usize,
    unit: Option<Unit>,
    kind: &TokenKind,
    tokens: &[Token],
) -> Option<Unit>
    ensures { result ≡ spec.unit_after (known_seen known.now) depth unit kind.now tokens.now }
{
    if depth == 0 && is_branch(kind) {
        with_branch(kind, unit, branch_ahead(known, tokens))
    } else {
        unit
    }
}

/// The first THEN or ELSE between CASE and its END after which it isn't clear what the values of the CASE count; `count` tokens come
/// before these tokens.
#[tactic(auto, unfolding(crate::specs::Unlike::branch_from))]
fn branches_clash(known: &KnownNames<Unit>, count: usize, inside: &[Token]) -> Option<Unlike>
    requires { count + length inside.now ≤ 9223372036854775807 }
    ensures { result ≡ spec.branches_clash (known_seen known.now) count inside.now }
{
    let mut place = count;
    let mut depth = 0;
    let mut unit = Some(Unit::Number(0));
    let mut rest = inside;
    while let [first, after @ ..] = rest {
        unit = unit_after(known, depth, unit, &first.kind, after);
        if counts_unclear(unit) {
            return Some(Unlike {
                place,
                clash: Clash::Units,
            });
        }
        depth = depth_after(depth, &first.kind);
        place += 1;
        rest = after;
    }
    None
}

/// The branch of the CASE at the start after which it isn't clear what its values count; `count` tokens come before the CASE.
#[tactic(auto, unfolding(crate::specs::Unlike::case_clash))]
fn case_clash(known: &KnownNames<Unit>, count: usize, tokens: &[Token]) -> Option<Unlike>
    requires { count + 1 + length tokens.now ≤ 9223372036854775807 }
    ensures { result ≡ spec.case_clash (known_seen known.now) count tokens.now }
{
    let (whole, _) = tokens.split_at(nest_length(tokens));
    match case_contents(whole) {
        Some(inside) => branches_clash(known, count + 1, inside),
        None => None,
    }
}

/// Whether it isn't clear what a value or its default counts.
fn is_mixed(known: &KnownNames<Unit>, value: &[Token], default: &[Token]) -> bool
    ensures { result ≡ spec.is_mixed (known_seen known.now) value.now default.now }
{
    !default.is_empty() && counts_unclear(either(unit_of(known, value), unit_of(known, default)))
}

/// The name of a call with such a default.
fn call_clash(known: &KnownNames<Unit>, count: usize, call: &[Token]) -> Option<Unlike>
    ensures { result ≡ spec.call_clash (known_seen known.now) count call.now }
{
    match picked_argument(call) {
        Some(value) if is_mixed(known, value, default_of(call)) => Some(Unlike {
            place: count,
            clash: Clash::Units,
        }),
        _ => None,
    }
}

/// The name of the call at the start, if it has such a default; `count` tokens come before it.
#[tactic(auto, unfolding(crate::specs::Unlike::default_clash))]
fn default_clash(known: &KnownNames<Unit>, count: usize, tokens: &[Token]) -> Option<Unlike>
    ensures { result ≡ spec.default_clash (known_seen known.now) count tokens.now }
{
    let (call, _) = tokens.split_at(primary_length(tokens));
    call_clash(known, count, call)
}

/// Whether an operand may begin after a token.
fn begins_operand(kind: &TokenKind) -> bool
    ensures { result ≡ spec.begins_operand kind.now }
{
    begins_side(kind) || is_comparison(kind)
}

/// The operator that is not allowed in the operand that begins here, if one may.
fn clash_begun(
    known: &KnownNames<Unit>,
    count: usize,
    begins: bool,
    tokens: &[Token],
) -> Option<Unlike>
    requires { count + length tokens.now ≤ 9223372036854775807 }
    ensures { result ≡ spec.clash_begun (known_seen known.now) count begins tokens.now }
{
    if begins {
        clash_at(known, count, tokens)
    } else {
        None
    }
}

/// The branch of the CASE at the start, or the call, that is not allowed.
fn clash_within(
    known: &KnownNames<Unit>,
    count: usize,
    kind: &TokenKind,
    tokens: &[Token],
) -> Option<Unlike>
    requires { count + 1 + length tokens.now ≤ 9223372036854775807 }
    ensures { result ≡ spec.clash_within (known_seen known.now) count kind.now tokens.now }
{
    if is_case(kind) {
        case_clash(known, count, tokens)
    } else if is_picked(kind) {
        default_clash(known, count, tokens)
    } else {
        None
    }
}

/// What is not allowed at the start, where `count` tokens come before and an operand may begin or not.
fn clash_first(
    known: &KnownNames<Unit>,
    count: usize,
    begins: bool,
    kind: &TokenKind,
    tokens: &[Token],
) -> Option<Unlike>
    requires { count + 1 + length tokens.now ≤ 9223372036854775807 }
    ensures { result ≡ spec.clash_first (known_seen known.now) count begins kind.now tokens.now }
{
    match clash_begun(known, count, begins, tokens) {
        Some(unlike) => Some(unlike),
        None => clash_within(known, count, kind, tokens),
    }
}

/// The first operator of a query that is not allowed.
#[tactic(auto, unfolding(crate::specs::Unlike::unlike_from))]
pub fn first_unlike(known: &KnownNames<Unit>, tokens: &[Token]) -> Option<Unlike>
    ensures { result ≡ spec.unlike_from (known_seen known.now) 0 true tokens.now }
{
    let mut count = 0;
    let mut begins = true;
    let mut rest = tokens;
    while let [first, after @ ..] = rest {
        if let Some(unlike) = clash_first(known, count, begins, &first.kind, rest) {
            return Some(unlike);
        }
        count += 1;
        begins = begins_operand(&first.kind);
        rest = after;
    }
    None
}
