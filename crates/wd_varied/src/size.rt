//! The numbers of rows of the tables.

ghost use Rattle.std.specs.Prelude.{◌≡◌, ◌+◌, ◌^◌, ◌<◌, ◌≤◌, ◌||◌, ◌++◌, ◌∷◌, [], All, filter, length, min, nat_le, IfOk};
ghost use Rattle.std.specs.List.{list_any};
ghost use Rattle.wd_plan.specs.Plans.{limit_of, plan_of};
ghost use Rattle.wd_varied.specs.Literals.{literals as literals_of_plan};
ghost use Rattle.wd_varied.specs.Sizes as spec;

use crate::literals::add_literals;
use std::alloc::Global;
use wd_plan::{Limit, Plan};
use wd_value::{OutOfMemory, Value};

/// The most rows that the pairs of all tables may have.
const MOST_PAIRED: u64 = 16_384;

/// The largest number that is counted.
const MOST_COUNTED: u64 = 268_435_456;

/// The numbers of rows to try, the least first: of 2 to 64 those up to 4, and those one or two more than a literal, or than the offset
/// and count of a Limit; except for 2, only those with which the tables of a plan pair to at most 16,384 rows.
pub fn sizes(alloc: Global, plan: &Plan) -> Result<Vec<u32>, OutOfMemory>
    ensures are { IfOk result (λ v. v.items ≡ spec.sizes (plan_of plan.now)) }
    ensures some { IfOk result (λ v. 1 ≤ length v.items) }
    ensures few { IfOk result (λ v. length v.items ≤ 63) }
    ensures large { IfOk result (λ v. All (λ rows. 2 ≤ rows) v.items) }
    ensures small { IfOk result (λ v. All (λ rows. rows ≤ 64) v.items) }
{
    let mut literals = Vec::new(alloc);
    add_literals(alloc, plan, &mut literals)?;
    let mut sizes = Vec::new(alloc);
    for rows in 2..65u32 {
        add_size(plan, &literals, rows, &mut sizes)?;
    }
    Ok(sizes)
}

/// Appends a number of rows, if it is tried.
fn add_size(
    plan: &Plan,
    literals: &[Value],
    rows: u32,
    sizes: &mut Vec<u32>,
) -> Result<(), OutOfMemory>
    requires literals { literals.now ≡ literals_of_plan (plan_of plan.now) }
    requires some { 2 ≤ rows }
    requires small { rows ≤ 64 }
    ensures { IfOk result (λ _. sizes.new.items ≡ sizes.old.items ++ filter (spec.is_size (plan_of plan.now)) (rows ∷ [])) }
{
    if is_size(plan, literals, rows) {
        sizes.push(rows)?;
    }
    Ok(())
}

/// Whether a number of rows is tried.
fn is_size(plan: &Plan, literals: &[Value], rows: u32) -> bool
    requires literals { literals.now ≡ literals_of_plan (plan_of plan.now) }
    requires some { 2 ≤ rows }
    requires small { rows ≤ 64 }
    ensures { result ≡ spec.is_size (plan_of plan.now) rows }
{
    rows == 2 || is_suggested(plan, literals, rows) && pairs_are_few(plan, rows)
}

/// Whether a number of rows is suggested: it is small, or a literal or a Limit suggests it.
fn is_suggested(plan: &Plan, literals: &[Value], rows: u32) -> bool
    ensures { result ≡ (nat_le rows 4 || (list_any (spec.is_past_literal rows) literals.now || spec.is_past_limit rows (plan_of plan.now))) }
{
    rows <= 4 || is_past_any(literals, rows) || is_past_limit(plan, rows)
}

/// Whether the tables of a plan, with the given number of rows each, pair to at most 16,384 rows.
#[tactic(auto, using(crate::proofs::Products::few))]
fn pairs_are_few(plan: &Plan, rows: u32) -> bool
    requires some { 1 ≤ rows }
    requires small { rows ≤ 64 }
    ensures { result ≡ nat_le (spec.paired rows (plan_of plan.now)) 16384 }
{
    pair_count(plan, rows) <= MOST_PAIRED
}

/// Whether the number of rows is one or two more than some literal.
fn is_past_any(literals: &[Value], rows: u32) -> bool
    ensures { result ≡ list_any (spec.is_past_literal rows) literals.now }
{
    for literal in literals {
        if is_past_literal(literal, rows) {
            return true;
        }
    }
    false
}

fn is_past_literal(literal: &Value, rows: u32) -> bool
    ensures { result ≡ spec.is_past_literal rows literal.now }
{
    match literal {
        Value::Int(number) => match u64::try_from(*number) {
            Ok(number) => is_past(u128::from(number), rows),
            Err(_) => false,
        },
        Value::Null | Value::Text(_) | Value::Bool(_) => false,
    }
}

/// Whether the number of rows is one or two more than a number.
fn is_past(number: u128, rows: u32) -> bool
    requires { number < 2 ^ 65 }
    ensures { result ≡ spec.is_past number rows }
{
    number + 1 == u128::from(rows) || number + 2 == u128::from(rows)
}

/// Whether the number of rows is one or two more than some Limit of a plan reaches.
fn is_past_limit(plan: &Plan, rows: u32) -> bool
    ensures { result ≡ spec.is_past_limit rows (plan_of plan.now) }
{
    match plan {
        Plan::Scan { .. } => false,
        Plan::Join { left, right, .. } => {
            is_past_limit(left, rows) || is_past_limit(right, rows)
        }
        Plan::Filter { input, .. }
        | Plan::Map { input, .. }
        | Plan::Group { input, .. }
        | Plan::Window { input, .. }
        | Plan::Distinct { input } => is_past_limit(input, rows),
        Plan::Limit { input, limit } => {
            is_past_limit(input, rows) || is_past(reach(limit), rows)
        }
    }
}

/// How many rows a Limit leaves out and takes.
fn reach(limit: &Limit) -> u128
    ensures is { result ≡ spec.reach (limit_of limit.now) }
    ensures small { result < 2 ^ 65 }
{
    u128::from(limit.offset) + u128::from(limit.count.unwrap_or(0))
}

/// How many rows the pairs of a plan's tables have, with the given number of rows each; a table that is read twice counts twice. 2^28
/// where there are more.
#[tactic(auto, using(crate::proofs::Products::capped))]
pub fn pair_count(plan: &Plan, rows: u32) -> u64
    requires some { 1 ≤ rows }
    requires small { rows ≤ 64 }
    ensures { result ≡ min (spec.paired rows (plan_of plan.now)) (2 ^ 28) }
{
    match plan {
        Plan::Scan { .. } => u64::from(rows),
        Plan::Join { left, right, .. } => {
            (pair_count(left, rows) * pair_count(right, rows)).min(MOST_COUNTED)
        }
        Plan::Filter { input, .. }
        | Plan::Map { input, .. }
        | Plan::Group { input, .. }
        | Plan::Window { input, .. }
        | Plan::Distinct { input }
        | Plan::Limit { input, .. } => pair_count(input, rows),
    }
}
