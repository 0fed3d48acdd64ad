//! Comparisons and truth values, which have a third value, NULL.

ghost use Rattle.std.specs.Prelude.{◌≡◌, Ok, false};
ghost use Rattle.wd_plan.specs.Expressions as spec;
ghost use Rattle.wd_plan.specs.Faults.{and_then};
ghost use Rattle.wd_value.specs.Order as order;

use std::cmp::Ordering;
use wd_plan::ComparisonOp;
use wd_value::{Fault, SortKey, Value, compare};

/// The value of a comparison, where the left side has a value.
pub(crate) fn comparison_result(
    op: ComparisonOp,
    left: &Value,
    right: Result<Value, Fault>,
) -> Result<Value, Fault>
    ensures { result ≡ and_then right (λ w. Ok (spec.comparison op left.now w)) }
{
    Ok(comparison(op, left, &right?))
}

/// The value of a comparison of two values; NULL where either side is NULL.
fn comparison(op: ComparisonOp, a: &Value, b: &Value) -> Value
    ensures { result ≡ spec.comparison op a.now b.now }
{
    match (a, b) {
        (Value::Null, _) | (_, Value::Null) => Value::Null,
        _ => Value::Bool(holds(op, ascending(a, b))),
    }
}

fn holds(op: ComparisonOp, order: Ordering) -> bool
    ensures { result ≡ spec.holds op order }
{
    match op {
        ComparisonOp::Equal => order.is_eq(),
        ComparisonOp::NotEqual => order.is_ne(),
        ComparisonOp::Less => order.is_lt(),
        ComparisonOp::LessOrEqual => order.is_le(),
        ComparisonOp::Greater => order.is_gt(),
        ComparisonOp::GreaterOrEqual => order.is_ge(),
    }
}

pub(crate) fn is_null(value: &Value) -> bool
    ensures { result ≡ spec.is_null value.now }
{
    matches!(value, Value::Null)
}

/// Whether a condition is true, that is, neither false nor NULL.
pub fn is_true(value: &Value) -> bool
    ensures { result ≡ spec.is_true value.now }
{
    matches!(value, Value::Bool(true))
}

/// The value of NOT.
pub(crate) fn not_value(value: &Value) -> Value
    ensures { result ≡ spec.not_value value.now }
{
    match value {
        Value::Bool(truth) => Value::Bool(!*truth),
        _ => Value::Null,
    }
}

/// The value of AND, where its left side has a value.
pub(crate) fn and_value(a: &Value, b: &Value) -> Value
    ensures { result ≡ spec.and_value a.now b.now }
{
    match (a, b) {
        (Value::Bool(false), _) | (_, Value::Bool(false)) => Value::Bool(false),
        (Value::Bool(true), Value::Bool(true)) => Value::Bool(true),
        _ => Value::Null,
    }
}

/// The value of OR, where its left side has a value.
pub(crate) fn or_value(a: &Value, b: &Value) -> Value
    ensures { result ≡ spec.or_value a.now b.now }
{
    match (a, b) {
        (Value::Bool(true), _) | (_, Value::Bool(true)) => Value::Bool(true),
        (Value::Bool(false), Value::Bool(false)) => Value::Bool(false),
        _ => Value::Null,
    }
}

/// The order of two values, ascending.
pub(crate) fn ascending(a: &Value, b: &Value) -> Ordering
    ensures { result ≡ order.compare (record { desc = false; nulls_first = false }) a.now b.now }
{
    let key = SortKey {
        desc: false,
        nulls_first: false,
    };
    compare(a, b, key)
}

/// The value of an AND whose left side has this value and doesn't decide.
pub(crate) fn and_result(left: &Value, right: Result<Value, Fault>) -> Result<Value, Fault>
    ensures { result ≡ and_then right (λ w. Ok (spec.and_value left.now w)) }
{
    Ok(and_value(left, &right?))
}

/// The value of an OR whose left side has this value and doesn't decide.
pub(crate) fn or_result(left: &Value, right: Result<Value, Fault>) -> Result<Value, Fault>
    ensures { result ≡ and_then right (λ w. Ok (spec.or_value left.now w)) }
{
    Ok(or_value(left, &right?))
}
