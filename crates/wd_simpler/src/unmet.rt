//! Conditions that no row meets, and plans without rows.

ghost use Rattle.std.specs.Prelude.{◌≡◌, ◌&&◌, ◌||◌, not};
ghost use Rattle.std.specs.Ordering.{int_cmp};
ghost use Rattle.wd_plan.specs.Expressions.{expression_of, holds};
ghost use Rattle.wd_plan.specs.Plans.{limit_of, plan_of};
ghost use Rattle.wd_scalar.specs.Arithmetic.{has_arithmetic as arithmetic};
ghost use Rattle.wd_schema.specs.Schemas.{schema_of};
ghost use Rattle.wd_simpler.specs.Numbers.{numbers_of as numbers_in};
ghost use Rattle.wd_simpler.specs.Simpler as spec;
ghost use Rattle.wd_step_facts.specs.Steps.{side_of};

use crate::numbers::{Numbers, numbers_of};
use wd_plan::{ComparisonOp, Expr, Limit, Plan, ValueKind};
use wd_scalar::{has_arithmetic, is_true};
use wd_schema::Schema;
use wd_value::Value;

/// Whether a plan has no row, whatever the rows of the tables are.
pub(crate) fn is_empty(schema: &Schema, plan: &Plan) -> bool
    ensures { result ≡ spec.is_empty (schema_of schema.now) (plan_of plan.now) }
{
    match plan {
        Plan::Scan { .. } => false,
        Plan::Join { left, right, .. } => is_empty(schema, right) || is_empty(schema, left),
        Plan::Filter { input, condition } => is_unmet(schema, input, condition)
            || is_empty(schema, input),
        Plan::Map { input, .. } | Plan::Window { input, .. } | Plan::Distinct { input } => {
            is_empty(schema, input)
        }
        Plan::Group { .. } => false,
        Plan::Limit { input, limit } => takes_none(limit) || is_empty(schema, input),
    }
}

/// Whether a limit takes no row.
pub(crate) fn takes_none(limit: &Limit) -> bool
    ensures { result ≡ spec.takes_none (limit_of limit.now).count }
{
    matches!(limit.count, Some(0))
}

// ---- conditions

/// Whether no row of a plan meets a condition, and the condition has no fault over any of them.
pub(crate) fn is_unmet(schema: &Schema, input: &Plan, condition: &Expr) -> bool
    ensures { result ≡ spec.is_unmet (numbers_in (schema_of schema.now) (plan_of input.now)) (expression_of condition.now) }
{
    (!has_arithmetic(condition) && is_never(schema, input, condition))
        || is_false(schema, input, condition, false)
}

/// The condition, or FALSE in its place where no row meets it.
pub(crate) fn read_condition(unmet: bool, condition: Expr) -> Expr
    ensures { expression_of result ≡ spec.read_condition unmet (expression_of condition) }
{
    if unmet {
        Expr::Literal(Value::Bool(false), ValueKind::Truth)
    } else {
        condition
    }
}

/// Whether a condition is FALSE over each row of a plan, without a fault. On the left of an AND whose right side is FALSE (`right_is`) it
/// suffices that the condition has no fault.
fn is_false(schema: &Schema, input: &Plan, condition: &Expr, right_is: bool) -> bool
    ensures { result ≡ (spec.is_false (numbers_in (schema_of schema.now) (plan_of input.now)) (expression_of condition.now) || (right_is && not (arithmetic (expression_of condition.now)))) }
{
    match condition {
        Expr::Literal(value, _) => is_false_value(value) || right_is,
        Expr::Compare(op, a, b) => {
            never_compares(schema, input, false, *op, a, b)
                || (right_is && !has_arithmetic(condition))
        }
        Expr::And(a, b) => {
            let right_is = is_false(schema, input, b, right_is);
            is_false(schema, input, a, right_is)
        }
        _ => right_is && !has_arithmetic(condition),
    }
}

/// Whether a value is FALSE.
fn is_false_value(value: &Value) -> bool
    ensures { result ≡ spec.is_false_value value.now }
{
    matches!(value, Value::Bool(false))
}

/// Whether a condition is true over no row of a plan.
fn is_never(schema: &Schema, input: &Plan, condition: &Expr) -> bool
    ensures { result ≡ spec.is_never (numbers_in (schema_of schema.now) (plan_of input.now)) (expression_of condition.now) }
{
    match condition {
        Expr::Literal(value, _) => !is_true(value),
        Expr::Compare(op, a, b) => never_compares(schema, input, true, *op, a, b),
        Expr::And(a, b) => is_never(schema, input, b) || is_never(schema, input, a),
        Expr::Or(a, b) => is_never(schema, input, b) && is_never(schema, input, a),
        _ => false,
    }
}

/// Whether a comparison of a column with a literal, or of two literals, is never true; where NULL is not allowed, also never NULL.
fn never_compares(
    schema: &Schema,
    input: &Plan,
    null_allowed: bool,
    op: ComparisonOp,
    a: &Expr,
    b: &Expr,
) -> bool
    ensures { result ≡ spec.never_compares (λ c. spec.allowing null_allowed (numbers_in (schema_of schema.now) (plan_of input.now) c)) op (side_of (expression_of a.now)) (side_of (expression_of b.now)) }
{
    match a {
        Expr::Column(column) => match b {
            Expr::Literal(value, _) => {
                never_at(op, numbers_at(schema, input, null_allowed, *column), value)
            }
            _ => false,
        },
        Expr::Literal(value, _) => match b {
            Expr::Column(column) => {
                never_at(
                    exchange_sides(op),
                    numbers_at(schema, input, null_allowed, *column),
                    value,
                )
            }
            Expr::Literal(other, _) => never_fixed(op, value, other),
            _ => false,
        },
        _ => false,
    }
}

/// The numbers of a plan's column, if NULL is allowed or is not among them.
fn numbers_at(schema: &Schema, input: &Plan, null_allowed: bool, column: u16) -> Option<Numbers>
    ensures { result ≡ spec.allowing null_allowed (numbers_in (schema_of schema.now) (plan_of input.now) column) }
{
    let numbers = numbers_of(schema, input, column)?;
    if null_allowed || !numbers.nullable {
        Some(numbers)
    } else {
        None
    }
}

/// Whether the comparison with the literal holds for none of the column's numbers.
fn never_at(op: ComparisonOp, numbers: Option<Numbers>, literal: &Value) -> bool
    ensures { result ≡ spec.never_at op numbers literal.now }
{
    match numbers {
        None => false,
        Some(numbers) => match literal {
            Value::Int(number) => never(op, numbers, *number),
            _ => false,
        },
    }
}

/// Whether the comparison with this number holds for none of the numbers.
fn never(op: ComparisonOp, numbers: Numbers, number: i64) -> bool
    ensures { result ≡ spec.never op numbers number }
{
    match op {
        ComparisonOp::Equal => all_below(numbers.greatest, number) || number < numbers.least,
        ComparisonOp::NotEqual => false,
        ComparisonOp::Less => number <= numbers.least,
        ComparisonOp::LessOrEqual => number < numbers.least,
        ComparisonOp::Greater => all_up_to(numbers.greatest, number),
        ComparisonOp::GreaterOrEqual => all_below(numbers.greatest, number),
    }
}

/// Whether there is a greatest number, and it is at most this one.
fn all_up_to(greatest: Option<i64>, number: i64) -> bool
    ensures { result ≡ spec.all_up_to greatest number }
{
    match greatest {
        Some(greatest) => greatest <= number,
        None => false,
    }
}

/// Whether there is a greatest number, and it is less than this one.
fn all_below(greatest: Option<i64>, number: i64) -> bool
    ensures { result ≡ spec.all_below greatest number }
{
    match greatest {
        Some(greatest) => greatest < number,
        None => false,
    }
}

/// Whether two literals are numbers for which the comparison does not hold.
fn never_fixed(op: ComparisonOp, first: &Value, second: &Value) -> bool
    ensures { result ≡ spec.never_fixed op first.now second.now }
{
    match first {
        Value::Int(m) => match second {
            Value::Int(n) => fails(op, *m, *n),
            _ => false,
        },
        _ => false,
    }
}

fn fails(op: ComparisonOp, m: i64, n: i64) -> bool
    ensures { result ≡ not (holds op (int_cmp m n)) }
{
    match op {
        ComparisonOp::Equal => m != n,
        ComparisonOp::NotEqual => m == n,
        ComparisonOp::Less => m >= n,
        ComparisonOp::LessOrEqual => m > n,
        ComparisonOp::Greater => m <= n,
        ComparisonOp::GreaterOrEqual => m < n,
    }
}

/// The comparison with its sides exchanged.
fn exchange_sides(op: ComparisonOp) -> ComparisonOp
    ensures { result ≡ spec.turned op }
{
    match op {
        ComparisonOp::Equal => ComparisonOp::Equal,
        ComparisonOp::NotEqual => ComparisonOp::NotEqual,
        ComparisonOp::Less => ComparisonOp::Greater,
        ComparisonOp::LessOrEqual => ComparisonOp::GreaterOrEqual,
        ComparisonOp::Greater => ComparisonOp::Less,
        ComparisonOp::GreaterOrEqual => ComparisonOp::LessOrEqual,
    }
}
