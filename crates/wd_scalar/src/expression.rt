//! The values of expressions.

ghost use Rattle.std.specs.Prelude.{◌≡◌, ◌++◌, IfOk};
ghost use Rattle.wd_plan.specs.Expressions as spec;
ghost use Rattle.wd_plan.specs.Expressions.{expression_of};
ghost use Rattle.wd_plan.specs.Faults.{and_then};
ghost use Rattle.wd_scalar.specs.Operands as operands;
ghost use Rattle.wd_scalar.specs.Arithmetic as faults;
ghost use Rattle.wd_value.specs.Rows.{row_at};

use crate::arithmetic::{arithmetic_result, negate};
use crate::deep::{column_value, deep_value, literal_value};
use crate::truth::{and_result, comparison_result, is_null, is_true, not_value, or_result};
use crate::view::RowView;
use std::alloc::Global;
use wd_columns::RowSource;
use wd_plan::Expr;
use wd_value::{Fault, OutOfMemory, Value};

/// How many operands deep an expression is evaluated by recursion, which takes no memory from the allocator. Few are deeper.
const NEAR: u8 = 32;

/// The value of an expression over the row at a position, or its fault: operands are evaluated from left to right, and the first fault
/// is the expression's. A column past the row's last is NULL.
pub fn value_at(
    alloc: Global,
    expression: &Expr,
    rows: &RowSource,
    position: u64,
) -> Result<Result<Value, Fault>, OutOfMemory>
    ensures { IfOk result (λ r. r ≡ spec.value_of (expression_of expression.now) (row_at rows.now position)) }
{
    value_over(alloc, expression, &RowView::at(rows, position))
}

/// The value of an expression over a left and a right row concatenated, each at its position, or its fault.
pub fn value_of_pair(
    alloc: Global,
    expression: &Expr,
    left: &RowSource,
    first: u64,
    right: &RowSource,
    second: u64,
) -> Result<Result<Value, Fault>, OutOfMemory>
    ensures { IfOk result (λ r. r ≡ spec.value_of (expression_of expression.now) (row_at left.now first ++ row_at right.now second)) }
{
    value_over(
        alloc,
        expression,
        &RowView::of_pair(left, first, right, second),
    )
}

/// The value of an expression over a view of a row, or its fault.
fn value_over(
    alloc: Global,
    expression: &Expr,
    row: &RowView,
) -> Result<Result<Value, Fault>, OutOfMemory>
    ensures { IfOk result (λ r. r ≡ spec.value_of (expression_of expression.now) row.now) }
{
    near_value(alloc, expression, row, NEAR)
}

/// The value by recursion, down to the given number of operands; a deeper part is evaluated by a loop.
#[cycle(near_value)]
fn near_value(
    alloc: Global,
    expression: &Expr,
    row: &RowView,
    depth: u8,
) -> Result<Result<Value, Fault>, OutOfMemory>
    ensures { IfOk result (λ r. r ≡ spec.value_of (expression_of expression.now) row.now) }
{
    let Some(depth) = depth.checked_sub(1) else {
        return deep_value(alloc, expression, row);
    };
    match expression {
        Expr::Column(column) => column_value(alloc, row, *column),
        Expr::Literal(value, _) => literal_value(alloc, value),
        Expr::Negate(a)
        | Expr::Not(a)
        | Expr::IsNull(a)
        | Expr::IsNotNull(a)
        | Expr::Arithmetic(_, a, _)
        | Expr::Compare(_, a, _)
        | Expr::And(a, _)
        | Expr::Or(a, _)
        | Expr::Case(_, a, _, _) => {
            let first = near_value(alloc, a, row, depth)?;
            apply(alloc, expression, first, row, depth)
        }
    }
}

/// The value of an expression, from the result of its first operand. It is a function of its own, so that a column is evaluated fast.
#[cycle(near_value)]
#[inline(never)]
fn apply(
    alloc: Global,
    expression: &Expr,
    first: Result<Value, Fault>,
    row: &RowView,
    depth: u8,
) -> Result<Result<Value, Fault>, OutOfMemory>
    ensures { IfOk result (λ r. r ≡ and_then first (operands.applied_to (expression_of expression.now) row.now)) }
{
    match first {
        Ok(first) => apply_to(alloc, expression, &first, row, depth),
        Err(fault) => Ok(Err(fault)),
    }
}

/// The value of an expression whose first operand has this value. The right side of AND and OR is evaluated only where the
/// left one doesn't decide, and of a CASE only the branch that is taken.
#[cycle(near_value)]
fn apply_to(
    alloc: Global,
    expression: &Expr,
    first: &Value,
    row: &RowView,
    depth: u8,
) -> Result<Result<Value, Fault>, OutOfMemory>
    ensures { IfOk result (λ r. r ≡ operands.applied_to (expression_of expression.now) row.now first.now) }
{
    match expression {
        Expr::Negate(_) => Ok(negate(first)),
        Expr::Not(_) => Ok(Ok(not_value(first))),
        Expr::IsNull(_) => Ok(Ok(Value::Bool(is_null(first)))),
        Expr::IsNotNull(_) => Ok(Ok(Value::Bool(!is_null(first)))),
        Expr::Arithmetic(op, _, b) => {
            let right = near_value(alloc, b, row, depth)?;
            Ok(arithmetic_result(*op, first, right))
        }
        Expr::Compare(op, _, b) => {
            let right = near_value(alloc, b, row, depth)?;
            Ok(comparison_result(*op, first, right))
        }
        Expr::And(_, b) => match first {
            Value::Bool(false) => Ok(Ok(Value::Bool(false))),
            _ => Ok(and_result(first, near_value(alloc, b, row, depth)?)),
        },
        Expr::Or(_, b) => match first {
            Value::Bool(true) => Ok(Ok(Value::Bool(true))),
            _ => Ok(or_result(first, near_value(alloc, b, row, depth)?)),
        },
        Expr::Case(_, _, then, otherwise) => if is_true(first) {
            near_value(alloc, then, row, depth)
        } else {
            near_value(alloc, otherwise, row, depth)
        },
        Expr::Column(_) | Expr::Literal(..) => Ok(Ok(Value::Null)),
    }
}

/// Whether some operation on whole numbers is in the expression; without one it has no fault. The left operand comes last, so that the
/// compiler makes a loop of that call.
pub fn has_arithmetic(expression: &Expr) -> bool
    ensures { result ≡ faults.has_arithmetic (expression_of expression.now) }
{
    match expression {
        Expr::Column(_) | Expr::Literal(..) => false,
        Expr::Negate(_) | Expr::Arithmetic(..) => true,
        Expr::Compare(_, a, b) | Expr::And(a, b) | Expr::Or(a, b) => {
            has_arithmetic(b) || has_arithmetic(a)
        }
        Expr::Not(a) | Expr::IsNull(a) | Expr::IsNotNull(a) => has_arithmetic(a),
        Expr::Case(_, a, b, c) => has_arithmetic(a) || has_arithmetic(b) || has_arithmetic(c),
    }
}
