//! Deep expressions, evaluated by a loop: what waits for the value of an operand is on the heap, so the depth of the expression takes no
//! stack.

ghost use Rattle.std.specs.Prelude.{◌≡◌, ◌<◌, IfOk, Ok};
ghost use Rattle.wd_plan.specs.Expressions as spec;
ghost use Rattle.wd_plan.specs.Expressions.{expression_of};
ghost use Rattle.wd_plan.specs.Walks.{rest_steps, steps};
ghost use Rattle.wd_scalar.specs.Operands as operands;
ghost use Rattle.wd_scalar.specs.Waiting.{resumed, step_of, steps_left, waiting_steps};
ghost use Rattle.wd_value.specs.Rows.{column_of};

use crate::arithmetic::{arithmetic_result, negate};
use crate::truth::{and_result, comparison_result, is_null, is_true, not_value, or_result};
use crate::view::RowView;
use std::alloc::Global;
use wd_plan::Expr;
use wd_value::{Fault, OutOfMemory, Value};

/// What waits for the value of an operand.
#[derive(Drop)]
enum Waiting<'e> {
    /// An operator that waits for its first operand, or a CASE that waits for its condition.
    First(&'e Expr),
    /// An operator whose left operand has this value, and which waits for its right one.
    Right(&'e Expr, Value),
}

/// The value of an expression, or an operand to be evaluated first.
#[derive(Drop)]
enum Step<'e> {
    Made(Result<Value, Fault>),
    Into(Waiting<'e>, &'e Expr),
}

/// The value of an expression over a row, or its fault.
#[inline(never)]
#[tactic(auto, using(crate::proofs::Resumed::all_resumed_push))]
pub(crate) fn deep_value(
    alloc: Global,
    expression: &Expr,
    row: &RowView,
) -> Result<Result<Value, Fault>, OutOfMemory>
    ensures { IfOk result (λ r. r ≡ spec.value_of (expression_of expression.now) row.now) }
{
    let mut waiting = Vec::new(alloc);
    let mut step = open(alloc, expression, row)?;
    loop {
        match step {
            Step::Into(outer, part) => {
                waiting.push(outer)?;
                step = open(alloc, part, row)?;
            }
            Step::Made(value) => {
                let Some(outer) = waiting.pop() else {
                    return Ok(value);
                };
                step = close(alloc, outer, value, row)?;
            }
        }
    }
}

/// The first step into an expression: to its first operand, or the condition of a CASE.
fn open<'e>(alloc: Global, expression: &'e Expr, row: &RowView) -> Result<Step<'e>, OutOfMemory>
    ensures value { IfOk result (λ s. step_of row.now s ≡ spec.value_of (expression_of expression.now) row.now) }
    ensures fewer { IfOk result (λ s. steps_left s < steps (expression_of expression.now)) }
{
    match expression {
        Expr::Column(column) => Ok(Step::Made(column_value(alloc, row, *column)?)),
        Expr::Literal(value, _) => Ok(Step::Made(literal_value(alloc, value)?)),
        Expr::Negate(a)
        | Expr::Not(a)
        | Expr::IsNull(a)
        | Expr::IsNotNull(a)
        | Expr::Arithmetic(_, a, _)
        | Expr::Compare(_, a, _)
        | Expr::And(a, _)
        | Expr::Or(a, _)
        | Expr::Case(_, a, _, _) => Ok(Step::Into(Waiting::First(expression), a)),
    }
}

/// The step after an operand has its value.
fn close<'e>(
    alloc: Global,
    outer: Waiting<'e>,
    value: Result<Value, Fault>,
    row: &RowView,
) -> Result<Step<'e>, OutOfMemory>
    ensures value { IfOk result (λ s. step_of row.now s ≡ resumed row.now outer.entry value) }
    ensures fewer { IfOk result (λ s. steps_left s < waiting_steps outer.entry) }
{
    match (outer, value) {
        (_, Err(fault)) => Ok(Step::Made(Err(fault))),
        (Waiting::First(expression), Ok(first)) => after_first(alloc, expression, first, row),
        (Waiting::Right(expression, left), right) => Ok(Step::Made(combine(
            expression, &left, right,
        ))),
    }
}

/// The step after the first operand has its value. The right side of AND and OR is evaluated only where the left one doesn't decide, and
/// of a CASE only the branch that is taken.
fn after_first<'e>(
    alloc: Global,
    expression: &'e Expr,
    first: Value,
    row: &RowView,
) -> Result<Step<'e>, OutOfMemory>
    ensures value { IfOk result (λ s. step_of row.now s ≡ operands.applied_to (expression_of expression.now) row.now first) }
    ensures fewer { IfOk result (λ s. steps_left s < rest_steps (expression_of expression.now)) }
{
    match expression {
        Expr::Negate(_) => Ok(Step::Made(negate(&first))),
        Expr::Not(_) => Ok(Step::Made(Ok(not_value(&first)))),
        Expr::IsNull(_) => Ok(Step::Made(Ok(Value::Bool(is_null(&first))))),
        Expr::IsNotNull(_) => Ok(Step::Made(Ok(Value::Bool(!is_null(&first))))),
        Expr::And(_, _) if matches!(first, Value::Bool(false)) => Ok(Step::Made(Ok(first))),
        Expr::Or(_, _) if matches!(first, Value::Bool(true)) => Ok(Step::Made(Ok(first))),
        Expr::Arithmetic(_, _, b) | Expr::Compare(_, _, b) | Expr::And(_, b) | Expr::Or(_, b) => {
            Ok(Step::Into(Waiting::Right(expression, first), b))
        }
        Expr::Case(_, _, then, otherwise) => if is_true(&first) {
            open(alloc, then, row)
        } else {
            open(alloc, otherwise, row)
        },
        Expr::Column(_) | Expr::Literal(..) => Ok(Step::Made(Ok(Value::Null))),
    }
}

/// The value of an operator, where the left operand has this value and doesn't decide.
fn combine(expression: &Expr, left: &Value, right: Result<Value, Fault>) -> Result<Value, Fault>
    ensures { result ≡ operands.combined (expression_of expression.now) left.now right }
{
    match expression {
        Expr::Arithmetic(op, _, _) => arithmetic_result(*op, left, right),
        Expr::Compare(op, _, _) => comparison_result(*op, left, right),
        Expr::And(_, _) => and_result(left, right),
        Expr::Or(_, _) => or_result(left, right),
        _ => right,
    }
}

/// A copy of the value in a column; NULL past the last column.
pub(crate) fn column_value(
    alloc: Global,
    row: &RowView,
    column: u16,
) -> Result<Result<Value, Fault>, OutOfMemory>
    ensures { IfOk result (λ r. r ≡ Ok (column_of row.now column)) }
{
    literal_value(alloc, row.value(column as usize))
}

/// A copy of a value.
#[inline(never)]
pub(crate) fn literal_value(
    alloc: Global,
    value: &Value,
) -> Result<Result<Value, Fault>, OutOfMemory>
    ensures { IfOk result (λ r. r ≡ Ok value.now) }
{
    Ok(Ok(value.copy(alloc)?))
}
