//! The distinct expressions that the Map below a Window shows.

ghost use Rattle.std.specs.Prelude.{◌≡◌, ◌≤◌, [], ◌∷◌, map, length, IfOk};
ghost use Rattle.std.specs.List.{list_any};
ghost use Rattle.wd_resolve_call.specs.Calls.{call_of, function_of};
ghost use Rattle.wd_resolve_call.specs.Rows.{aggregate_of, aggregated, row_expression_of, row_reference_of, same_row_expression};
ghost use Rattle.wd_resolve_operand.specs.BoundExpressions.{Reference};
ghost use Rattle.wd_resolve_call.specs.References.{call};
ghost use Rattle.wd_resolve_call.specs.Windows.{key_of};
ghost use Rattle.wd_resolve_list.specs.SelectLists.{argument_of, read_by, sorted_by, with_new};
ghost use Rattle.wd_resolve_list.specs.SelectLists as spec;

use std::alloc::Global;
use wd_resolve_operand::{BoundExpression, Reference as _};
use wd_resolve_scope::{
    AppliedAggregate, AppliedFunction, OrderKey, RowReference, WindowCall, copy_of,
};
use wd_value::OutOfMemory;

/// Whether two expressions over rows are equal.
fn read_same(a: &BoundExpression<RowReference>, b: &BoundExpression<RowReference>) -> bool
    ensures { result ≡ same_row_expression (row_expression_of a.now) (row_expression_of b.now) }
{
    a.same(b)
}

/// The number of an expression among the inputs, and the number of inputs where it is not among them.
pub fn input_number(
    inputs: &[BoundExpression<RowReference>],
    expression: &BoundExpression<RowReference>,
) -> usize
    ensures number { result ≡ spec.input_number (map row_expression_of inputs.now) (row_expression_of expression.now) }
    ensures within { result ≤ length inputs.now }
{
    for (number, input) in inputs.iter().enumerate() {
        if read_same(expression, input) {
            return number;
        }
    }
    inputs.len()
}

/// Whether an expression is among the inputs.
#[tactic(auto, using(crate::proofs::FirstMet::any_by_number))]
fn is_among(
    inputs: &[BoundExpression<RowReference>],
    expression: &BoundExpression<RowReference>,
) -> bool
    ensures { result ≡ list_any (same_row_expression (row_expression_of expression.now)) (map row_expression_of inputs.now) }
{
    input_number(inputs, expression) < inputs.len()
}

/// Adds an expression, if it is new.
pub(crate) fn add_input(
    alloc: Global,
    inputs: &mut Vec<BoundExpression<RowReference>>,
    expression: &BoundExpression<RowReference>,
) -> Result<(), OutOfMemory>
    ensures { IfOk result (λ u. map row_expression_of inputs.new.items ≡ with_new same_row_expression (map row_expression_of inputs.old.items) (row_expression_of expression.now ∷ [])) }
{
    if is_among(inputs, expression) {
        return Ok(());
    }
    inputs.push(copy_of(alloc, expression)?)?;
    Ok(())
}

/// Adds the value argument of an aggregate, if it has one.
fn add_aggregated(
    alloc: Global,
    inputs: &mut Vec<BoundExpression<RowReference>>,
    aggregate: &AppliedAggregate<BoundExpression<RowReference>>,
) -> Result<(), OutOfMemory>
    ensures { IfOk result (λ u. map row_expression_of inputs.new.items ≡ with_new same_row_expression (map row_expression_of inputs.old.items) (aggregated (aggregate_of row_expression_of aggregate.now))) }
{
    match aggregate.argument() {
        None => Ok(()),
        Some(argument) => add_input(alloc, inputs, &argument.expression),
    }
}

/// Adds the value argument of a function, if it has one.
fn add_argument(
    alloc: Global,
    inputs: &mut Vec<BoundExpression<RowReference>>,
    function: &AppliedFunction,
) -> Result<(), OutOfMemory>
    ensures { IfOk result (λ u. map row_expression_of inputs.new.items ≡ with_new same_row_expression (map row_expression_of inputs.old.items) (argument_of (function_of function.now))) }
{
    match function {
        AppliedFunction::Ranking(_) => Ok(()),
        AppliedFunction::Shift { argument, .. } => add_input(alloc, inputs, &argument.expression),
        AppliedFunction::ValueAt(_, argument) => add_input(alloc, inputs, &argument.expression),
        AppliedFunction::Aggregate(aggregate) => add_aggregated(alloc, inputs, aggregate),
    }
}

/// Adds the expressions of a partition.
fn add_partition(
    alloc: Global,
    inputs: &mut Vec<BoundExpression<RowReference>>,
    expressions: &[BoundExpression<RowReference>],
) -> Result<(), OutOfMemory>
    ensures { IfOk result (λ u. map row_expression_of inputs.new.items ≡ with_new same_row_expression (map row_expression_of inputs.old.items) (map row_expression_of expressions.now)) }
{
    for expression in expressions {
        add_input(alloc, inputs, expression)?;
    }
    Ok(())
}

/// Adds the expressions of sort keys.
fn add_order(
    alloc: Global,
    inputs: &mut Vec<BoundExpression<RowReference>>,
    keys: &[OrderKey],
) -> Result<(), OutOfMemory>
    ensures { IfOk result (λ u. map row_expression_of inputs.new.items ≡ with_new same_row_expression (map row_expression_of inputs.old.items) (map sorted_by (map key_of keys.now))) }
{
    for key in keys {
        add_input(alloc, inputs, &key.expression)?;
    }
    Ok(())
}

/// Adds the expressions of a window call: its value argument, then its partition, then its order.
#[tactic(auto, using(crate::proofs::FirstMet::with_new_append))]
pub(crate) fn add_read(
    alloc: Global,
    inputs: &mut Vec<BoundExpression<RowReference>>,
    window_call: &WindowCall,
) -> Result<(), OutOfMemory>
    ensures { IfOk result (λ u. map row_expression_of inputs.new.items ≡ with_new same_row_expression (map row_expression_of inputs.old.items) (read_by (call (call_of window_call.now)))) }
{
    add_argument(alloc, inputs, &window_call.function)?;
    add_partition(alloc, inputs, &window_call.window.partition)?;
    add_order(alloc, inputs, &window_call.window.order)
}

/// Whether an input is this reference.
fn is_reference(reference: &RowReference, input: &BoundExpression<RowReference>) -> bool
    ensures { result ≡ same_row_expression (Reference (row_reference_of reference.now)) (row_expression_of input.now) }
{
    match input {
        BoundExpression::Reference(other) => reference.same(other),
        _ => false,
    }
}

/// The number of a reference among the inputs, and the number of inputs where it is not among them.
pub(crate) fn reference_number(
    inputs: &[BoundExpression<RowReference>],
    reference: &RowReference,
) -> usize
    ensures number { result ≡ spec.input_number (map row_expression_of inputs.now) (Reference (row_reference_of reference.now)) }
    ensures within { result ≤ length inputs.now }
{
    for (number, input) in inputs.iter().enumerate() {
        if is_reference(reference, input) {
            return number;
        }
    }
    inputs.len()
}
