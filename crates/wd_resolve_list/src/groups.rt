//! The distinct calls over groups of a select, and what the Map below a Group shows.

ghost use Rattle.std.specs.Prelude.{◌≡◌, ◌≤◌, ◌∷◌, [], length, map, option_map, IfOk};
ghost use Rattle.std.specs.List.{list_any};
ghost use Rattle.wd_plan.specs.Equality.{same_expression};
ghost use Rattle.wd_plan.specs.Expressions.{Column, expression_of};
ghost use Rattle.wd_resolve_operand.specs.BoundExpressions.{references};
ghost use Rattle.wd_resolve_call.specs.Calls.{call_of, function_of};
ghost use Rattle.wd_resolve_call.specs.References.{call};
ghost use Rattle.wd_resolve_call.specs.Rows.{aggregate_of, aggregated, group_call_of, row_expression_of, row_reference_of, same_group_call};
ghost use Rattle.wd_resolve_call.specs.Windows.{key_of};
ghost use Rattle.wd_resolve_list.specs.SelectLists.{all_row_references, argument_of, group_argument_of, group_calls_among, group_calls_read, number_in, shared_call, sorted_by, with_new};
ghost use Rattle.wd_resolve_list.specs.SelectLists as spec;

use crate::places::group_number;
use std::alloc::Global;
use std::rc::Rc;
use wd_plan::Expr;
use wd_resolve_operand::BoundExpression;
use wd_resolve_scope::{
    AppliedAggregate, AppliedFunction, GroupCall, OrderKey, RowReference, WindowCall,
};
use wd_value::OutOfMemory;

/// Whether a call over groups is in the list.
#[tactic(auto, using(crate::proofs::FirstMet::any_by_number))]
fn is_met(calls: &[Rc<GroupCall>], call: &GroupCall) -> bool
    ensures { result ≡ list_any (same_group_call (group_call_of call.now)) (map shared_call calls.now) }
{
    group_number(calls, call) < calls.len()
}

/// Adds the call over groups that a reference is, if it is new.
pub(crate) fn add_group_call(
    calls: &mut Vec<Rc<GroupCall>>,
    reference: &RowReference,
) -> Result<(), OutOfMemory>
    ensures { IfOk result (λ u. map shared_call calls.new.items ≡ with_new same_group_call (map shared_call calls.old.items) (group_calls_among (row_reference_of reference.now ∷ []))) }
{
    if let RowReference::Group(call) = reference {
        if !is_met(calls, call) {
            calls.push(call.clone()?)?;
        }
    }
    Ok(())
}

/// Adds the calls over groups of an expression over rows.
#[tactic(auto, using(crate::proofs::FirstMet::groups_added))]
fn add_row_calls(
    calls: &mut Vec<Rc<GroupCall>>,
    expression: &BoundExpression<RowReference>,
) -> Result<(), OutOfMemory>
    ensures { IfOk result (λ u. map shared_call calls.new.items ≡ with_new same_group_call (map shared_call calls.old.items) (group_calls_among (references (row_expression_of expression.now)))) }
{
    match expression {
        BoundExpression::Reference(reference) => add_group_call(calls, reference),
        BoundExpression::Literal(_, _) => Ok(()),
        BoundExpression::Negate(a)
        | BoundExpression::Not(a)
        | BoundExpression::IsNull(a)
        | BoundExpression::IsNotNull(a) => { add_row_calls(calls, a) }
        BoundExpression::Arithmetic(_, a, b)
        | BoundExpression::Compare(_, a, b)
        | BoundExpression::And(a, b)
        | BoundExpression::Or(a, b) => {
            add_row_calls(calls, a)?;
            add_row_calls(calls, b)
        }
        BoundExpression::Case(_, a, b, c) => {
            add_row_calls(calls, a)?;
            add_row_calls(calls, b)?;
            add_row_calls(calls, c)
        }
    }
}

/// Adds the calls over groups of an aggregate's value argument.
#[tactic(auto, using(crate::proofs::FirstMet::one_bound_expression))]
fn add_aggregate_calls(
    calls: &mut Vec<Rc<GroupCall>>,
    aggregate: &AppliedAggregate<BoundExpression<RowReference>>,
) -> Result<(), OutOfMemory>
    ensures { IfOk result (λ u. map shared_call calls.new.items ≡ with_new same_group_call (map shared_call calls.old.items) (group_calls_among (all_row_references (aggregated (aggregate_of row_expression_of aggregate.now))))) }
{
    match aggregate.argument() {
        None => Ok(()),
        Some(argument) => add_row_calls(calls, &argument.expression),
    }
}

/// Adds the calls over groups of a function's value argument.
#[tactic(auto, using(crate::proofs::FirstMet::one_bound_expression))]
fn add_argument_calls(
    calls: &mut Vec<Rc<GroupCall>>,
    function: &AppliedFunction,
) -> Result<(), OutOfMemory>
    ensures { IfOk result (λ u. map shared_call calls.new.items ≡ with_new same_group_call (map shared_call calls.old.items) (group_calls_among (all_row_references (argument_of (function_of function.now))))) }
{
    match function {
        AppliedFunction::Ranking(_) => Ok(()),
        AppliedFunction::Shift { argument, .. } => add_row_calls(calls, &argument.expression),
        AppliedFunction::ValueAt(_, argument) => add_row_calls(calls, &argument.expression),
        AppliedFunction::Aggregate(aggregate) => add_aggregate_calls(calls, aggregate),
    }
}

/// Adds the calls over groups of a partition's expressions.
#[tactic(auto, using(crate::proofs::FirstMet::groups_added))]
fn add_partition_calls(
    calls: &mut Vec<Rc<GroupCall>>,
    expressions: &[BoundExpression<RowReference>],
) -> Result<(), OutOfMemory>
    ensures { IfOk result (λ u. map shared_call calls.new.items ≡ with_new same_group_call (map shared_call calls.old.items) (group_calls_among (all_row_references (map row_expression_of expressions.now)))) }
{
    for expression in expressions {
        add_row_calls(calls, expression)?;
    }
    Ok(())
}

/// Adds the calls over groups of the sort keys' expressions.
#[tactic(auto, using(crate::proofs::FirstMet::groups_added))]
fn add_order_calls(calls: &mut Vec<Rc<GroupCall>>, keys: &[OrderKey]) -> Result<(), OutOfMemory>
    ensures { IfOk result (λ u. map shared_call calls.new.items ≡ with_new same_group_call (map shared_call calls.old.items) (group_calls_among (all_row_references (map sorted_by (map key_of keys.now))))) }
{
    for key in keys {
        add_row_calls(calls, &key.expression)?;
    }
    Ok(())
}

/// Adds the calls over groups that a window call reads: by its value argument, then its partition, then its order.
#[tactic(auto, using(crate::proofs::FirstMet::call_groups))]
pub(crate) fn add_groups_read(
    calls: &mut Vec<Rc<GroupCall>>,
    window_call: &WindowCall,
) -> Result<(), OutOfMemory>
    ensures { IfOk result (λ u. map shared_call calls.new.items ≡ with_new same_group_call (map shared_call calls.old.items) (group_calls_read (call (call_of window_call.now) ∷ []))) }
{
    add_argument_calls(calls, &window_call.function)?;
    add_partition_calls(calls, &window_call.window.partition)?;
    add_order_calls(calls, &window_call.window.order)
}

/// Adds the calls over groups of the condition of HAVING.
pub(crate) fn add_having(
    calls: &mut Vec<Rc<GroupCall>>,
    having: &Option<BoundExpression<RowReference>>,
) -> Result<(), OutOfMemory>
    ensures { IfOk result (λ u. map shared_call calls.new.items ≡ spec.having_groups (map shared_call calls.old.items) (option_map row_expression_of having.now)) }
{
    match having {
        None => Ok(()),
        Some(condition) => add_row_calls(calls, condition),
    }
}

/// Further references to these calls.
pub(crate) fn share_calls(
    alloc: Global,
    calls: &[Rc<GroupCall>],
) -> Result<Vec<Rc<GroupCall>>, OutOfMemory>
    ensures { IfOk result (λ v. map shared_call v.items ≡ map shared_call calls.now) }
{
    let mut all = Vec::with_capacity(alloc, calls.len())?;
    for call in calls {
        all.push(call.clone()?)?;
    }
    Ok(all)
}

/// The number of an expression over FROM in the list, and the length of the list where it is not in it.
pub fn expression_number(expressions: &[Expr], expression: &Expr) -> usize
    ensures number { result ≡ number_in same_expression (map expression_of expressions.now) (expression_of expression.now) }
    ensures within { result ≤ length expressions.now }
{
    for (number, other) in expressions.iter().enumerate() {
        if expression.same(other) {
            return number;
        }
    }
    expressions.len()
}

/// Whether an expression over FROM is in the list.
#[tactic(auto, using(crate::proofs::FirstMet::any_by_number))]
fn is_shown(expressions: &[Expr], expression: &Expr) -> bool
    ensures { result ≡ list_any (same_expression (expression_of expression.now)) (map expression_of expressions.now) }
{
    expression_number(expressions, expression) < expressions.len()
}

/// Adds an expression over FROM, if it is new.
fn add_expression(
    alloc: Global,
    expressions: &mut Vec<Expr>,
    expression: &Expr,
) -> Result<(), OutOfMemory>
    ensures { IfOk result (λ u. map expression_of expressions.new.items ≡ with_new same_expression (map expression_of expressions.old.items) (expression_of expression.now ∷ [])) }
{
    if is_shown(expressions, expression) {
        return Ok(());
    }
    expressions.push(expression.copy(alloc)?)?;
    Ok(())
}

/// Adds the value argument of an aggregate over FROM, if it has one.
fn add_aggregated(
    alloc: Global,
    expressions: &mut Vec<Expr>,
    aggregate: &AppliedAggregate<Expr>,
) -> Result<(), OutOfMemory>
    ensures { IfOk result (λ u. map expression_of expressions.new.items ≡ with_new same_expression (map expression_of expressions.old.items) (aggregated (aggregate_of expression_of aggregate.now))) }
{
    match aggregate.argument() {
        None => Ok(()),
        Some(argument) => add_expression(alloc, expressions, &argument.expression),
    }
}

/// Adds the value argument of a call over groups, if it has one.
fn add_group_argument(
    alloc: Global,
    expressions: &mut Vec<Expr>,
    call: &GroupCall,
) -> Result<(), OutOfMemory>
    ensures { IfOk result (λ u. map expression_of expressions.new.items ≡ with_new same_expression (map expression_of expressions.old.items) (group_argument_of (group_call_of call.now))) }
{
    match call {
        GroupCall::OfRows(aggregate) => add_aggregated(alloc, expressions, aggregate),
        GroupCall::Grouping(_) => Ok(()),
    }
}

/// Columns of FROM as expressions.
fn column_outputs(alloc: Global, columns: &[u16]) -> Result<Vec<Expr>, OutOfMemory>
    ensures { IfOk result (λ v. map expression_of v.items ≡ map Column columns.now) }
{
    let mut expressions = Vec::with_capacity(alloc, columns.len())?;
    for column in columns {
        expressions.push(Expr::Column(*column))?;
    }
    Ok(expressions)
}

/// What the Map below a Group shows: the columns that are grouped by, followed by the arguments that are not among these.
#[tactic(auto, using(crate::proofs::FirstMet::with_new_append))]
pub fn group_inputs(
    alloc: Global,
    columns: &[u16],
    calls: &[Rc<GroupCall>],
) -> Result<Vec<Expr>, OutOfMemory>
    ensures { IfOk result (λ v. map expression_of v.items ≡ spec.group_inputs columns.now (map shared_call calls.now)) }
{
    let mut inputs = column_outputs(alloc, columns)?;
    for call in calls {
        add_group_argument(alloc, &mut inputs, call)?;
    }
    Ok(inputs)
}
