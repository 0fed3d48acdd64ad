//! Lists of distinct window calls.

ghost use Rattle.std.specs.Prelude.{◌≡◌, ◌≤◌, [], ◌∷◌, map, length, vec_len, IfOk};
ghost use Rattle.std.specs.List.{list_any, position_or_len};
ghost use Rattle.wd_resolve_call.specs.Calls.{call_of, function_of};
ghost use Rattle.wd_resolve_call.specs.Rows.{aggregate_of, argument_of, row_expression_of};
ghost use Rattle.wd_resolve_call.specs.Calls as spec;
ghost use Rattle.wd_resolve_list.specs.SelectLists.{with_new};

use std::alloc::Global;
use wd_resolve_operand::BoundExpression;
use wd_resolve_scope::{
    AppliedAggregate, AppliedFunction, RowReference, ValueArgument, WindowCall, copy_of, same_call,
};
use wd_value::OutOfMemory;

fn copy_argument(
    alloc: Global,
    argument: &ValueArgument<BoundExpression<RowReference>>,
) -> Result<ValueArgument<BoundExpression<RowReference>>, OutOfMemory>
    ensures { IfOk result (λ a. argument_of row_expression_of a ≡ argument_of row_expression_of argument.now) }
{
    Ok(ValueArgument {
        expression: copy_of(alloc, &argument.expression)?,
        kind: argument.kind,
    })
}

fn copy_aggregate(
    alloc: Global,
    aggregate: &AppliedAggregate<BoundExpression<RowReference>>,
) -> Result<AppliedAggregate<BoundExpression<RowReference>>, OutOfMemory>
    ensures { IfOk result (λ a. aggregate_of row_expression_of a ≡ aggregate_of row_expression_of aggregate.now) }
{
    match aggregate {
        AppliedAggregate::CountRows => Ok(AppliedAggregate::CountRows),
        AppliedAggregate::Count(a) => Ok(AppliedAggregate::Count(copy_argument(alloc, a)?)),
        AppliedAggregate::Sum(a) => Ok(AppliedAggregate::Sum(copy_argument(alloc, a)?)),
        AppliedAggregate::Min(a) => Ok(AppliedAggregate::Min(copy_argument(alloc, a)?)),
        AppliedAggregate::Max(a) => Ok(AppliedAggregate::Max(copy_argument(alloc, a)?)),
    }
}

fn copy_function(alloc: Global, function: &AppliedFunction) -> Result<AppliedFunction, OutOfMemory>
    ensures { IfOk result (λ f. function_of f ≡ function_of function.now) }
{
    match function {
        AppliedFunction::Ranking(ranking) => Ok(AppliedFunction::Ranking(*ranking)),
        AppliedFunction::Shift {
            direction,
            argument,
            offset,
            default,
        } => {
            let argument = copy_argument(alloc, argument)?;
            Ok(AppliedFunction::Shift {
                direction: *direction,
                argument,
                offset: *offset,
                default: default.copy(alloc)?,
            })
        }
        AppliedFunction::ValueAt(row, argument) => {
            Ok(AppliedFunction::ValueAt(*row, copy_argument(alloc, argument)?))
        }
        AppliedFunction::Aggregate(aggregate) => {
            Ok(AppliedFunction::Aggregate(copy_aggregate(alloc, aggregate)?))
        }
    }
}

fn copy_call(alloc: Global, call: &WindowCall) -> Result<WindowCall, OutOfMemory>
    ensures { IfOk result (λ c. call_of c ≡ call_of call.now) }
{
    let window = call.window.share()?;
    Ok(WindowCall {
        function: copy_function(alloc, &call.function)?,
        window,
    })
}

/// The number of a call in the list, and the length of the list where it is not in it.
pub(crate) fn call_number(calls: &[WindowCall], call: &WindowCall) -> usize
    ensures number { result ≡ position_or_len (spec.same_call (call_of call.now)) (map call_of calls.now) }
    ensures within { result ≤ length calls.now }
{
    for (number, other) in calls.iter().enumerate() {
        if same_call(call, other) {
            return number;
        }
    }
    calls.len()
}

/// Whether a call is in the list.
#[tactic(auto, using(crate::proofs::FirstMet::any_by_number))]
fn is_met(calls: &[WindowCall], call: &WindowCall) -> bool
    ensures { result ≡ list_any (spec.same_call (call_of call.now)) (map call_of calls.now) }
{
    call_number(calls, call) < calls.len()
}

/// Adds a call, if it is new.
pub(crate) fn add_call(
    alloc: Global,
    calls: &mut Vec<WindowCall>,
    call: &WindowCall,
) -> Result<(), OutOfMemory>
    ensures { IfOk result (λ u. map call_of calls.new.items ≡ with_new spec.same_call (map call_of calls.old.items) (call_of call.now ∷ [])) }
{
    if is_met(calls, call) {
        return Ok(());
    }
    calls.push(copy_call(alloc, call)?)?;
    Ok(())
}
