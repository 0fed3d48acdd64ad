//! Copies of plans.

ghost use Rattle.std.specs.Prelude.{◌≡◌, IfOk, map, option_map};
ghost use Rattle.wd_plan.specs.Expressions.{expression_of};
ghost use Rattle.wd_plan.specs.Plans.{class_of, group_call_of, grouping_of, limit_of, plan_of, sets_of, window_of};
ghost use Rattle.wd_plan.specs.Plans as nodes;

use std::alloc::Global;
use wd_plan::{Call, Class, Expr, Function, Group, GroupCall, Limit, Plan, Shift, Window};
use wd_value::OutOfMemory;

/// An equal plan.
pub(crate) fn copied_plan(alloc: Global, plan: &Plan) -> Result<Plan, OutOfMemory>
    ensures { IfOk result (λ p. plan_of p ≡ plan_of plan.now) }
{
    match plan {
        Plan::Scan { table, columns } => Ok(Plan::Scan {
            table: *table,
            columns: *columns,
        }),
        Plan::Join {
            left,
            right,
            condition,
        } => {
            let left = copied_plan(alloc, left)?;
            let right = copied_plan(alloc, right)?;
            join_of(alloc, left, right, condition)
        }
        Plan::Filter { input, condition } => {
            filter_over(alloc, copied_plan(alloc, input)?, condition)
        }
        Plan::Map { input, outputs } => map_over(alloc, copied_plan(alloc, input)?, outputs),
        Plan::Group { input, group } => group_over(alloc, copied_plan(alloc, input)?, group),
        Plan::Window { input, window } => window_over(alloc, copied_plan(alloc, input)?, window),
        Plan::Distinct { input } => distinct_over(alloc, copied_plan(alloc, input)?),
        Plan::Limit { input, limit } => limit_over(alloc, copied_plan(alloc, input)?, limit),
    }
}

// ---- a node over plans that are already copied

/// The Join of two plans on a copy of the condition.
fn join_of(
    alloc: Global,
    left: Plan,
    right: Plan,
    condition: &Option<Expr>,
) -> Result<Plan, OutOfMemory>
    ensures { IfOk result (λ p. plan_of p ≡ nodes.Join (option_map expression_of condition.now) (plan_of left) (plan_of right)) }
{
    let condition = copied_condition(alloc, condition)?;
    let left = Box::new(alloc, left)?;
    let right = Box::new(alloc, right)?;
    Ok(Plan::Join {
        left,
        right,
        condition,
    })
}

/// The Filter of a plan by a copy of the condition.
fn filter_over(alloc: Global, input: Plan, condition: &Expr) -> Result<Plan, OutOfMemory>
    ensures { IfOk result (λ p. plan_of p ≡ nodes.Over (nodes.Filter (expression_of condition.now)) (plan_of input)) }
{
    let condition = condition.copy(alloc)?;
    let input = Box::new(alloc, input)?;
    Ok(Plan::Filter { input, condition })
}

/// The Map of a plan to copies of the outputs.
fn map_over(alloc: Global, input: Plan, outputs: &[Expr]) -> Result<Plan, OutOfMemory>
    ensures { IfOk result (λ p. plan_of p ≡ nodes.Over (nodes.Map (map expression_of outputs.now)) (plan_of input)) }
{
    let outputs = copied_outputs(alloc, outputs)?;
    let input = Box::new(alloc, input)?;
    Ok(Plan::Map { input, outputs })
}

/// The Group of a plan by a copy of its rule.
fn group_over(alloc: Global, input: Plan, group: &Group) -> Result<Plan, OutOfMemory>
    ensures { IfOk result (λ p. plan_of p ≡ nodes.Over (nodes.Group (grouping_of group.now)) (plan_of input)) }
{
    let group = copied_group(alloc, group)?;
    let input = Box::new(alloc, input)?;
    Ok(Plan::Group { input, group })
}

/// The Window over a plan by a copy of its rule.
fn window_over(alloc: Global, input: Plan, window: &Window) -> Result<Plan, OutOfMemory>
    ensures { IfOk result (λ p. plan_of p ≡ nodes.Over (nodes.Window (window_of window.now)) (plan_of input)) }
{
    let window = copied_window(alloc, window)?;
    let input = Box::new(alloc, input)?;
    Ok(Plan::Window { input, window })
}

/// The Distinct of a plan.
fn distinct_over(alloc: Global, input: Plan) -> Result<Plan, OutOfMemory>
    ensures { IfOk result (λ p. plan_of p ≡ nodes.Over nodes.Distinct (plan_of input)) }
{
    let input = Box::new(alloc, input)?;
    Ok(Plan::Distinct { input })
}

/// The Limit of a plan by a copy of its rule.
fn limit_over(alloc: Global, input: Plan, limit: &Limit) -> Result<Plan, OutOfMemory>
    ensures { IfOk result (λ p. plan_of p ≡ nodes.Over (nodes.Limit (limit_of limit.now)) (plan_of input)) }
{
    let limit = copied_limit(alloc, limit)?;
    let input = Box::new(alloc, input)?;
    Ok(Plan::Limit { input, limit })
}

// ---- the rules of the nodes

/// An equal condition.
fn copied_condition(alloc: Global, condition: &Option<Expr>) -> Result<Option<Expr>, OutOfMemory>
    ensures { IfOk result (λ o. option_map expression_of o ≡ option_map expression_of condition.now) }
{
    match condition {
        None => Ok(None),
        Some(condition) => Ok(Some(condition.copy(alloc)?)),
    }
}

/// Equal outputs.
fn copied_outputs(alloc: Global, outputs: &[Expr]) -> Result<Vec<Expr>, OutOfMemory>
    ensures { IfOk result (λ v. map expression_of v.items ≡ map expression_of outputs.now) }
{
    let mut copied = Vec::with_capacity(alloc, outputs.len())?;
    for output in outputs {
        copied.push(output.copy(alloc)?)?;
    }
    Ok(copied)
}

/// An equal limit.
fn copied_limit(alloc: Global, limit: &Limit) -> Result<Limit, OutOfMemory>
    ensures { IfOk result (λ l. limit_of l ≡ limit_of limit.now) }
{
    let keys = limit.keys.to_vec(alloc)?;
    Ok(Limit {
        keys,
        offset: limit.offset,
        count: limit.count,
        ties: limit.ties,
    })
}

// ---- groups

/// An equal grouping.
fn copied_group(alloc: Global, group: &Group) -> Result<Group, OutOfMemory>
    ensures { IfOk result (λ g. grouping_of g ≡ grouping_of group.now) }
{
    let sets = copied_sets(alloc, &group.sets)?;
    let calls = copied_group_calls(alloc, &group.calls)?;
    Ok(Group {
        columns: group.columns,
        sets,
        calls,
    })
}

/// Equal grouping sets.
fn copied_sets(alloc: Global, sets: &[Vec<u16>]) -> Result<Vec<Vec<u16>>, OutOfMemory>
    ensures { IfOk result (λ v. sets_of v.items ≡ sets_of sets.now) }
{
    let mut copied = Vec::with_capacity(alloc, sets.len())?;
    for set in sets {
        copied.push(set.to_vec(alloc)?)?;
    }
    Ok(copied)
}

/// Equal calls of a Group.
fn copied_group_calls(alloc: Global, calls: &[GroupCall]) -> Result<Vec<GroupCall>, OutOfMemory>
    ensures { IfOk result (λ v. map group_call_of v.items ≡ map group_call_of calls.now) }
{
    let mut copied = Vec::with_capacity(alloc, calls.len())?;
    for call in calls {
        copied.push(copied_group_call(alloc, call)?)?;
    }
    Ok(copied)
}

/// An equal call of a Group.
fn copied_group_call(alloc: Global, call: &GroupCall) -> Result<GroupCall, OutOfMemory>
    ensures { IfOk result (λ c. group_call_of c ≡ group_call_of call.now) }
{
    match call {
        GroupCall::OfRows(aggregate) => Ok(GroupCall::OfRows(*aggregate)),
        GroupCall::Grouping(columns) => Ok(GroupCall::Grouping(columns.to_vec(alloc)?)),
    }
}

// ---- windows

/// An equal window.
fn copied_window(alloc: Global, window: &Window) -> Result<Window, OutOfMemory>
    ensures { IfOk result (λ w. window_of w ≡ window_of window.now) }
{
    let classes = copied_classes(alloc, &window.classes)?;
    let calls = copied_calls(alloc, &window.calls)?;
    Ok(Window { classes, calls })
}

/// Equal classes.
fn copied_classes(alloc: Global, classes: &[Class]) -> Result<Vec<Class>, OutOfMemory>
    ensures { IfOk result (λ v. map class_of v.items ≡ map class_of classes.now) }
{
    let mut copied = Vec::with_capacity(alloc, classes.len())?;
    for class in classes {
        copied.push(copied_class(alloc, class)?)?;
    }
    Ok(copied)
}

/// An equal class.
fn copied_class(alloc: Global, class: &Class) -> Result<Class, OutOfMemory>
    ensures { IfOk result (λ c. class_of c ≡ class_of class.now) }
{
    let partition = class.partition.to_vec(alloc)?;
    let order = class.order.to_vec(alloc)?;
    Ok(Class { partition, order })
}

/// Equal calls of a Window.
fn copied_calls(alloc: Global, calls: &[Call]) -> Result<Vec<Call>, OutOfMemory>
    ensures { IfOk result (λ v. v.items ≡ calls.now) }
{
    let mut copied = Vec::with_capacity(alloc, calls.len())?;
    for call in calls {
        copied.push(copied_call(alloc, call)?)?;
    }
    Ok(copied)
}

/// An equal call of a Window.
fn copied_call(alloc: Global, call: &Call) -> Result<Call, OutOfMemory>
    ensures { IfOk result (λ c. c ≡ call.now) }
{
    let function = copied_function(alloc, &call.function)?;
    Ok(Call {
        class: call.class,
        function,
        frame: call.frame,
    })
}

/// An equal function.
fn copied_function(alloc: Global, function: &Function) -> Result<Function, OutOfMemory>
    ensures { IfOk result (λ f. f ≡ function.now) }
{
    match function {
        Function::Ranking(ranking) => Ok(Function::Ranking(*ranking)),
        Function::Shift(shift) => Ok(Function::Shift(copied_shift(alloc, shift)?)),
        Function::OfFrame(of_frame) => Ok(Function::OfFrame(*of_frame)),
    }
}

/// An equal shift.
fn copied_shift(alloc: Global, shift: &Shift) -> Result<Shift, OutOfMemory>
    ensures { IfOk result (λ s. s ≡ shift.now) }
{
    let default = shift.default.copy(alloc)?;
    Ok(Shift {
        direction: shift.direction,
        argument: shift.argument,
        offset: shift.offset,
        default,
    })
}
