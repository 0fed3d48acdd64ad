//! The steps of a plan above FROM.

ghost use Rattle.std.specs.Prelude.{◌≡◌, ◌+◌, ◌≤◌, false, nat_eq, [], ◌∷◌, map, length, vec_len, option_map, IfOk};
ghost use Rattle.std.specs.List.{list_any, position_or_len};
ghost use lib.Pointwise.{pointwise};
ghost use Rattle.wd_plan.specs.Expressions.{expression_of};
ghost use Rattle.wd_plan.specs.Equality.{same_expression};
ghost use Rattle.wd_plan.specs.Plans.{class_of, group_call_of as plan_call_of, plan_of, sets_of};
ghost use Rattle.wd_plan.specs.Plans as tree;
ghost use Rattle.wd_syntax.specs.View.{view_option};
ghost use Rattle.wd_resolve_operand.specs.Causes.{Gives};
ghost use Rattle.wd_resolve_call.specs.Calls.{call_of, function_of};
ghost use Rattle.wd_resolve_call.specs.Rows.{aggregate_of, group_call_of, row_expression_of};
ghost use Rattle.wd_resolve_list.specs.Grouping.{below_of};
ghost use Rattle.wd_resolve_list.specs.Grouping as grouping_spec;
ghost use Rattle.wd_resolve_call.specs.References.{bound_expression_of};
ghost use Rattle.wd_resolve_scope.specs.Scopes.{scope_of};
ghost use Rattle.wd_resolve_call.specs.Windows.{key_of};
ghost use Rattle.wd_resolve_select.specs.RowLimits.{row_limit_of};
ghost use Rattle.wd_resolve_list.specs.SelectLists.{grouped_by_of, input_number as input_meant, is_group_wide, is_window_wide, projected_shown, number_in, row_place, shared_call, with_new};
ghost use Rattle.wd_resolve_select.specs.Steps as spec;

use crate::limits::RowLimit;
use crate::rebased::{rebase_all, rebase_inputs, rebase_row};
use std::alloc::Global;
use std::rc::Rc;
use wd_plan as plan;
use wd_plan::{
    Aggregate, Call, Class, Expr, FrameFunction, Function, Group, Limit, Plan, Shift, Window,
    has_column,
};
use wd_resolve_list::{
    Below, GroupedBy, ProjectedInputs, column_number, expression_number, group_inputs, input_number,
};
use wd_resolve_operand::{BoundExpression, ResolveError};
use wd_resolve_scope::{
    AppliedAggregate, AppliedFunction, GroupCall, OrderKey, Place, RowReference, Scope,
    SelectReference, WindowCall, condition,
};
use wd_syntax as written;
use wd_value::{OutOfMemory, SortColumn};

/// The limits that keep all rows.
const NO_CUT: RowLimit = RowLimit {
    offset: 0,
    count: None,
    ties: false,
};

/// A Filter for WHERE.
pub fn add_filter(
    alloc: Global,
    scope: &Scope,
    filter: &Option<written::Expr>,
    plan: Plan,
) -> Result<Plan, ResolveError>
    ensures { Gives plan_of result (spec.filtered (scope_of scope.now) (view_option filter.now) (plan_of plan)) }
{
    match filter {
        None => Ok(plan),
        Some(tree) => {
            let condition = condition(alloc, scope, Place::Where, tree)?;
            Ok(Plan::Filter {
                input: Box::new(alloc, plan)?,
                condition,
            })
        }
    }
}

/// The aggregate of a plan, over the column of its argument.
fn aggregate_over(
    aggregate: &AppliedAggregate<BoundExpression<RowReference>>,
    inputs: &[BoundExpression<RowReference>],
) -> Aggregate
    requires { length inputs.now ≤ 1024 }
    ensures { result ≡ spec.aggregate_over (input_meant (map row_expression_of inputs.now)) (aggregate_of row_expression_of aggregate.now) }
{
    match aggregate {
        AppliedAggregate::CountRows => Aggregate::CountRows,
        AppliedAggregate::Count(a) => Aggregate::Count(input_number(inputs, &a.expression) as u16),
        AppliedAggregate::Sum(a) => Aggregate::Sum(input_number(inputs, &a.expression) as u16),
        AppliedAggregate::Min(a) => Aggregate::Min(input_number(inputs, &a.expression) as u16),
        AppliedAggregate::Max(a) => Aggregate::Max(input_number(inputs, &a.expression) as u16),
    }
}

/// The function of a plan, over the column of its argument.
fn function_over(function: AppliedFunction, inputs: &[BoundExpression<RowReference>]) -> Function
    requires { length inputs.now ≤ 1024 }
    ensures { result ≡ spec.function_over (map row_expression_of inputs.now) (function_of function) }
{
    match function {
        AppliedFunction::Ranking(ranking) => Function::Ranking(ranking),
        AppliedFunction::Shift {
            direction,
            argument,
            offset,
            default,
        } => Function::Shift(Shift {
            direction,
            argument: input_number(inputs, &argument.expression) as u16,
            offset,
            default,
        }),
        AppliedFunction::ValueAt(row, argument) => Function::OfFrame(FrameFunction::ValueAt(
            row,
            input_number(inputs, &argument.expression) as u16,
        )),
        AppliedFunction::Aggregate(aggregate) => Function::OfFrame(FrameFunction::Aggregate(
            aggregate_over(&aggregate, inputs),
        )),
    }
}

/// The columns of a partition, as numbers of inputs.
fn columns_over(
    alloc: Global,
    inputs: &[BoundExpression<RowReference>],
    expressions: &[BoundExpression<RowReference>],
) -> Result<Vec<u16>, OutOfMemory>
    requires { length inputs.now ≤ 1024 }
    ensures { IfOk result (λ v. v.items ≡ map (input_meant (map row_expression_of inputs.now)) (map row_expression_of expressions.now)) }
{
    let mut columns = Vec::with_capacity(alloc, expressions.len())?;
    for expression in expressions {
        columns.push(input_number(inputs, expression) as u16)?;
    }
    Ok(columns)
}

/// The sort keys of a window, over the inputs.
fn items_over(
    alloc: Global,
    inputs: &[BoundExpression<RowReference>],
    keys: &[OrderKey],
) -> Result<Vec<SortColumn>, OutOfMemory>
    requires { length inputs.now ≤ 1024 }
    ensures { IfOk result (λ v. v.items ≡ map (spec.order_item (map row_expression_of inputs.now)) (map key_of keys.now)) }
{
    let mut items = Vec::with_capacity(alloc, keys.len())?;
    for key in keys {
        items.push(SortColumn {
            column: input_number(inputs, &key.expression) as u16,
            key: key.key,
        })?;
    }
    Ok(items)
}

/// The class of a call: its partition and its sort keys, over the inputs.
fn class_over(
    alloc: Global,
    inputs: &[BoundExpression<RowReference>],
    call: &WindowCall,
) -> Result<Class, OutOfMemory>
    requires { length inputs.now ≤ 1024 }
    ensures { IfOk result (λ c. class_of c ≡ spec.class_over (map row_expression_of inputs.now) (call_of call.now)) }
{
    let partition = columns_over(alloc, inputs, &call.window.partition)?;
    let order = items_over(alloc, inputs, &call.window.order)?;
    Ok(Class { partition, order })
}

fn same_columns(a: &[u16], b: &[u16]) -> bool
    ensures { result ≡ pointwise nat_eq a.now b.now }
{
    if a.len() != b.len() {
        return false;
    }
    for (i, column) in a.iter().enumerate() {
        if *column != b[i] {
            return false;
        }
    }
    true
}

fn same_item(a: SortColumn, b: SortColumn) -> bool
    ensures { result ≡ spec.same_item a b }
{
    a.column == b.column && a.key.desc == b.key.desc && a.key.nulls_first == b.key.nulls_first
}

fn same_items(a: &[SortColumn], b: &[SortColumn]) -> bool
    ensures { result ≡ pointwise spec.same_item a.now b.now }
{
    if a.len() != b.len() {
        return false;
    }
    for (i, item) in a.iter().enumerate() {
        if !same_item(*item, b[i]) {
            return false;
        }
    }
    true
}

fn same_class(a: &Class, b: &Class) -> bool
    ensures { result ≡ spec.same_class (class_of a.now) (class_of b.now) }
{
    same_items(&a.order, &b.order) && same_columns(&a.partition, &b.partition)
}

/// The number of the first equal class in the list, and the length of the list where there is none.
fn class_number(classes: &[Class], class: &Class) -> usize
    ensures number { result ≡ position_or_len (spec.same_class (class_of class.now)) (map class_of classes.now) }
    ensures within { result ≤ length classes.now }
{
    for (number, other) in classes.iter().enumerate() {
        if same_class(class, other) {
            return number;
        }
    }
    classes.len()
}

/// Whether a class is in the list.
#[tactic(auto, using(wd_resolve_list::proofs::FirstMet::any_by_number))]
fn is_known(classes: &[Class], class: &Class) -> bool
    ensures { result ≡ list_any (spec.same_class (class_of class.now)) (map class_of classes.now) }
{
    class_number(classes, class) < classes.len()
}

/// Adds a class, if it is new.
fn add_class(classes: &mut Vec<Class>, class: Class) -> Result<(), OutOfMemory>
    ensures meant { IfOk result (λ u. map class_of classes.new.items ≡ with_new spec.same_class (map class_of classes.old.items) (class_of class ∷ [])) }
    ensures within { IfOk result (λ u. vec_len classes.new ≤ vec_len classes.old + 1) }
{
    if is_known(classes, &class) {
        return Ok(());
    }
    classes.push(class)?;
    Ok(())
}

/// The classes of calls, in the order of their first calls.
fn classes_over(
    alloc: Global,
    inputs: &[BoundExpression<RowReference>],
    calls: &[WindowCall],
) -> Result<Vec<Class>, OutOfMemory>
    requires { length inputs.now ≤ 1024 }
    ensures meant { IfOk result (λ v. map class_of v.items ≡ spec.classes_over (map row_expression_of inputs.now) (map call_of calls.now)) }
    ensures within { IfOk result (λ v. vec_len v ≤ length calls.now) }
{
    let mut classes = Vec::new(alloc);
    for call in calls {
        let class = class_over(alloc, inputs, call)?;
        add_class(&mut classes, class)?;
    }
    Ok(classes)
}

/// A call of a plan: its class, its function and its frame.
fn call_over(
    alloc: Global,
    inputs: &[BoundExpression<RowReference>],
    classes: &[Class],
    call: WindowCall,
) -> Result<Call, OutOfMemory>
    requires few_inputs { length inputs.now ≤ 1024 }
    requires few_classes { length classes.now ≤ 1024 }
    ensures { IfOk result (λ c. c ≡ spec.call_over (map row_expression_of inputs.now) (map class_of classes.now) (call_of call)) }
{
    let class = class_over(alloc, inputs, &call)?;
    let number = class_number(classes, &class) as u16;
    let WindowCall { function, window } = call;
    Ok(Call {
        class: number,
        function: function_over(function, inputs),
        frame: window.frame,
    })
}

/// The calls of a plan.
fn calls_over(
    alloc: Global,
    inputs: &[BoundExpression<RowReference>],
    classes: &[Class],
    calls: Vec<WindowCall>,
) -> Result<Vec<Call>, OutOfMemory>
    requires few_inputs { length inputs.now ≤ 1024 }
    requires few_classes { length classes.now ≤ 1024 }
    ensures { IfOk result (λ v. v.items ≡ map (spec.call_over (map row_expression_of inputs.now) (map class_of classes.now)) (map call_of calls.items)) }
{
    let mut planned = Vec::with_capacity(alloc, calls.len())?;
    for call in calls {
        planned.push(call_over(alloc, inputs, classes, call)?)?;
    }
    Ok(planned)
}

/// A Window over a Map of the inputs, with the calls in order and their classes in the order of their first calls.
fn window_on(
    alloc: Global,
    shown: Vec<Expr>,
    inputs: Vec<BoundExpression<RowReference>>,
    calls: Vec<WindowCall>,
    plan: Plan,
) -> Result<Plan, OutOfMemory>
    requires few_inputs { vec_len inputs ≤ 1024 }
    requires few_calls { vec_len calls ≤ 1024 }
    ensures { IfOk result (λ p. plan_of p ≡ tree.Over (tree.Window (spec.window_over (map row_expression_of inputs.items) (map call_of calls.items))) (tree.Over (tree.Map (map expression_of shown.items)) (plan_of plan))) }
{
    let classes = classes_over(alloc, &inputs, &calls)?;
    let calls = calls_over(alloc, &inputs, &classes, calls)?;
    let inner = Plan::Map {
        input: Box::new(alloc, plan)?,
        outputs: shown,
    };
    Ok(Plan::Window {
        input: Box::new(alloc, inner)?,
        window: Window { classes, calls },
    })
}

/// A Window over a Map of the inputs, if there are window calls.
fn add_window(
    alloc: Global,
    projected: ProjectedInputs,
    below: &Below,
    plan: Plan,
) -> Result<Plan, OutOfMemory>
    requires few_inputs { is_window_wide (projected_shown projected) ≡ false }
    requires few_groups { is_group_wide (below_of below.now).grouped (projected_shown projected).groups ≡ false }
    ensures { IfOk result (λ p. plan_of p ≡ spec.windowed (row_place (below_of below.now).grouped (projected_shown projected).groups) (projected_shown projected).inputs (projected_shown projected).calls (plan_of plan)) }
{
    if projected.calls.is_empty() {
        return Ok(plan);
    }
    let shown = rebase_inputs(alloc, &projected, below)?;
    let ProjectedInputs {
        calls,
        inputs,
        groups: _,
    } = projected;
    window_on(alloc, shown, inputs, calls, plan)
}

/// A set, by the numbers of its columns among those that are grouped by.
fn rebase_set(alloc: Global, columns: &[u16], set: &[u16]) -> Result<Vec<u16>, OutOfMemory>
    requires { length columns.now ≤ 1024 }
    ensures { IfOk result (λ v. v.items ≡ grouping_spec.set_rebased columns.now set.now) }
{
    let mut numbers = Vec::new(alloc);
    for (number, column) in columns.iter().enumerate() {
        if has_column(set, *column) {
            numbers.push(number as u16)?;
        }
    }
    Ok(numbers)
}

/// The sets of a Group.
fn rebase_sets(
    alloc: Global,
    columns: &[u16],
    sets: &[Vec<u16>],
) -> Result<Vec<Vec<u16>>, OutOfMemory>
    requires { length columns.now ≤ 1024 }
    ensures { IfOk result (λ v. sets_of v.items ≡ map (grouping_spec.set_rebased columns.now) (sets_of sets.now)) }
{
    let mut rebased = Vec::with_capacity(alloc, sets.len())?;
    for set in sets {
        rebased.push(rebase_set(alloc, columns, set)?)?;
    }
    Ok(rebased)
}

/// The aggregate of a Group, over the column of its argument.
fn group_aggregate_over(aggregate: &AppliedAggregate<Expr>, inputs: &[Expr]) -> Aggregate
    requires { length inputs.now ≤ 1024 }
    ensures { result ≡ spec.aggregate_over (number_in same_expression (map expression_of inputs.now)) (aggregate_of expression_of aggregate.now) }
{
    match aggregate {
        AppliedAggregate::CountRows => Aggregate::CountRows,
        AppliedAggregate::Count(a) => {
            Aggregate::Count(expression_number(inputs, &a.expression) as u16)
        }
        AppliedAggregate::Sum(a) => Aggregate::Sum(expression_number(inputs, &a.expression) as u16),
        AppliedAggregate::Min(a) => Aggregate::Min(expression_number(inputs, &a.expression) as u16),
        AppliedAggregate::Max(a) => Aggregate::Max(expression_number(inputs, &a.expression) as u16),
    }
}

/// The numbers of columns among those that are grouped by.
fn column_numbers(
    alloc: Global,
    columns: &[u16],
    arguments: &[u16],
) -> Result<Vec<u16>, OutOfMemory>
    requires { length columns.now ≤ 1024 }
    ensures { IfOk result (λ v. v.items ≡ map (number_in nat_eq columns.now) arguments.now) }
{
    let mut numbers = Vec::with_capacity(alloc, arguments.len())?;
    for argument in arguments {
        numbers.push(column_number(columns, *argument) as u16)?;
    }
    Ok(numbers)
}

/// A call over groups, over the columns that are grouped by, followed by the arguments.
fn group_call_over(
    alloc: Global,
    columns: &[u16],
    inputs: &[Expr],
    call: &GroupCall,
) -> Result<plan::GroupCall, OutOfMemory>
    requires few_columns { length columns.now ≤ 1024 }
    requires few_inputs { length inputs.now ≤ 1024 }
    ensures { IfOk result (λ c. plan_call_of c ≡ spec.group_call_over columns.now (map expression_of inputs.now) (group_call_of call.now)) }
{
    match call {
        GroupCall::OfRows(aggregate) => Ok(plan::GroupCall::OfRows(group_aggregate_over(
            aggregate, inputs,
        ))),
        GroupCall::Grouping(arguments) => {
            let numbers = column_numbers(alloc, columns, arguments)?;
            Ok(plan::GroupCall::Grouping(numbers))
        }
    }
}

/// The calls of a Group.
fn group_calls_over(
    alloc: Global,
    columns: &[u16],
    inputs: &[Expr],
    calls: &[Rc<GroupCall>],
) -> Result<Vec<plan::GroupCall>, OutOfMemory>
    requires few_columns { length columns.now ≤ 1024 }
    requires few_inputs { length inputs.now ≤ 1024 }
    ensures { IfOk result (λ v. map plan_call_of v.items ≡ map (spec.group_call_over columns.now (map expression_of inputs.now)) (map shared_call calls.now)) }
{
    let mut planned = Vec::with_capacity(alloc, calls.len())?;
    for call in calls {
        planned.push(group_call_over(alloc, columns, inputs, call)?)?;
    }
    Ok(planned)
}

/// The Group of a grouped select, over its Map.
#[tactic(auto, using(wd_resolve_list::proofs::Narrow::few_groups))]
fn group_on(
    alloc: Global,
    grouped: &GroupedBy,
    calls: &[Rc<GroupCall>],
    plan: Plan,
) -> Result<Plan, OutOfMemory>
    requires { is_group_wide (Some (grouped_by_of grouped.now)) (map shared_call calls.now) ≡ false }
    ensures { IfOk result (λ p. plan_of p ≡ spec.group_on (grouped_by_of grouped.now) (map shared_call calls.now) (plan_of plan)) }
{
    let inputs = group_inputs(alloc, &grouped.columns, calls)?;
    let group = Group {
        columns: grouped.columns.len() as u16,
        sets: rebase_sets(alloc, &grouped.columns, &grouped.sets)?,
        calls: group_calls_over(alloc, &grouped.columns, &inputs, calls)?,
    };
    let inner = Plan::Map {
        input: Box::new(alloc, plan)?,
        outputs: inputs,
    };
    Ok(Plan::Group {
        input: Box::new(alloc, inner)?,
        group,
    })
}

/// A Filter over the Group for HAVING.
fn having_on(
    alloc: Global,
    projected: &ProjectedInputs,
    below: &Below,
    plan: Plan,
) -> Result<Plan, OutOfMemory>
    requires { is_group_wide (below_of below.now).grouped (projected_shown projected.now).groups ≡ false }
    ensures { IfOk result (λ p. plan_of p ≡ spec.having_on (row_place (below_of below.now).grouped (projected_shown projected.now).groups) (below_of below.now).having (plan_of plan)) }
{
    let Some(condition) = &below.having else {
        return Ok(plan);
    };
    let condition = rebase_row(alloc, projected, below, condition)?;
    Ok(Plan::Filter {
        input: Box::new(alloc, plan)?,
        condition,
    })
}

/// In a grouped select the Group over its Map, and a Filter for HAVING.
fn add_group(
    alloc: Global,
    projected: &ProjectedInputs,
    below: &Below,
    plan: Plan,
) -> Result<Plan, OutOfMemory>
    requires { is_group_wide (below_of below.now).grouped (projected_shown projected.now).groups ≡ false }
    ensures { IfOk result (λ p. plan_of p ≡ spec.grouped_on (below_of below.now) (projected_shown projected.now).groups (plan_of plan)) }
{
    let Some(grouped) = &below.grouped else {
        return Ok(plan);
    };
    let plan = group_on(alloc, grouped, &projected.groups, plan)?;
    having_on(alloc, projected, below, plan)
}

/// A Map of the expressions, over what is below them.
pub fn add_map(
    alloc: Global,
    projected: ProjectedInputs,
    below: &Below,
    expressions: Vec<BoundExpression<SelectReference>>,
    plan: Plan,
) -> Result<Plan, OutOfMemory>
    requires few_inputs { is_window_wide (projected_shown projected) ≡ false }
    requires few_groups { is_group_wide (below_of below.now).grouped (projected_shown projected).groups ≡ false }
    ensures { IfOk result (λ p. plan_of p ≡ spec.mapped_over (row_place (below_of below.now).grouped (projected_shown projected).groups) (projected_shown projected) (map bound_expression_of expressions.items) (spec.grouped_on (below_of below.now) (projected_shown projected).groups (plan_of plan))) }
{
    let outputs = rebase_all(alloc, &projected, below, &expressions)?;
    let plan = add_group(alloc, &projected, below, plan)?;
    let below = add_window(alloc, projected, below, plan)?;
    Ok(Plan::Map {
        input: Box::new(alloc, below)?,
        outputs,
    })
}

/// A Distinct for DISTINCT.
pub fn add_distinct(alloc: Global, distinct: bool, plan: Plan) -> Result<Plan, OutOfMemory>
    ensures { IfOk result (λ p. plan_of p ≡ spec.deduplicated distinct (plan_of plan)) }
{
    if distinct {
        Ok(Plan::Distinct {
            input: Box::new(alloc, plan)?,
        })
    } else {
        Ok(plan)
    }
}

/// A Limit for ORDER BY, OFFSET or a count.
pub fn add_limit(
    alloc: Global,
    keys: Vec<SortColumn>,
    row_limit: Option<RowLimit>,
    plan: Plan,
) -> Result<Plan, OutOfMemory>
    ensures { IfOk result (λ p. plan_of p ≡ spec.limited keys.items (option_map row_limit_of row_limit) (plan_of plan)) }
{
    let row_limit = match row_limit {
        Some(row_limit) => row_limit,
        None if keys.is_empty() => return Ok(plan),
        None => NO_CUT,
    };
    let limit = Limit {
        keys,
        offset: row_limit.offset,
        count: row_limit.count,
        ties: row_limit.ties,
    };
    Ok(Plan::Limit {
        input: Box::new(alloc, plan)?,
        limit,
    })
}

/// The first `count` columns.
fn first_columns(alloc: Global, count: usize) -> Result<Vec<Expr>, OutOfMemory>
    requires { count ≤ 1024 }
    ensures { IfOk result (λ v. map expression_of v.items ≡ spec.columns_from 0 count) }
{
    let mut columns = Vec::with_capacity(alloc, count)?;
    for number in 0..count {
        columns.push(Expr::Column(number as u16))?;
    }
    Ok(columns)
}

/// A Map that drops the hidden sort keys after the outputs, if there are any.
pub fn drop_hidden(
    alloc: Global,
    outputs: usize,
    hidden: usize,
    plan: Plan,
) -> Result<Plan, OutOfMemory>
    requires { outputs ≤ 1024 }
    ensures { IfOk result (λ p. plan_of p ≡ spec.without_hidden outputs hidden (plan_of plan)) }
{
    if hidden == 0 {
        return Ok(plan);
    }
    let columns = first_columns(alloc, outputs)?;
    Ok(Plan::Map {
        input: Box::new(alloc, plan)?,
        outputs: columns,
    })
}
