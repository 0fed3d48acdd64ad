//! The table columns from which the columns of a class or the keys of a limit are computed.

ghost use Rattle.std.specs.Prelude.{◌≡◌, ◌<◌, ◌≤◌, ◌+◌, ◌||◌, ℕ, true, [], drop, length, map, option_to_list, slice_index_or, take, IfOk};
ghost use Rattle.std.specs.Result.{result_map_both};
ghost use Rattle.wd_candidates.specs.Marks.{MarkMore, MarksMore, is_marked};
ghost use Rattle.wd_candidates.specs.Nodes.{AreNarrow, found};
ghost use Rattle.wd_candidates.specs.Nodes as nodes;
ghost use Rattle.wd_candidates.specs.Origins.{call_columns, group_call_columns, group_columns, is_in_wanted, is_source};
ghost use Rattle.wd_candidates.specs.Outlines.{AreTied, AreTiedBy, tied_in};
ghost use Rattle.wd_candidates.specs.Tied.{of_call, ordered_at, ordered_by};
ghost use Rattle.wd_facts.specs.Given.{table_rule};
ghost use Rattle.wd_step_facts.specs.Steps.{used};
ghost use Rattle.wd_plan.specs.Expressions.{expression_of};
ghost use Rattle.wd_plan.specs.Fits.{fits, width};
ghost use Rattle.wd_plan.specs.Outcomes.{class_at};
ghost use Rattle.wd_plan.specs.Plans.{group_call_of, grouping_of, plan_of, window_of, has};
ghost use Rattle.wd_plan.specs.Sorting.{class_columns};
ghost use Rattle.wd_schema.specs.Schemas.{schema_of};
ghost use Rattle.wd_value.specs.Keys.{key_columns};

use crate::marks::{
    is_marked, mark_argument, mark_class, mark_keys, mark_table, mark_used, no_marks,
    unmarked_tables,
};
use std::alloc::Global;
use wd_plan::{Call, Expr, FrameFunction, Function, Group, GroupCall, Plan, Window};
use wd_schema::Schema;
use wd_value::{OutOfMemory, SortColumn};

/// The tied columns: for each table of the schema a mark for each of its columns.
#[derive(Drop)]
pub struct TiedColumns {
    pub tables: Vec<Vec<bool>>,
}

/// The table columns from which a call's ordering columns are computed, or a limit's where `call` is `None`; the call or limit is at
/// the node with number `node` in postorder. `None` where the plan has no such call or limit.
pub fn tied_columns(
    alloc: Global,
    schema: &Schema,
    plan: &Plan,
    node: u64,
    call: Option<u32>,
) -> Result<Option<TiedColumns>, OutOfMemory>
    requires { fits (schema_of schema.now) (plan_of plan.now) ≡ true }
    ensures { IfOk result (AreTiedBy (schema_of schema.now) (ordered_by (plan_of plan.now) node call)) }
{
    match find_node(plan, node) {
        Ok(found) => ties_at(alloc, schema, found, call),
        Err(_) => Ok(None),
    }
}

/// The node with a number in postorder; past the last node, the number minus the number of nodes.
fn find_node(plan: &Plan, number: u64) -> Result<&Plan, u64>
    ensures { result_map_both (λ node. plan_of node.now) (λ left. left) result ≡ found (plan_of plan.now) number }
{
    match plan {
        Plan::Scan { .. } => or_own(plan, Err(number)),
        Plan::Join { left, right, .. } => match find_node(left, number) {
            Ok(node) => Ok(node),
            Err(more) => or_own(plan, find_node(right, more)),
        },
        Plan::Filter { input, .. }
        | Plan::Map { input, .. }
        | Plan::Group { input, .. }
        | Plan::Window { input, .. }
        | Plan::Distinct { input }
        | Plan::Limit { input, .. } => or_own(plan, find_node(input, number)),
    }
}

/// The node that was found below, or this node itself, where 0 is left of the number.
fn or_own<'a>(plan: &'a Plan, below: Result<&'a Plan, u64>) -> Result<&'a Plan, u64>
    ensures { result_map_both (λ node. plan_of node.now) (λ left. left) result ≡ nodes.or_own (plan_of plan.now) (result_map_both (λ node. plan_of node.now) (λ left. left) below.entry) }
{
    match below {
        Ok(node) => Ok(node),
        Err(0) => Ok(plan),
        Err(more) => Err(more - 1),
    }
}

/// The tied columns of a node's call or limit.
fn ties_at(
    alloc: Global,
    schema: &Schema,
    plan: &Plan,
    call: Option<u32>,
) -> Result<Option<TiedColumns>, OutOfMemory>
    requires { AreNarrow (plan_of plan.now) }
    ensures { IfOk result (AreTiedBy (schema_of schema.now) (ordered_at call (plan_of plan.now))) }
{
    match (plan, call) {
        (Plan::Window { input, window }, Some(number)) => {
            ties_of_call(alloc, schema, input, window, number)
        }
        (Plan::Limit { input, limit }, None) => {
            let tied = ties_of_keys(alloc, schema, input, &limit.keys)?;
            Ok(Some(tied))
        }
        _ => Ok(None),
    }
}

/// The tied columns of a Window's call with this number.
fn ties_of_call(
    alloc: Global,
    schema: &Schema,
    input: &Plan,
    window: &Window,
    number: u32,
) -> Result<Option<TiedColumns>, OutOfMemory>
    requires { AreNarrow (plan_of input.now) }
    ensures { IfOk result (AreTiedBy (schema_of schema.now) (of_call (window_of window.now) (plan_of input.now) (Some number))) }
{
    match window.calls.get(number as usize) {
        Some(call) => {
            let tied = ties_of_class(alloc, schema, input, window, call)?;
            Ok(Some(tied))
        }
        None => Ok(None),
    }
}

/// The table columns from which the columns of a call's class are computed.
fn ties_of_class(
    alloc: Global,
    schema: &Schema,
    input: &Plan,
    window: &Window,
    call: &Call,
) -> Result<TiedColumns, OutOfMemory>
    requires { AreNarrow (plan_of input.now) }
    ensures { IfOk result (AreTied (schema_of schema.now) (record { node = plan_of input.now; columns = class_columns (class_at (window_of window.now) call.now.class) })) }
{
    let mut wanted = no_marks(alloc, input.width() as usize)?;
    mark_class_of(&mut wanted, window, call);
    let tied = ties_of(alloc, schema, input, &wanted)?;
    Ok(tied)
}

/// The table columns from which the columns of sort keys are computed.
fn ties_of_keys(
    alloc: Global,
    schema: &Schema,
    input: &Plan,
    keys: &[SortColumn],
) -> Result<TiedColumns, OutOfMemory>
    requires { AreNarrow (plan_of input.now) }
    ensures { IfOk result (AreTied (schema_of schema.now) (record { node = plan_of input.now; columns = key_columns keys.now })) }
{
    let mut wanted = no_marks(alloc, input.width() as usize)?;
    mark_keys(&mut wanted, keys);
    let tied = ties_of(alloc, schema, input, &wanted)?;
    Ok(tied)
}

/// The table columns from which the wanted columns of a node are computed.
fn ties_of(
    alloc: Global,
    schema: &Schema,
    plan: &Plan,
    wanted: &[bool],
) -> Result<TiedColumns, OutOfMemory>
    requires narrow { AreNarrow (plan_of plan.now) }
    requires long { length wanted.now ≡ width (plan_of plan.now) }
    ensures { IfOk result (λ t. (table c : ℕ) → c < length (table_rule (schema_of schema.now) table).columns → tied_in t table c ≡ is_source (plan_of plan.now) (is_marked wanted.now) table c) }
{
    let mut tables = unmarked_tables(alloc, schema)?;
    mark_sources(alloc, plan, wanted, &mut tables)?;
    Ok(TiedColumns { tables })
}

/// Marks the table columns from which the wanted columns of a node are computed.
fn mark_sources(
    alloc: Global,
    plan: &Plan,
    wanted: &[bool],
    tables: &mut [Vec<bool>],
) -> Result<(), OutOfMemory>
    requires narrow { AreNarrow (plan_of plan.now) }
    requires long { length wanted.now ≡ width (plan_of plan.now) }
    ensures { IfOk result (λ _. MarkMore tables.old (is_source (plan_of plan.now) (is_marked wanted.now)) tables.new) }
{
    match plan {
        Plan::Scan { table, .. } => {
            mark_table(tables, *table, wanted);
            Ok(())
        }
        Plan::Join { left, right, .. } => {
            let (of_left, of_right) = split_wanted(left, wanted);
            mark_sources(alloc, left, of_left, tables)?;
            mark_sources(alloc, right, of_right, tables)?;
            Ok(())
        }
        Plan::Filter { input, .. } | Plan::Distinct { input } | Plan::Limit { input, .. } => {
            mark_sources(alloc, input, wanted, tables)?;
            Ok(())
        }
        Plan::Map { input, outputs } => {
            let used = uses_of_outputs(alloc, input, outputs, wanted)?;
            mark_sources(alloc, input, &used, tables)?;
            Ok(())
        }
        Plan::Group { input, group } => {
            let used = uses_of_groups(alloc, input, group, wanted)?;
            mark_sources(alloc, input, &used, tables)?;
            Ok(())
        }
        Plan::Window { input, window } => {
            let used = uses_of_calls(alloc, input, window, wanted)?;
            mark_sources(alloc, input, &used, tables)?;
            Ok(())
        }
    }
}

/// The marks of a Join's or a Window's wanted columns, split into those of its first input and the rest.
fn split_wanted<'a>(input: &Plan, wanted: &'a [bool]) -> (&'a [bool], &'a [bool])
    requires narrow { AreNarrow (plan_of input.now) }
    requires long { width (plan_of input.now) ≤ length wanted.now }
    ensures front { result.0.now ≡ take (width (plan_of input.now)) wanted.now }
    ensures back { result.1.now ≡ drop (width (plan_of input.now)) wanted.now }
{
    wanted.split_at(input.width() as usize)
}

/// The columns of a Map's input that its wanted outputs use.
fn uses_of_outputs(
    alloc: Global,
    input: &Plan,
    outputs: &[Expr],
    wanted: &[bool],
) -> Result<Vec<bool>, OutOfMemory>
    requires { AreNarrow (plan_of input.now) }
    ensures long { IfOk result (λ v. length v.items ≡ width (plan_of input.now)) }
    ensures used { IfOk result (λ v. (c : ℕ) → c < width (plan_of input.now) → is_marked v.items c ≡ is_in_wanted (map used (map expression_of outputs.now)) (is_marked wanted.now) c) }
{
    let mut marks = no_marks(alloc, input.width() as usize)?;
    mark_outputs(&mut marks, outputs, wanted);
    Ok(marks)
}

/// Marks the columns that the wanted outputs use.
fn mark_outputs(marks: &mut [bool], outputs: &[Expr], wanted: &[bool])
    ensures { MarksMore marks.old (is_in_wanted (map used (map expression_of outputs.now)) (is_marked wanted.now)) marks.new }
{
    for number in 0..outputs.len() {
        if is_marked(wanted, number) {
            mark_used(marks, &outputs[number]);
        }
    }
}

/// The columns of a Group's input from which its wanted columns are computed.
fn uses_of_groups(
    alloc: Global,
    input: &Plan,
    group: &Group,
    wanted: &[bool],
) -> Result<Vec<bool>, OutOfMemory>
    requires narrow { AreNarrow (plan_of input.now) }
    requires few { (grouping_of group.now).columns + length (grouping_of group.now).calls ≤ 1024 }
    ensures long { IfOk result (λ v. length v.items ≡ width (plan_of input.now)) }
    ensures used { IfOk result (λ v. (c : ℕ) → c < width (plan_of input.now) → is_marked v.items c ≡ is_in_wanted (group_columns (grouping_of group.now)) (is_marked wanted.now) c) }
{
    let mut marks = no_marks(alloc, input.width() as usize)?;
    mark_groups(&mut marks, group, wanted);
    Ok(marks)
}

/// Marks the columns from which the wanted columns of a Group are computed.
fn mark_groups(marks: &mut [bool], group: &Group, wanted: &[bool])
    requires { (grouping_of group.now).columns + length (grouping_of group.now).calls ≤ 1024 }
    ensures { MarksMore marks.old (is_in_wanted (group_columns (grouping_of group.now)) (is_marked wanted.now)) marks.new }
{
    for number in 0..usize::from(group.columns) + group.calls.len() {
        if is_marked(wanted, number) {
            mark_argument(marks, column_of_group(group, number));
        }
    }
}

/// The column from which a column of a Group is computed, if there is one.
fn column_of_group(group: &Group, number: usize) -> Option<u16>
    requires { number < group.now.columns + length group.now.calls.items }
    ensures { option_to_list result ≡ slice_index_or (group_columns (grouping_of group.now)) number [] }
{
    let columns = usize::from(group.columns);
    if number < columns {
        Some(number as u16)
    } else {
        argument_of(&group.calls[number - columns])
    }
}

/// The argument of an aggregate that has one.
fn argument_of(call: &GroupCall) -> Option<u16>
    ensures { option_to_list result ≡ group_call_columns (group_call_of call.now) }
{
    match call {
        GroupCall::OfRows(aggregate) => {
            Function::OfFrame(FrameFunction::Aggregate(*aggregate)).argument()
        }
        GroupCall::Grouping(_) => None,
    }
}

/// The columns of a Window's input that are wanted, or that its wanted calls are computed from.
fn uses_of_calls(
    alloc: Global,
    input: &Plan,
    window: &Window,
    wanted: &[bool],
) -> Result<Vec<bool>, OutOfMemory>
    requires narrow { AreNarrow (plan_of input.now) }
    requires long { length wanted.now ≡ width (plan_of input.now) + length (window_of window.now).calls }
    ensures long { IfOk result (λ v. length v.items ≡ width (plan_of input.now)) }
    ensures used { IfOk result (λ v. (c : ℕ) → c < width (plan_of input.now) → is_marked v.items c ≡ (is_marked wanted.now c || is_in_wanted (map (call_columns (window_of window.now)) (window_of window.now).calls) (λ call. is_marked wanted.now (width (plan_of input.now) + call)) c)) }
{
    let (passed, of_calls) = split_wanted(input, wanted);
    let mut marks = Vec::from_slice(alloc, passed)?;
    mark_calls(&mut marks, window, of_calls);
    Ok(marks)
}

/// Marks the columns that the wanted calls are computed from.
fn mark_calls(marks: &mut [bool], window: &Window, wanted: &[bool])
    ensures { MarksMore marks.old (is_in_wanted (map (call_columns (window_of window.now)) (window_of window.now).calls) (is_marked wanted.now)) marks.new }
{
    for number in 0..window.calls.len() {
        if is_marked(wanted, number) {
            mark_call(marks, window, &window.calls[number]);
        }
    }
}

/// Marks the columns that a call is computed from: its argument, and those of its class.
fn mark_call(marks: &mut [bool], window: &Window, call: &Call)
    ensures { MarksMore marks.old (λ c. has (call_columns (window_of window.now) call.now) c) marks.new }
{
    mark_argument(marks, call.function.argument());
    mark_class_of(marks, window, call);
}

/// Marks the columns of a call's class.
fn mark_class_of(marks: &mut [bool], window: &Window, call: &Call)
    ensures { MarksMore marks.old (λ c. has (class_columns (class_at (window_of window.now) call.now.class)) c) marks.new }
{
    if let Some(class) = window.classes.get(usize::from(call.class)) {
        mark_class(marks, class);
    }
}
