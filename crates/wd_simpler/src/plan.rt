//! A plan without what nothing reads.

ghost use Rattle.std.specs.Prelude.{◌≡◌, ◌+◌, ◌<◌, ◌≤◌, ◌^◌, ℕ, true, length, map, option_map, IfOk, flat_map, Some};
ghost use Rattle.wd_plan.specs.Expressions.{expression_of};
ghost use Rattle.wd_plan.specs.Fits.{fits, width};
ghost use Rattle.wd_plan.specs.Plans.{group_call_of, grouping_of, has, limit_of, plan_of, window_of};
ghost use Rattle.wd_plan.specs.Plans as nodes;
ghost use Rattle.wd_schema.specs.Schemas.{schema_of};
ghost use Rattle.wd_simpler.specs.OwnPlace as peers;
ghost use Rattle.wd_simpler.specs.Sets.{HasAlso, read_of};
ghost use Rattle.wd_simpler.specs.Simpler as spec;
ghost use Rattle.wd_step_facts.specs.Steps.{used};
ghost use Rattle.wd_value.specs.Keys.{key_columns};

use crate::columns::{
    add_all_used, add_arguments, add_classes, add_first, add_group_arguments, add_keys, add_used,
};
use crate::keyed::{keyed_limit, keyed_window};
use crate::unmet::{is_empty, is_unmet, read_condition, takes_none};
use std::alloc::Global;
use wd_facts::Member;
use wd_plan::{
    Aggregate, Bound, Call, Exclusion, Expr, Frame, FrameFunction, FrameMode, Function, Group,
    GroupCall, Limit, Plan, ValueKind, Window,
};
use wd_schema::Schema;
use wd_sets::Set;
use wd_value::{OutOfMemory, Value};

/// The plan with NULL for outputs, and COUNT(*) for calls, that no step above reads and that can't fault; with FALSE for conditions that
/// no row meets; with Limits that need no order where there are no rows; and with each sort key followed by the column that it is
/// computed from.
///
/// For both plans the same choices are valid, and both have the same outcome under each of them ([`crate::laws::simpler_is_alike`]). The
/// plan has to fit the schema.
pub fn simpler(alloc: Global, schema: &Schema, plan: Plan) -> Result<Plan, OutOfMemory>
    requires { fits (schema_of schema.now) (plan_of plan) ≡ true }
    ensures { IfOk result (λ p. plan_of p ≡ spec.simpler (schema_of schema.now) (plan_of plan)) }
{
    narrow_plan(alloc, schema, plan, None)
}

/// The simpler plan of which only these columns are read.
#[cycle(narrow)]
fn narrow_plan(
    alloc: Global,
    schema: &Schema,
    plan: Plan,
    read: Option<Set>,
) -> Result<Plan, OutOfMemory>
    requires { fits (schema_of schema.now) (plan_of plan) ≡ true }
    ensures { IfOk result (λ p. plan_of p ≡ spec.narrowed (schema_of schema.now) (plan_of plan) (read_of read)) }
{
    match plan {
        Plan::Scan { table, columns } => Ok(Plan::Scan { table, columns }),
        Plan::Join {
            left,
            right,
            condition,
        } => narrow_join(alloc, schema, left, right, condition, read),
        Plan::Filter { input, condition } => narrow_filter(alloc, schema, input, condition, read),
        Plan::Map { input, outputs } => narrow_map(alloc, schema, input, outputs, &read),
        Plan::Group { input, group } => narrow_group(alloc, schema, input, group, &read),
        Plan::Window { input, window } => narrow_window(alloc, schema, input, window, read),
        Plan::Distinct { input } => {
            let input = narrow_input(alloc, schema, input, None)?;
            Ok(Plan::Distinct { input })
        }
        Plan::Limit { input, limit } => narrow_limit(alloc, schema, input, limit, read),
    }
}

/// The simpler plan below a step.
#[cycle(narrow)]
fn narrow_input(
    alloc: Global,
    schema: &Schema,
    input: Box<Plan>,
    read: Option<Set>,
) -> Result<Box<Plan>, OutOfMemory>
    requires { fits (schema_of schema.now) (plan_of input.value) ≡ true }
    ensures { IfOk result (λ p. plan_of p.value ≡ spec.narrowed (schema_of schema.now) (plan_of input.value) (read_of read)) }
{
    let input = narrow_plan(alloc, schema, Box::into_inner(input), read)?;
    Ok(Box::new(alloc, input)?)
}

/// The Join of simpler plans.
#[cycle(narrow)]
fn narrow_join(
    alloc: Global,
    schema: &Schema,
    left: Box<Plan>,
    right: Box<Plan>,
    condition: Option<Expr>,
    read: Option<Set>,
) -> Result<Plan, OutOfMemory>
    requires { fits (schema_of schema.now) (nodes.Join (option_map expression_of condition) (plan_of left.value) (plan_of right.value)) ≡ true }
    ensures { IfOk result (λ p. plan_of p ≡ spec.narrowed (schema_of schema.now) (nodes.Join (option_map expression_of condition) (plan_of left.value) (plan_of right.value)) (read_of read)) }
{
    let more = with_condition(read, &condition)?;
    let beside = right_of(alloc, &more, left.width(), right.width())?;
    let left = narrow_input(alloc, schema, left, more)?;
    let right = narrow_input(alloc, schema, right, beside)?;
    Ok(Plan::Join {
        left,
        right,
        condition,
    })
}

/// The Filter over the simpler plan; with FALSE for a condition that no row meets.
#[cycle(narrow)]
fn narrow_filter(
    alloc: Global,
    schema: &Schema,
    input: Box<Plan>,
    condition: Expr,
    read: Option<Set>,
) -> Result<Plan, OutOfMemory>
    requires { fits (schema_of schema.now) (nodes.Over (nodes.Filter (expression_of condition)) (plan_of input.value)) ≡ true }
    ensures { IfOk result (λ p. plan_of p ≡ spec.narrowed (schema_of schema.now) (nodes.Over (nodes.Filter (expression_of condition)) (plan_of input.value)) (read_of read)) }
{
    let unmet = is_unmet(schema, &input, &condition);
    let condition = read_condition(unmet, condition);
    let more = with_used(kept_reads(alloc, unmet, read), &condition)?;
    let input = narrow_input(alloc, schema, input, more)?;
    Ok(Plan::Filter { input, condition })
}

/// The Map of the outputs that are read, over the simpler plan.
#[cycle(narrow)]
fn narrow_map(
    alloc: Global,
    schema: &Schema,
    input: Box<Plan>,
    outputs: Vec<Expr>,
    read: &Option<Set>,
) -> Result<Plan, OutOfMemory>
    requires { fits (schema_of schema.now) (nodes.Over (nodes.Map (map expression_of outputs.items)) (plan_of input.value)) ≡ true }
    ensures { IfOk result (λ p. plan_of p ≡ spec.narrowed (schema_of schema.now) (nodes.Over (nodes.Map (map expression_of outputs.items)) (plan_of input.value)) (read_of read.now)) }
{
    let outputs = read_outputs(alloc, read, outputs)?;
    let below = uses_of(alloc, &outputs)?;
    let input = narrow_input(alloc, schema, input, below)?;
    Ok(Plan::Map { input, outputs })
}

/// The Group with the calls that are read, over the simpler plan.
#[cycle(narrow)]
fn narrow_group(
    alloc: Global,
    schema: &Schema,
    input: Box<Plan>,
    group: Group,
    read: &Option<Set>,
) -> Result<Plan, OutOfMemory>
    requires { fits (schema_of schema.now) (nodes.Over (nodes.Group (grouping_of group)) (plan_of input.value)) ≡ true }
    ensures { IfOk result (λ p. plan_of p ≡ spec.narrowed (schema_of schema.now) (nodes.Over (nodes.Group (grouping_of group)) (plan_of input.value)) (read_of read.now)) }
{
    let group = read_group(alloc, read, group)?;
    let below = read_by_group(alloc, &group)?;
    let input = narrow_input(alloc, schema, input, below)?;
    Ok(Plan::Group { input, group })
}

/// The Window with the calls that are read, over the simpler plan.
#[cycle(narrow)]
fn narrow_window(
    alloc: Global,
    schema: &Schema,
    input: Box<Plan>,
    window: Window,
    read: Option<Set>,
) -> Result<Plan, OutOfMemory>
    requires { fits (schema_of schema.now) (nodes.Over (nodes.Window (window_of window)) (plan_of input.value)) ≡ true }
    ensures { IfOk result (λ p. plan_of p ≡ spec.narrowed (schema_of schema.now) (nodes.Over (nodes.Window (window_of window)) (plan_of input.value)) (read_of read)) }
{
    let none = is_empty(schema, &input);
    let window = keyed_window(alloc, schema, &input, window)?;
    let window = read_window(alloc, none, &read, input.width(), window)?;
    let more = with_window(read, &window)?;
    let input = narrow_input(alloc, schema, input, more)?;
    Ok(Plan::Window { input, window })
}

/// The Limit over the simpler plan.
#[cycle(narrow)]
fn narrow_limit(
    alloc: Global,
    schema: &Schema,
    input: Box<Plan>,
    limit: Limit,
    read: Option<Set>,
) -> Result<Plan, OutOfMemory>
    requires { fits (schema_of schema.now) (nodes.Over (nodes.Limit (limit_of limit)) (plan_of input.value)) ≡ true }
    ensures { IfOk result (λ p. plan_of p ≡ spec.narrowed (schema_of schema.now) (nodes.Over (nodes.Limit (limit_of limit)) (plan_of input.value)) (read_of read)) }
{
    let none = is_empty(schema, &input);
    let limit = keyed_limit(alloc, schema, &input, limit)?;
    let more = with_keys(kept_reads(alloc, takes_none(&limit), read), &limit)?;
    let input = narrow_input(alloc, schema, input, more)?;
    Ok(Plan::Limit {
        input,
        limit: read_limit(none, limit),
    })
}

// ---- what is read below a step

/// Whether a column is read.
fn is_read(read: &Option<Set>, column: u16) -> bool
    ensures { result ≡ read_of read.now column }
{
    match read {
        None => true,
        Some(set) => set.contains(Member::Column(column)),
    }
}

/// What is read of rows of which a step keeps some; nothing where it keeps none.
fn kept_reads(alloc: Global, is_none: bool, read: Option<Set>) -> Option<Set>
    ensures { (c : ℕ) → read_of result c ≡ spec.kept_reads is_none (read_of read) c }
{
    if is_none { Some(Set::new(alloc)) } else { read }
}

/// What is read below a Filter.
fn with_used(read: Option<Set>, condition: &Expr) -> Result<Option<Set>, OutOfMemory>
    ensures { IfOk result (λ o. (c : ℕ) → read_of o c ≡ spec.and_also (read_of read) (used (expression_of condition.now)) c) }
{
    match read {
        None => Ok(None),
        Some(set) => {
            let mut set = set;
            add_used(&mut set, condition)?;
            Ok(Some(set))
        }
    }
}

/// What is read below a Join, of the columns of both sides.
fn with_condition(read: Option<Set>, condition: &Option<Expr>) -> Result<Option<Set>, OutOfMemory>
    ensures { IfOk result (λ o. (c : ℕ) → read_of o c ≡ spec.and_also (read_of read) (spec.condition_reads (option_map expression_of condition.now)) c) }
{
    match condition {
        None => Ok(read),
        Some(condition) => with_used(read, condition),
    }
}

/// What is read of the right side of a Join, by the numbers of its own columns.
fn right_of(
    alloc: Global,
    read: &Option<Set>,
    first: u32,
    count: u32,
) -> Result<Option<Set>, OutOfMemory>
    requires { first + count < 65536 }
    ensures { IfOk result (λ o. (c : ℕ) → c < count → read_of o c ≡ spec.after first (read_of read.now) c) }
{
    let Some(set) = read else {
        return Ok(None);
    };
    let mut beside = Set::new(alloc);
    for column in 0..count {
        if set.contains(Member::Column((first + column) as u16)) {
            beside.insert(Member::Column(column as u16))?;
        }
    }
    Ok(Some(beside))
}

/// What is read below a Map.
fn uses_of(alloc: Global, outputs: &[Expr]) -> Result<Option<Set>, OutOfMemory>
    ensures { IfOk result (λ o. (c : ℕ) → read_of o c ≡ has (flat_map used (map expression_of outputs.now)) c) }
{
    let mut set = Set::new(alloc);
    add_all_used(&mut set, outputs)?;
    Ok(Some(set))
}

/// What is read below a Group.
fn read_by_group(alloc: Global, group: &Group) -> Result<Option<Set>, OutOfMemory>
    ensures { IfOk result (λ o. (c : ℕ) → read_of o c ≡ has (spec.group_reads (grouping_of group.now)) c) }
{
    let mut set = Set::new(alloc);
    add_first(&mut set, group.columns)?;
    add_group_arguments(&mut set, &group.calls)?;
    Ok(Some(set))
}

/// What is read below a Window.
fn with_window(read: Option<Set>, window: &Window) -> Result<Option<Set>, OutOfMemory>
    ensures { IfOk result (λ o. (c : ℕ) → read_of o c ≡ spec.and_also (read_of read) (spec.window_reads (window_of window.now)) c) }
{
    match read {
        None => Ok(None),
        Some(set) => {
            let mut set = set;
            add_classes(&mut set, &window.classes)?;
            add_arguments(&mut set, &window.calls)?;
            Ok(Some(set))
        }
    }
}

/// What is read below a Limit.
fn with_keys(read: Option<Set>, limit: &Limit) -> Result<Option<Set>, OutOfMemory>
    ensures { IfOk result (λ o. (c : ℕ) → read_of o c ≡ spec.and_also (read_of read) (key_columns (limit_of limit.now).keys) c) }
{
    match read {
        None => Ok(None),
        Some(set) => {
            let mut set = set;
            add_keys(&mut set, &limit.keys)?;
            Ok(Some(set))
        }
    }
}

// ---- the steps

/// The outputs, with NULL for those that are not read and can't fault.
fn read_outputs(
    alloc: Global,
    read: &Option<Set>,
    outputs: Vec<Expr>,
) -> Result<Vec<Expr>, OutOfMemory>
    requires { length outputs.items ≤ 1024 }
    ensures { IfOk result (λ v. map expression_of v.items ≡ spec.read_outputs (read_of read.now) (map expression_of outputs.items)) }
{
    let mut kept = Vec::with_capacity(alloc, outputs.len())?;
    let mut number = 0u16;
    for output in outputs {
        kept.push(read_output(is_read(read, number), output))?;
        number += 1;
    }
    Ok(kept)
}

fn read_output(is_read: bool, output: Expr) -> Expr
    ensures { expression_of result ≡ spec.read_output is_read (expression_of output) }
{
    if is_read || !is_plain(&output) {
        output
    } else {
        Expr::Literal(Value::Null, ValueKind::Number)
    }
}

/// Whether an expression has a value over every row, and no fault: it is a column or a literal.
fn is_plain(expression: &Expr) -> bool
    ensures { result ≡ spec.is_plain (expression_of expression.now) }
{
    match expression {
        Expr::Column(_) | Expr::Literal(_, _) => true,
        _ => false,
    }
}

/// The Group, with COUNT(*) for calls that are not read and can't fault.
fn read_group(alloc: Global, read: &Option<Set>, group: Group) -> Result<Group, OutOfMemory>
    requires { group.columns + length group.calls.items ≤ 1024 }
    ensures { IfOk result (λ g. grouping_of g ≡ spec.read_group (spec.after group.columns (read_of read.now)) (grouping_of group)) }
{
    let Group {
        columns,
        sets,
        calls,
    } = group;
    let calls = read_group_calls(alloc, read, columns, calls)?;
    Ok(Group {
        columns,
        sets,
        calls,
    })
}

fn read_group_calls(
    alloc: Global,
    read: &Option<Set>,
    columns: u16,
    calls: Vec<GroupCall>,
) -> Result<Vec<GroupCall>, OutOfMemory>
    requires { columns + length calls.items ≤ 1024 }
    ensures { IfOk result (λ v. map group_call_of v.items ≡ spec.read_group_calls (spec.after columns (read_of read.now)) (map group_call_of calls.items)) }
{
    let mut kept = Vec::with_capacity(alloc, calls.len())?;
    let mut number = columns;
    for call in calls {
        kept.push(read_group_call(is_read(read, number), call))?;
        number += 1;
    }
    Ok(kept)
}

fn read_group_call(is_read: bool, call: GroupCall) -> GroupCall
    ensures { group_call_of result ≡ spec.read_group_call is_read (group_call_of call) }
{
    match call {
        GroupCall::OfRows(aggregate) => GroupCall::OfRows(read_aggregate(is_read, aggregate)),
        GroupCall::Grouping(columns) => GroupCall::Grouping(columns),
    }
}

fn read_aggregate(is_read: bool, aggregate: Aggregate) -> Aggregate
    ensures { result ≡ spec.read_aggregate is_read aggregate }
{
    if is_read || !is_total(aggregate) {
        aggregate
    } else {
        Aggregate::CountRows
    }
}

/// Whether an aggregate has a value over any rows: a SUM can be out of range.
fn is_total(aggregate: Aggregate) -> bool
    ensures { result ≡ spec.is_total aggregate }
{
    !matches!(aggregate, Aggregate::Sum(_))
}

/// The Window, with COUNT(*) for calls that are not read and can't fault, over an input of `columns` columns; with COUNT(*) for all calls
/// where the input has no rows.
fn read_window(
    alloc: Global,
    has_none: bool,
    read: &Option<Set>,
    columns: u32,
    window: Window,
) -> Result<Window, OutOfMemory>
    requires { columns + length window.calls.items ≤ 1024 }
    ensures { IfOk result (λ w. window_of w ≡ spec.read_window has_none (spec.after columns (read_of read.now)) (window_of window)) }
{
    let Window { classes, calls } = window;
    let calls = if has_none {
        counts_of(alloc, calls)?
    } else {
        read_calls(alloc, read, columns, calls)?
    };
    Ok(Window { classes, calls })
}

fn counts_of(alloc: Global, calls: Vec<Call>) -> Result<Vec<Call>, OutOfMemory>
    ensures { IfOk result (λ v. v.items ≡ map spec.count_of calls.items) }
{
    let mut counts = Vec::with_capacity(alloc, calls.len())?;
    for call in calls {
        counts.push(count_of(call))?;
    }
    Ok(counts)
}

fn read_calls(
    alloc: Global,
    read: &Option<Set>,
    columns: u32,
    calls: Vec<Call>,
) -> Result<Vec<Call>, OutOfMemory>
    requires { columns + length calls.items ≤ 1024 }
    ensures { IfOk result (λ v. v.items ≡ spec.read_calls (spec.after columns (read_of read.now)) calls.items) }
{
    let mut kept = Vec::with_capacity(alloc, calls.len())?;
    let mut number = columns as u16;
    for call in calls {
        kept.push(read_call(is_read(read, number), call))?;
        number += 1;
    }
    Ok(kept)
}

fn read_call(is_read: bool, call: Call) -> Call
    ensures { result ≡ spec.read_call is_read call }
{
    if is_read || !never_faults(&call.function) {
        peer_call(call)
    } else {
        count_of(call)
    }
}

/// The call, with a frame by peers if its frame is the row's own place or empty.
fn peer_call(call: Call) -> Call
    ensures { result ≡ spec.peer_call call }
{
    Call {
        class: call.class,
        function: call.function,
        frame: peer_frame(call.frame),
    }
}

/// The frame, or one by peers in place of a frame that is the row's own place or empty.
fn peer_frame(frame: Frame) -> Frame
    ensures { result ≡ peers.peer_frame frame }
{
    match frame.mode {
        FrameMode::Rows if is_here(frame.start) && is_here(frame.end) => {
            peers_without(peer_exclusion(frame.exclusion))
        }
        FrameMode::Rows if is_past(frame.start, frame.end) => peers_without(Exclusion::Group),
        _ => frame,
    }
}

/// Whether a bound of ROWS is the row itself.
fn is_here(bound: Bound) -> bool
    ensures { result ≡ peers.is_here bound }
{
    matches!(
        bound,
        Bound::CurrentRow | Bound::Preceding(0) | Bound::Following(0)
    )
}

/// Whether a start lies after an end, both before the row or both after it.
fn is_past(start: Bound, end: Bound) -> bool
    ensures { result ≡ peers.is_past start end }
{
    match (start, end) {
        (Bound::Preceding(start), Bound::Preceding(end)) => start < end,
        (Bound::Following(start), Bound::Following(end)) => end < start,
        _ => false,
    }
}

/// The row's peers, without some of them.
fn peers_without(exclusion: Exclusion) -> Frame
    ensures { result ≡ peers.peers_without exclusion }
{
    Frame {
        mode: FrameMode::Range,
        start: Bound::CurrentRow,
        end: Bound::CurrentRow,
        exclusion,
    }
}

/// What is left out of the row's peers: the others where the row stays, all where it is left out.
fn peer_exclusion(exclusion: Exclusion) -> Exclusion
    ensures { result ≡ peers.peer_exclusion exclusion }
{
    match exclusion {
        Exclusion::NoOthers | Exclusion::Ties => Exclusion::Ties,
        Exclusion::CurrentRow | Exclusion::Group => Exclusion::Group,
    }
}

/// COUNT(*) of the whole partition in the place of a call.
fn count_of(call: Call) -> Call
    ensures { result ≡ spec.count_of call }
{
    Call {
        class: call.class,
        function: Function::OfFrame(FrameFunction::Aggregate(Aggregate::CountRows)),
        frame: Frame {
            mode: FrameMode::Range,
            start: Bound::UnboundedPreceding,
            end: Bound::UnboundedFollowing,
            exclusion: Exclusion::NoOthers,
        },
    }
}

/// Whether a function has a value at every row, and no fault: all but SUM.
fn never_faults(function: &Function) -> bool
    ensures { result ≡ spec.never_faults function.now }
{
    match function {
        Function::OfFrame(FrameFunction::Aggregate(Aggregate::Sum(_))) => false,
        _ => true,
    }
}

/// The Limit; over an input without rows it takes all.
fn read_limit(has_none: bool, limit: Limit) -> Limit
    ensures { limit_of result ≡ spec.read_limit has_none (limit_of limit) }
{
    if has_none {
        Limit {
            keys: limit.keys,
            offset: 0,
            count: None,
            ties: false,
        }
    } else {
        plain_limit(limit)
    }
}

/// The Limit; a Limit of no rows has no offset, and with sort keys it has ties.
fn plain_limit(limit: Limit) -> Limit
    ensures { limit_of result ≡ spec.plain_limit (limit_of limit) }
{
    match limit.count {
        Some(0) => {
            let ties = !limit.keys.is_empty();
            Limit {
                keys: limit.keys,
                offset: 0,
                count: Some(0),
                ties,
            }
        }
        _ => limit,
    }
}
