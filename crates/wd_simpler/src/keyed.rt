//! Sort keys that are computed from a column, followed by that column.

ghost use Rattle.std.specs.Prelude.{◌≡◌, ◌≤◌, true, length, map, IfOk};
ghost use Rattle.std.specs.List.{list_any};
ghost use Rattle.wd_plan.specs.Expressions.{expression_of};
ghost use Rattle.wd_plan.specs.Fits.{fits};
ghost use Rattle.wd_plan.specs.Plans.{class_of, limit_of, plan_of, window_of};
ghost use Rattle.wd_plan.specs.declared.window.Call.{Call as ACall};
ghost use Rattle.wd_schema.specs.Schemas.{schema_of};
ghost use Rattle.wd_simpler.specs.Keyed as spec;
ghost use Rattle.wd_value.specs.Keys.{ascending as ascending_key};

use crate::numbers::column_shown;
use std::alloc::Global;
use wd_plan::{ArithmeticOp, Call, Class, Expr, Frame, FrameMode, Limit, Plan, Window};
use wd_schema::Schema;
use wd_value::{OutOfMemory, SortColumn, SortKey, Value};

/// The Window, with each sort key followed by the column that it is computed from, if no frame counts by the distance of keys.
pub(crate) fn keyed_window(
    alloc: Global,
    schema: &Schema,
    input: &Plan,
    window: Window,
) -> Result<Window, OutOfMemory>
    requires { fits (schema_of schema.now) (plan_of input.now) ≡ true }
    ensures keyed { IfOk result (λ w. window_of w ≡ spec.keyed_window (plan_of input.now) (window_of window)) }
    ensures calls { IfOk result (λ w. w.calls.items ≡ window.calls.items) }
{
    if goes_by_distance(&window.calls) {
        return Ok(window);
    }
    let Window { classes, calls } = window;
    let classes = keyed_classes(alloc, schema, input, classes)?;
    Ok(Window { classes, calls })
}

/// Whether the frame of some call counts by the distance of keys.
fn goes_by_distance(calls: &[Call]) -> bool
    ensures { result ≡ list_any (λ (call : ACall). spec.goes_by_distance call.frame) calls.now }
{
    for call in calls {
        if frame_goes_by_distance(call.frame) {
            return true;
        }
    }
    false
}

fn frame_goes_by_distance(frame: Frame) -> bool
    ensures { result ≡ spec.goes_by_distance frame }
{
    match frame.mode {
        FrameMode::Range => frame.start.has_offset() || frame.end.has_offset(),
        FrameMode::Rows | FrameMode::Groups => false,
    }
}

fn keyed_classes(
    alloc: Global,
    schema: &Schema,
    input: &Plan,
    classes: Vec<Class>,
) -> Result<Vec<Class>, OutOfMemory>
    requires { fits (schema_of schema.now) (plan_of input.now) ≡ true }
    ensures { IfOk result (λ v. map class_of v.items ≡ map (spec.keyed_class (plan_of input.now)) (map class_of classes.items)) }
{
    let mut kept = Vec::with_capacity(alloc, classes.len())?;
    for class in classes {
        let Class { partition, order } = class;
        let order = complete_keys(alloc, schema, input, order)?;
        kept.push(Class { partition, order })?;
    }
    Ok(kept)
}

/// The Limit, with each sort key followed by the column that it is computed from.
pub(crate) fn keyed_limit(
    alloc: Global,
    schema: &Schema,
    input: &Plan,
    limit: Limit,
) -> Result<Limit, OutOfMemory>
    requires { fits (schema_of schema.now) (plan_of input.now) ≡ true }
    ensures { IfOk result (λ l. limit_of l ≡ spec.keyed_limit (plan_of input.now) (limit_of limit)) }
{
    let Limit {
        keys,
        offset,
        count,
        ties,
    } = limit;
    let keys = complete_keys(alloc, schema, input, keys)?;
    Ok(Limit {
        keys,
        offset,
        count,
        ties,
    })
}

/// Sort keys, followed by the columns that they determine.
fn complete_keys(
    alloc: Global,
    schema: &Schema,
    input: &Plan,
    keys: Vec<SortColumn>,
) -> Result<Vec<SortColumn>, OutOfMemory>
    requires { fits (schema_of schema.now) (plan_of input.now) ≡ true }
    ensures { IfOk result (λ v. v.items ≡ spec.keyed (plan_of input.now) keys.items) }
{
    let added = added_keys(alloc, schema, input, &keys)?;
    let mut keys = keys;
    for key in added {
        keys.push(key)?;
    }
    Ok(keys)
}

fn added_keys(
    alloc: Global,
    schema: &Schema,
    input: &Plan,
    keys: &[SortColumn],
) -> Result<Vec<SortColumn>, OutOfMemory>
    requires { fits (schema_of schema.now) (plan_of input.now) ≡ true }
    ensures { IfOk result (λ v. v.items ≡ spec.added_keys (plan_of input.now) keys.now) }
{
    let mut added = Vec::new(alloc);
    for key in keys {
        if let Some(column) = source_column(schema, input, key.column) {
            added.push(ascending(column))?;
        }
    }
    Ok(added)
}

/// A column as a sort key, ascending with NULL last.
fn ascending(column: u16) -> SortColumn
    ensures { result ≡ ascending_key column }
{
    SortColumn {
        column,
        key: SortKey {
            desc: false,
            nulls_first: false,
        },
    }
}

// ---- columns that others determine

/// The column of a plan from which another one of its columns is computed, so that it can be computed back.
fn source_column(schema: &Schema, plan: &Plan, column: u16) -> Option<u16>
    requires { fits (schema_of schema.now) (plan_of plan.now) ≡ true }
    ensures { result ≡ spec.source_column (plan_of plan.now) column }
{
    match plan {
        Plan::Scan { .. } => None,
        Plan::Join { .. } => None,
        Plan::Filter { input, .. } | Plan::Distinct { input } => {
            source_column(schema, input, column)
        }
        Plan::Map { input, outputs } => {
            let output = outputs.get(usize::from(column))?;
            let below = match column_shown(output) {
                Some(shown) => source_column(schema, input, shown)?,
                None => shifted_column(output)?,
            };
            place_of(below, outputs)
        }
        Plan::Group { .. } => None,
        Plan::Window { input, .. } => if u32::from(column) < input.width() {
            source_column(schema, input, column)
        } else {
            None
        },
        Plan::Limit { .. } => None,
    }
}

/// The column from which an expression differs only by a sign and by added or subtracted whole numbers.
fn shifted_column(expression: &Expr) -> Option<u16>
    ensures { result ≡ spec.shifted (expression_of expression.now) }
{
    match expression {
        Expr::Column(column) => Some(*column),
        Expr::Negate(a) => shifted_column(a),
        Expr::Arithmetic(op, a, b) => if !is_shift(*op) {
            None
        } else if is_number(b) {
            shifted_column(a)
        } else if is_number(a) {
            shifted_column(b)
        } else {
            None
        },
        _ => None,
    }
}

/// Whether an operation is a sum or a difference.
fn is_shift(op: ArithmeticOp) -> bool
    ensures { result ≡ spec.is_shift op }
{
    match op {
        ArithmeticOp::Add | ArithmeticOp::Subtract => true,
        ArithmeticOp::Multiply | ArithmeticOp::Divide | ArithmeticOp::Remainder => false,
    }
}

/// Whether an expression is a literal whole number.
fn is_number(expression: &Expr) -> bool
    ensures { result ≡ spec.is_number (expression_of expression.now) }
{
    match expression {
        Expr::Literal(value, _) => matches!(value, Value::Int(_)),
        _ => false,
    }
}

/// The first output that shows this column.
fn place_of(column: u16, outputs: &[Expr]) -> Option<u16>
    requires { length outputs.now ≤ 1024 }
    ensures { result ≡ spec.place_of column (map expression_of outputs.now) }
{
    let mut place = 0u16;
    for output in outputs {
        if column_shown(output) == Some(column) {
            return Some(place);
        }
        place += 1;
    }
    None
}
