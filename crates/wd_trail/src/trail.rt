//! What each node of a plan gives.

ghost use Rattle.std.specs.Prelude.{◌≡◌, true, Some, option_map, IfOk, IfSome};
ghost use Rattle.wd_plan.specs.Expressions.{expression_of};
ghost use Rattle.wd_plan.specs.Fits.{fits};
ghost use Rattle.wd_plan.specs.Plans.{EachNamesClasses, Join, Over, PlanTree, Step, plan_of};
ghost use Rattle.wd_schema.specs.Schemas.{schema_of};
ghost use Rattle.wd_trail.specs.Trails.{IsTrail, rows_in};
ghost use Rattle.wd_value.specs.Rows.{Instance, instance_of};

use crate::step::{join_rows, step_rows};
use std::alloc::Global;
use wd_columns::{OwnRows, RowSource, copy_all};
use wd_eval::{EvalError, stable_rows};
use wd_plan::{Expr, Plan};
use wd_schema::Schema;
use wd_value::{Instance, OutOfMemory, Value};

/// The rows of a plan's nodes under the choice that leaves rows that tie as they are.
#[derive(Drop)]
pub enum Trail {
    /// Those of a part of the plan, whose nodes are not kept.
    Part(OwnRows),
    /// Those of a step, and what is below it.
    Step(OwnRows, Box<Trail>),
    /// Those of a Join, and its left and right side.
    Join(OwnRows, Box<Trail>, Box<Trail>),
}

impl Trail {
    /// The rows of the last node.
    pub fn rows(&self) -> &OwnRows
        ensures { result.now ≡ rows_in self.now }
    {
        match self {
            Trail::Part(rows) | Trail::Step(rows, _) | Trail::Join(rows, _, _) => rows,
        }
    }
}

/// Keeps what the nodes of a plan give over an instance, a part of the plan without orderings as one. Nothing is kept where a node has
/// a fault or too many rows, a Join above orderings too many values, or where the nodes hold more than `most` values or positions. (A row
/// counts as one more than it has.)
pub fn follow(
    alloc: Global,
    plan: &Plan,
    schema: &Schema,
    instance: &Instance,
    most: u64,
) -> Result<Option<Trail>, OutOfMemory>
    requires { fits (schema_of schema.now) (plan_of plan.now) ≡ true }
    ensures { IfOk result (λ o. IfSome o (λ t. IsTrail t (plan_of plan.now) (instance_of instance.now.items))) }
{
    let mut room = most;
    follow_nodes(alloc, plan, schema, instance, &mut room)
}

/// Keeps what the nodes give, where there is room for what they hold, which is taken away.
fn follow_nodes(
    alloc: Global,
    plan: &Plan,
    schema: &Schema,
    instance: &Instance,
    room: &mut u64,
) -> Result<Option<Trail>, OutOfMemory>
    requires { fits (schema_of schema.now) (plan_of plan.now) ≡ true }
    ensures { IfOk result (λ o. IfSome o (λ t. IsTrail t (plan_of plan.now) (instance_of instance.now.items))) }
{
    if plan.orderings() == 0 {
        return part(alloc, plan, schema, instance, room);
    }
    match plan {
        Plan::Scan { .. } => part(alloc, plan, schema, instance, room),
        Plan::Join {
            left,
            right,
            condition,
        } => {
            let Some(left) = follow_nodes(alloc, left, schema, instance, room)? else {
                return Ok(None);
            };
            let Some(right) = follow_nodes(alloc, right, schema, instance, room)? else {
                return Ok(None);
            };
            join(alloc, plan, condition, left, right, room)
        }
        Plan::Filter { input, .. }
        | Plan::Map { input, .. }
        | Plan::Group { input, .. }
        | Plan::Window { input, .. }
        | Plan::Distinct { input }
        | Plan::Limit { input, .. } => {
            let Some(below) = follow_nodes(alloc, input, schema, instance, room)? else {
                return Ok(None);
            };
            step(alloc, plan, below, room)
        }
    }
}

/// The rows of a part of a plan, whose nodes are not kept.
fn part(
    alloc: Global,
    plan: &Plan,
    schema: &Schema,
    instance: &Instance,
    room: &mut u64,
) -> Result<Option<Trail>, OutOfMemory>
    requires { fits (schema_of schema.now) (plan_of plan.now) ≡ true }
    ensures { IfOk result (λ o. IfSome o (λ t. IsTrail t (plan_of plan.now) (instance_of instance.now.items))) }
{
    match stable_rows(alloc, plan, schema, instance) {
        Ok(Ok(rows)) => {
            let each = held_by_each(&rows.source(), plan);
            if has_room(&rows, each, room) {
                Ok(Some(Trail::Part(rows)))
            } else {
                Ok(None)
            }
        }
        Err(EvalError::OutOfMemory) => Err(OutOfMemory),
        Ok(Err(_)) | Err(_) => Ok(None),
    }
}

/// A step over what is below it.
fn step(
    alloc: Global,
    plan: &Plan,
    below: Trail,
    room: &mut u64,
) -> Result<Option<Trail>, OutOfMemory>
    requires { EachNamesClasses (plan_of plan.now) }
    ensures { IfOk result (λ o. IfSome o (λ t. (instance : Instance) (step : Step) (input : PlanTree) → plan_of plan.now ≡ Over step input → IsTrail below input instance → IsTrail t (Over step input) instance)) }
{
    let found = step_rows(alloc, plan, below.rows(), None)?;
    let Some(rows) = with_room(found, plan, room) else {
        return Ok(None);
    };
    let below = Box::new(alloc, below)?;
    Ok(Some(Trail::Step(rows, below)))
}

/// The Join that is the plan's last node, of its two sides.
fn join(
    alloc: Global,
    plan: &Plan,
    condition: &Option<Expr>,
    left: Trail,
    right: Trail,
    room: &mut u64,
) -> Result<Option<Trail>, OutOfMemory>
    ensures { IfOk result (λ o. IfSome o (λ t. (instance : Instance) (on_left on_right : PlanTree) → IsTrail left on_left instance → IsTrail right on_right instance → IsTrail t (Join (option_map expression_of condition.now) on_left on_right) instance)) }
{
    let second = copy_all(alloc, &right.rows().source())?;
    let found = join_rows(alloc, condition, left.rows(), second)?;
    let Some(rows) = with_room(found, plan, room) else {
        return Ok(None);
    };
    let (left, right) = (Box::new(alloc, left)?, Box::new(alloc, right)?);
    Ok(Some(Trail::Join(rows, left, right)))
}

/// The rows that a plan's last node gives, if there are any and there is room for what they hold beyond the rows below it, which is taken
/// away.
fn with_room(found: Option<OwnRows>, plan: &Plan, room: &mut u64) -> Option<OwnRows>
    ensures { IfSome result (λ rows. found ≡ Some rows) }
{
    let rows = found?;
    let each = added_to_each(&rows.source(), plan);
    if has_room(&rows, each, room) {
        Some(rows)
    } else {
        None
    }
}

/// Whether there is room for rows that hold so many values and positions each, which is taken away.
fn has_room(rows: &OwnRows, each: u64, room: &mut u64) -> bool {
    let held = (rows.source().len() as u64).saturating_mul(each);
    let enough = held <= *room;
    if enough {
        *room -= held;
    }
    enough
}

/// How many values and positions each row of a plan's last node holds beyond those of the row below it.
fn added_to_each(rows: &RowSource, plan: &Plan) -> u64 {
    match plan {
        Plan::Map { .. } if is_joined(rows) => 1,
        Plan::Window { window, .. } if is_joined(rows) => {
            (window.calls.len() as u64).saturating_add(1)
        }
        _ => held_by_each(rows, plan),
    }
}

/// How many values and positions each row of a plan's last node holds, where no row below it is kept. A row counts as one value more than
/// it has.
fn held_by_each(rows: &RowSource, plan: &Plan) -> u64 {
    let behind = behind_each(plan);
    let held = behind.positions.saturating_add(behind.values);
    if is_joined(rows) {
        held
    } else {
        held.max((rows.width(0) as u64).saturating_add(1))
    }
}

/// Whether rows are kept by their positions in tables, as far as their columns tell: not where all of them are NULL.
fn is_joined(rows: &RowSource) -> bool {
    for column in 0..rows.width(0) {
        if rows.stored_column(column).is_some() {
            return true;
        }
    }
    false
}

/// What stands behind a row: positions in tables, and values that were made for it or for the rows of which it is joined.
#[derive(Clone, Copy)]
struct Behind {
    positions: u64,
    values: u64,
}

impl Behind {
    fn with_values(self, count: usize) -> Behind {
        Behind {
            positions: self.positions,
            values: self.values.saturating_add(count as u64),
        }
    }

    /// The same where a Map shows these outputs: of tables that no column of theirs stands in, the positions are not kept.
    fn shown(self, outputs: &[Expr]) -> Behind {
        if are_moved(outputs) {
            Behind {
                positions: self.positions.min(outputs.len() as u64),
                values: self.values,
            }
        } else {
            Behind {
                positions: 1,
                values: self.values,
            }
            .with_values(outputs.len())
        }
    }
}

/// What stands at most behind each row of a plan's last node.
fn behind_each(plan: &Plan) -> Behind {
    match plan {
        Plan::Scan { .. } => Behind {
            positions: 1,
            values: 0,
        },
        Plan::Join { left, right, .. } => {
            let (left, right) = (behind_each(left), behind_each(right));
            Behind {
                positions: left.positions.saturating_add(right.positions),
                values: left.values.saturating_add(right.values),
            }
        }
        Plan::Filter { input, .. } | Plan::Distinct { input } | Plan::Limit { input, .. } => {
            behind_each(input)
        }
        Plan::Map { input, outputs } => behind_each(input).shown(outputs),
        Plan::Window { input, window } => behind_each(input).with_values(window.calls.len()),
        Plan::Group { group, .. } => Behind {
            positions: 1,
            values: u64::from(group.columns),
        }
        .with_values(group.calls.len()),
    }
}

/// Whether a Map's outputs are columns in rising order and NULLs, for which no column is made.
fn are_moved(outputs: &[Expr]) -> bool {
    let mut next = 0;
    for output in outputs {
        match output {
            Expr::Column(column) if u32::from(*column) >= next => next = u32::from(*column) + 1,
            Expr::Literal(Value::Null, _) => {}
            _ => return false,
        }
    }
    true
}
