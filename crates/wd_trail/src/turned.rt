//! One ordering turned: what a plan gives then, from what its nodes gave.

ghost use Rattle.std.specs.Prelude.{◌≡◌, ◌+◌, ◌-◌, ◌^◌, ◌<◌, ℕ, true, List, None, Ok, Some, option_map, length, All, IfOk, IfSome, IsTrue};
ghost use Rattle.wd_eval.specs.Tied.{turned_at};
ghost use Rattle.wd_eval.specs.Turning.{IsStepUnder};
ghost use Rattle.wd_plan.specs.Expressions.{expression_of};
ghost use Rattle.wd_plan.specs.Plans.{EachNamesClasses, Over, PlanTree, Step, plan_of, window_of};
ghost use Rattle.wd_plan.specs.Plans as tree;
ghost use Rattle.wd_plan.specs.Settled.{is_by_peers};
ghost use Rattle.wd_trail.specs.Trails.{Gives, IsJoinOver, IsToldOver, IsTrail, rows_in, rows_shown};
ghost use Rattle.wd_value.specs.Rows.{Instance, Row};

use crate::step::{MOST_ROWS, are_same, join_rows, step_rows};
use crate::trail::Trail;
use std::alloc::Global;
use wd_columns::{OwnRows, copy_all};
use wd_eval::{Turn, Turned, turn_class};
use wd_plan::{Expr, Plan, Window};
use wd_value::OutOfMemory;

/// What a plan gives where an ordering is turned, beside what it gave.
#[derive(Drop)]
pub enum Change {
    /// The same rows, in the same order.
    Same,
    /// Other rows.
    Rows(OwnRows),
    /// This can't be told: a step has a fault or too many rows, a Join too many values, or its nodes are not kept.
    Unknown,
}

impl Trail {
    /// What the plan gives where the ordering with this number takes rows that tie in a turn.
    pub fn turned(
        &self,
        alloc: Global,
        plan: &Plan,
        number: u32,
        turn: Turn,
    ) -> Result<Change, OutOfMemory>
        requires few { number < 2 ^ 32 - 1 }
        requires named { EachNamesClasses (plan_of plan.now) }
        ensures { IfOk result (λ change. (instance : Instance) (first : ℕ) → IsTrail self.now (plan_of plan.now) instance → IfSome (rows_shown (rows_in self.now) change) (Gives (plan_of plan.now) instance (Some (turned_at turn (first + number))) first)) }
    {
        match self {
            Trail::Part(_) => Ok(Change::Unknown),
            Trail::Step(rows, below) => match input_of(plan) {
                None => Ok(Change::Unknown),
                Some(input) => {
                    let before = input.orderings();
                    if number < before {
                        let change = below.turned(alloc, input, number, turn)?;
                        step_over(alloc, plan, change, rows)
                    } else {
                        own_turned(alloc, plan, below.rows(), number - before, turn, rows)
                    }
                }
            },
            Trail::Join(rows, on_left, on_right) => match plan {
                Plan::Join {
                    left,
                    right,
                    condition,
                } => {
                    let before = left.orderings();
                    if number < before {
                        let change = on_left.turned(alloc, left, number, turn)?;
                        left_changed(alloc, condition, change, on_right.rows(), rows)
                    } else {
                        let change = on_right.turned(alloc, right, number - before, turn)?;
                        right_changed(alloc, condition, on_left.rows(), change, rows)
                    }
                }
                _ => Ok(Change::Unknown),
            },
        }
    }
}

/// The plan below the last step; none below a Scan and a Join.
fn input_of(plan: &Plan) -> Option<&Plan>
    ensures { IfSome result (λ input. (step : Step) × (plan_of plan.now ≡ Over step (plan_of input.now))) }
{
    match plan {
        Plan::Scan { .. } | Plan::Join { .. } => None,
        Plan::Filter { input, .. }
        | Plan::Map { input, .. }
        | Plan::Group { input, .. }
        | Plan::Window { input, .. }
        | Plan::Distinct { input }
        | Plan::Limit { input, .. } => Some(input),
    }
}

/// The rows found, beside those given.
fn compared(found: Option<OwnRows>, given: &OwnRows) -> Change
    ensures { rows_shown given.now result ≡ found }
{
    match found {
        None => Change::Unknown,
        Some(found) => {
            if are_same(&found.source(), &given.source()) {
                Change::Same
            } else {
                Change::Rows(found)
            }
        }
    }
}

/// What a step gives over a change of its input, where it gave these rows.
fn step_over(
    alloc: Global,
    plan: &Plan,
    change: Change,
    given: &OwnRows,
) -> Result<Change, OutOfMemory>
    requires { EachNamesClasses (plan_of plan.now) }
    ensures { IfOk result (λ r. (step : Step) (below : PlanTree) (input : List Row) → plan_of plan.now ≡ Over step below → IsStepUnder step input None (Ok given.now) → IsToldOver (λ rows found. IsStepUnder step rows None (Ok found)) (rows_shown input change) (rows_shown given.now r)) }
{
    match change {
        Change::Same => Ok(Change::Same),
        Change::Unknown => Ok(Change::Unknown),
        Change::Rows(rows) => {
            let found = step_rows(alloc, plan, &rows, None)?;
            Ok(compared(found, given))
        }
    }
}

/// What a step gives over its input where one of its own orderings is turned, and where it gave these rows.
fn own_turned(
    alloc: Global,
    plan: &Plan,
    input: &OwnRows,
    class: u32,
    turn: Turn,
    given: &OwnRows,
) -> Result<Change, OutOfMemory>
    requires { EachNamesClasses (plan_of plan.now) }
    ensures { IfOk result (λ r. (step : Step) (below : PlanTree) → plan_of plan.now ≡ Over step below → IsStepUnder step input.now None (Ok given.now) → IfSome (rows_shown given.now r) (λ rows. IsStepUnder step input.now (Some (turned_at turn class)) (Ok rows))) }
{
    match plan {
        Plan::Window { window, .. } if (class as usize) < window.classes.len() => {
            window_turned(alloc, window, input, class as usize, turn, given)
        }
        _ => {
            let turned = Turned {
                number: class,
                turn,
            };
            let found = step_rows(alloc, plan, input, Some(turned))?;
            Ok(compared(found, given))
        }
    }
}

/// What a Window gives over its input where the class with this number is turned, and where it gave these rows.
fn window_turned(
    alloc: Global,
    window: &Window,
    input: &OwnRows,
    class: usize,
    turn: Turn,
    given: &OwnRows,
) -> Result<Change, OutOfMemory>
    requires { class < length (window_of window.now).classes }
    ensures { let step = tree.Window (window_of window.now) in IfOk result (λ r. IsStepUnder step input.now None (Ok given.now) → IfSome (rows_shown given.now r) (λ rows. IsStepUnder step input.now (Some (turned_at turn class)) (Ok rows))) }
{
    if input.source().len() as u64 > MOST_ROWS {
        return Ok(Change::Unknown);
    }
    if goes_by_peers(window, class) {
        return Ok(Change::Same);
    }
    let turned = turn_class(alloc, window, &input.source(), &given.source(), class, turn)?;
    match turned {
        Ok(Some(found)) => Ok(Change::Rows(found)),
        Ok(None) => Ok(Change::Same),
        Err(_) => Ok(Change::Unknown),
    }
}

/// Whether no call of the class with this number goes by the order of rows that tie.
fn goes_by_peers(window: &Window, class: usize) -> bool
    ensures { IsTrue result → All (λ call. call.class ≡ class → is_by_peers call.frame call.function ≡ true) (window_of window.now).calls }
{
    window
        .calls
        .iter()
        .all(|call| call.class as usize != class || call.is_by_peers())
}

/// What a Join gives over a change of its left side, where it gave these rows.
fn left_changed(
    alloc: Global,
    condition: &Option<Expr>,
    change: Change,
    right: &OwnRows,
    given: &OwnRows,
) -> Result<Change, OutOfMemory>
    ensures { IfOk result (λ r. (left : List Row) → IsJoinOver (option_map expression_of condition.now) left right.now given.now → IsToldOver (λ rows found. IsJoinOver (option_map expression_of condition.now) rows right.now found) (rows_shown left change) (rows_shown given.now r)) }
{
    match change {
        Change::Same => Ok(Change::Same),
        Change::Unknown => Ok(Change::Unknown),
        Change::Rows(rows) => {
            let right = copy_all(alloc, &right.source())?;
            let found = join_rows(alloc, condition, &rows, right)?;
            Ok(compared(found, given))
        }
    }
}

/// What a Join gives over a change of its right side, where it gave these rows.
fn right_changed(
    alloc: Global,
    condition: &Option<Expr>,
    left: &OwnRows,
    change: Change,
    given: &OwnRows,
) -> Result<Change, OutOfMemory>
    ensures { IfOk result (λ r. (right : List Row) → IsJoinOver (option_map expression_of condition.now) left.now right given.now → IsToldOver (λ rows found. IsJoinOver (option_map expression_of condition.now) left.now rows found) (rows_shown right change) (rows_shown given.now r)) }
{
    match change {
        Change::Same => Ok(Change::Same),
        Change::Unknown => Ok(Change::Unknown),
        Change::Rows(rows) => {
            let found = join_rows(alloc, condition, left, rows)?;
            Ok(compared(found, given))
        }
    }
}
