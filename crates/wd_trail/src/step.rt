//! Steps over rows of their own.

ghost use Rattle.std.specs.Prelude.{◌≡◌, ◌≤◌, Ok, option_map, IfOk, IfSome, IsTrue};
ghost use Rattle.wd_eval.specs.Turning.{IsStepUnder};
ghost use Rattle.wd_nodes.specs.Relation.{most_rows};
ghost use Rattle.wd_plan.specs.Expressions.{expression_of};
ghost use Rattle.wd_plan.specs.Plans.{EachNamesClasses, Over, PlanTree, Step, plan_of};
ghost use Rattle.wd_trail.specs.Trails.{IsJoinOver};
ghost use Rattle.wd_value.specs.Rows.{row_at};

use std::alloc::Global;
use std::slice;
use wd_columns::{OwnRows, RowSource};
use wd_eval::{EvalError, Turned, turned_step};
use wd_join::StepError;
use wd_nodes::{Relation, StoredRows, Tables, into_own_rows, join_inputs, store};
use wd_plan::{Expr, Plan};
use wd_value::{OutOfMemory, same};

/// The most rows that a step may have.
pub(crate) const MOST_ROWS: u64 = 10_000_000;

/// The rows that the plan's last step gives over rows under its sorted orderings, of which the one with the number of `turned` takes
/// rows that tie in another turn; none where it has a fault, or it or its input too many rows.
pub(crate) fn step_rows(
    alloc: Global,
    plan: &Plan,
    rows: &OwnRows,
    turned: Option<Turned>,
) -> Result<Option<OwnRows>, OutOfMemory>
    requires { EachNamesClasses (plan_of plan.now) }
    ensures { IfOk result (λ o. IfSome o (λ r. (step : Step) (below : PlanTree) → plan_of plan.now ≡ Over step below → IsStepUnder step rows.now turned (Ok r))) }
{
    if rows.source().len() as u64 > MOST_ROWS {
        return Ok(None);
    }
    match turned_step(alloc, plan, rows, turned) {
        Ok(Ok(found)) => Ok(Some(found)),
        Err(EvalError::OutOfMemory) => Err(OutOfMemory),
        Ok(Err(_)) | Err(_) => Ok(None),
    }
}

/// The most values that a Join's rows have here, 16 bytes each: they are made whole, where an evaluation makes what a select list above
/// them shows.
const MOST_JOINED_VALUES: u64 = 1 << 22;

/// The rows that a Join gives; none where it has a fault, or too many rows or values. Its pairs are counted before a row of them is made.
pub(crate) fn join_rows(
    alloc: Global,
    condition: &Option<Expr>,
    left: &OwnRows,
    right: OwnRows,
) -> Result<Option<OwnRows>, OutOfMemory>
    ensures { IfOk result (λ o. IfSome o (λ r. IsJoinOver (option_map expression_of condition.now) left.now right r)) }
{
    let most = most_pairs(left, &right);
    let tables = Tables::of_own(slice::from_ref(left));
    let first = Relation::Stored(StoredRows::Table(0));
    let second = Relation::Stored(StoredRows::Own(right));
    match join_inputs(alloc, &tables, condition, Ok(first), Ok(second), most) {
        Ok(Ok(joined)) => {
            let stored = store(alloc, &tables, joined)?;
            let rows = into_own_rows(alloc, &tables, stored)?;
            Ok(Some(rows))
        }
        Err(StepError::OutOfMemory) => Err(OutOfMemory),
        Ok(Err(_)) | Err(StepError::TooManyRows) => Ok(None),
    }
}

/// The most pairs of two sides' rows that are made. (A row counts as one value more than it has.)
fn most_pairs(left: &OwnRows, right: &OwnRows) -> u64
    ensures { result ≤ most_rows }
{
    let width = left
        .source()
        .width(0)
        .saturating_add(right.source().width(0));
    MOST_JOINED_VALUES / (width as u64).saturating_add(1)
}

/// Whether two lists of rows are the same.
pub(crate) fn are_same(rows: &RowSource, others: &RowSource) -> bool
    ensures { IsTrue result → rows.now ≡ others.now }
{
    if rows.len() != others.len() {
        return false;
    }
    for position in 0..rows.len() {
        if !same_at(rows, others, position as u64) {
            return false;
        }
    }
    true
}

/// Whether the rows at a position are the same.
fn same_at(rows: &RowSource, others: &RowSource, position: u64) -> bool
    ensures { IsTrue result → row_at rows.now position ≡ row_at others.now position }
{
    let width = rows.width(position);
    if others.width(position) != width {
        return false;
    }
    for column in 0..width {
        if !same(rows.value(position, column), others.value(position, column)) {
            return false;
        }
    }
    true
}
