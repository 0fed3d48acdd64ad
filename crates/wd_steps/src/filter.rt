//! The rows for which a condition is true.

ghost use Rattle.std.specs.Prelude.{◌≡◌, IfOk, List, length};
ghost use Rattle.wd_column_store.specs.Moves.{AreDifferent, AreWithin};
ghost use Rattle.wd_plan.specs.Expressions.{expression_of};
ghost use Rattle.wd_plan.specs.Outcomes as spec;
ghost use Rattle.wd_plan.specs.Faults.{unless};
ghost use Rattle.wd_steps.specs.Passing.{found_in};
ghost use Rattle.wd_value.specs.Rows.{Row, rows_at};

use crate::fault::with_value;
use std::alloc::Global;
use wd_columns::RowSource;
use wd_plan::Expr;
use wd_scalar::{is_true, value_at};
use wd_value::{Fault, OutOfMemory, Value};

/// The positions of the rows for which the condition is true, in their order, or the least fault among all rows.
pub fn passing_positions(
    alloc: Global,
    condition: &Expr,
    rows: &RowSource,
) -> Result<Result<Vec<u64>, Fault>, OutOfMemory>
    ensures passing { IfOk result (λ r. found_in rows.now r ≡ spec.filter_outcome (expression_of condition.now) rows.now) }
    ensures different { IfOk result (λ r. IfOk r (λ v. AreDifferent v.items)) }
    ensures within { IfOk result (λ r. IfOk r (λ v. AreWithin (length rows.now) v.items)) }
{
    let mut kept = Vec::new(alloc);
    let mut fault = None;
    for i in 0..rows.len() {
        let value = value_at(alloc, condition, rows, i as u64)?;
        fault = with_value(fault, &value);
        if passes(&value) {
            kept.push(i as u64)?;
        }
    }
    Ok(positions_or_fault(kept, fault))
}

/// The positions, or the fault where there is one.
fn positions_or_fault(positions: Vec<u64>, fault: Option<Fault>) -> Result<Vec<u64>, Fault>
    ensures found { (rows : List Row) → found_in rows result ≡ unless fault (rows_at rows positions.items) }
    ensures same { IfOk result (λ v. v ≡ positions) }
{
    match fault {
        None => Ok(positions),
        Some(fault) => Err(fault),
    }
}

/// Whether a condition is true: not where it is false, NULL or a fault.
pub fn passes(value: &Result<Value, Fault>) -> bool
    ensures { result ≡ spec.passes value.now }
{
    match value {
        Ok(value) => is_true(value),
        Err(_) => false,
    }
}
