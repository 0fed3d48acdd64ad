//! The values of expressions over rows, one column after the other.

ghost use Rattle.std.specs.Prelude.{◌≡◌, IfOk, map};
ghost use Rattle.wd_plan.specs.Expressions.{expression_of, value_of};
ghost use Rattle.wd_plan.specs.Faults.{all_ok};
ghost use Rattle.wd_plan.specs.Outcomes as spec;
ghost use Rattle.wd_steps.specs.Gathered.{row_of};
ghost use Rattle.wd_value.specs.Rows.{column_of};

use crate::fault::with_fault;
use std::alloc::Global;
use wd_columns::{Columns, RowSource};
use wd_plan::Expr;
use wd_scalar::value_at;
use wd_value::{Fault, OutOfMemory, Value};

/// A column of the values of each expression over the rows, or the least fault among all of them.
pub fn map_columns(
    alloc: Global,
    outputs: &[Expr],
    rows: &RowSource,
) -> Result<Result<Columns, Fault>, OutOfMemory>
    ensures { IfOk result (λ r. r ≡ spec.map_outcome (map expression_of outputs.now) rows.now) }
{
    let mut columns = Vec::with_capacity(alloc, outputs.len())?;
    let mut fault = None;
    for output in outputs {
        match mapped_column(alloc, output, rows)? {
            Ok(column) => columns.push(column)?,
            Err(found) => fault = Some(with_fault(fault, found)),
        }
    }
    match fault {
        None => Ok(Ok(Columns::new(columns, rows.len()))),
        Some(fault) => Ok(Err(fault)),
    }
}

/// The values of an expression over the rows, or the least fault among them.
fn mapped_column(
    alloc: Global,
    output: &Expr,
    rows: &RowSource,
) -> Result<Result<Vec<Value>, Fault>, OutOfMemory>
    ensures { IfOk result (λ r. row_of r ≡ all_ok (map (value_of (expression_of output.now)) rows.now)) }
{
    match output {
        Expr::Column(column) => Ok(Ok(copied_column(alloc, *column, rows)?)),
        _ => evaluated_column(alloc, output, rows),
    }
}

/// The values in a column of the rows.
fn copied_column(alloc: Global, column: u16, rows: &RowSource) -> Result<Vec<Value>, OutOfMemory>
    ensures { IfOk result (λ v. v.items ≡ map (λ row. column_of row column) rows.now) }
{
    let mut values = Vec::with_capacity(alloc, rows.len())?;
    for position in 0..rows.len() {
        values.push(rows.value(position as u64, column as usize).copy(alloc)?)?;
    }
    Ok(values)
}

/// The values of an expression, evaluated row by row, or the least fault among them. After a fault
/// the values are still looked at for a lesser one.
fn evaluated_column(
    alloc: Global,
    output: &Expr,
    rows: &RowSource,
) -> Result<Result<Vec<Value>, Fault>, OutOfMemory>
    ensures { IfOk result (λ r. row_of r ≡ all_ok (map (value_of (expression_of output.now)) rows.now)) }
{
    let mut values = Vec::with_capacity(alloc, rows.len())?;
    let mut fault = None;
    for position in 0..rows.len() {
        match value_at(alloc, output, rows, position as u64)? {
            Ok(value) => values.push(value)?,
            Err(found) => fault = Some(with_fault(fault, found)),
        }
    }
    match fault {
        None => Ok(Ok(values)),
        Some(fault) => Ok(Err(fault)),
    }
}
