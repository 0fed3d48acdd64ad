//! The row of a group.

ghost use Rattle.std.specs.Prelude.{◌≡◌, IfOk};
ghost use Rattle.wd_calls.specs.Parts.{partition_of};
ghost use Rattle.wd_group.specs.Sets.{row_over, shown_in};
ghost use Rattle.wd_plan.specs.Outcomes as spec;
ghost use Rattle.wd_plan.specs.Plans.{HasMask, HaveMasks, group_call_of, grouping_of};
ghost use Rattle.wd_steps.specs.Gathered.{row_of};
ghost use Rattle.wd_value.specs.Rows.{column_of, row_at, rows_at};

use crate::mask::mask;
use std::alloc::Global;
use wd_calls::{Partition, aggregate_over};
use wd_columns::RowSource;
use wd_plan::{Group, GroupCall, has_column};
use wd_steps::with_fault;
use wd_value::{Fault, OutOfMemory, Row, Value};

/// What a set shows of the row at a position, and after that the values of the calls over the rows at the members' positions; or the
/// least fault of the calls.
pub(crate) fn group_row(
    alloc: Global,
    group: &Group,
    set: &[u16],
    rows: &RowSource,
    position: u64,
    members: &[u64],
) -> Result<Result<Row, Fault>, OutOfMemory>
    requires { HaveMasks (grouping_of group.now) }
    ensures { IfOk result (λ r. row_of r ≡ row_over (grouping_of group.now) set.now (rows_at rows.now members.now) (spec.shown group.now.columns set.now (row_at rows.now position))) }
{
    let mut row = shown_row(alloc, rows, position, set, group.columns, group.calls.len())?;
    let partition = Partition {
        rows,
        positions: members,
    };
    let mut fault = None;
    for call in &group.calls {
        match call_value(alloc, call, set, &partition)? {
            Ok(value) => row.push(value)?,
            Err(found) => fault = Some(with_fault(fault, found)),
        }
    }
    match fault {
        None => Ok(Ok(row)),
        Some(fault) => Ok(Err(fault)),
    }
}

/// What a set shows of the row at a position in the first `columns` columns, with memory for `room` more values.
fn shown_row(
    alloc: Global,
    rows: &RowSource,
    position: u64,
    set: &[u16],
    columns: u16,
    room: usize,
) -> Result<Row, OutOfMemory>
    ensures { IfOk result (λ r. r.items ≡ spec.shown columns set.now (row_at rows.now position)) }
{
    let mut shown = Vec::with_capacity(alloc, (columns as usize).saturating_add(room))?;
    for column in 0..columns {
        let value = shown_value(alloc, rows, position, set, column)?;
        shown.push(value)?;
    }
    Ok(shown)
}

/// A copy of the value in a column that the set has; NULL for another column.
fn shown_value(
    alloc: Global,
    rows: &RowSource,
    position: u64,
    set: &[u16],
    column: u16,
) -> Result<Value, OutOfMemory>
    ensures { IfOk result (λ v. v ≡ shown_in set.now (row_at rows.now position) column) }
{
    if !has_column(set, column) {
        return Ok(Value::Null);
    }
    value_at(alloc, rows, position, column)
}

/// A copy of the value in a column of the row at a position.
pub(crate) fn value_at(
    alloc: Global,
    rows: &RowSource,
    position: u64,
    column: u16,
) -> Result<Value, OutOfMemory>
    ensures { IfOk result (λ v. v ≡ column_of (row_at rows.now position) column) }
{
    rows.value(position, column as usize).copy(alloc)
}

/// The value of a call for a group of a set, or its fault.
fn call_value(
    alloc: Global,
    call: &GroupCall,
    set: &[u16],
    group: &Partition,
) -> Result<Result<Value, Fault>, OutOfMemory>
    requires { HasMask (group_call_of call.now) }
    ensures { IfOk result (λ r. r ≡ spec.group_value set.now (partition_of group.now) (group_call_of call.now)) }
{
    match call {
        GroupCall::OfRows(aggregate) => aggregate_over(alloc, *aggregate, group),
        GroupCall::Grouping(columns) => Ok(Ok(Value::Int(mask(set, columns) as i64))),
    }
}
