//! The peer group number and the key of each of the positions sorted by partition.

ghost use Rattle.std.specs.Prelude.{◌≡◌, ◌+◌, ◌<◌, ◌≤◌, ◌^◌, IfOk, length, map};
ghost use Rattle.wd_partition.specs.Indexed.{AreIndexedRows, class_of};
ghost use Rattle.wd_partition.specs.Members as members;
ghost use Rattle.wd_partition.specs.Steps as spec;
ghost use Rattle.wd_value.specs.Rows.{row_at, rows_at, column_of};

use crate::indexed::IndexedRows;
use crate::steps::Step;
use std::alloc::Global;
use wd_columns::RowSource;
use wd_value::{OutOfMemory, SortColumn, Value};

/// The peer group number of the row at each of the positions, in its own partition.
pub fn group_numbers(alloc: Global, indexed: &IndexedRows) -> Result<Vec<u32>, OutOfMemory>
    requires short { length indexed.now.positions.now < 2 ^ 32 }
    requires indexed { AreIndexedRows indexed.now }
    ensures { IfOk result (λ v. v.items ≡ map (members.own_group (class_of indexed.now) indexed.now.rows.now indexed.now.positions.now) indexed.now.positions.now) }
{
    let mut groups = Vec::with_capacity(alloc, indexed.positions.len())?;
    let mut group = 0;
    for i in 0..indexed.positions.len() {
        group = group_after(indexed.steps[i], group);
        groups.push(group)?;
    }
    Ok(groups)
}

/// The peer group number after a step, from the number before it.
fn group_after(step: Step, group: u32) -> u32
    requires { group + 1 < 2 ^ 32 }
    ensures is { result ≡ spec.group_after step group }
    ensures small { result ≤ group + 1 }
{
    match step {
        Step::Partition => 0,
        Step::Group => group + 1,
        Step::Peer => group,
    }
}

/// The value of the only sort key at each of the positions, if these values are requested: whole numbers, and NULL in place of everything
/// else. No text is copied.
pub fn key_numbers(
    alloc: Global,
    rows: &RowSource,
    keys: &[SortColumn],
    positions: &[u64],
    asked: bool,
) -> Result<Vec<Value>, OutOfMemory>
    ensures { IfOk result (λ v. v.items ≡ members.key_numbers asked keys.now (rows_at rows.now positions.now)) }
{
    match keys {
        [key] if asked => {
            let numbers = column_numbers(alloc, rows, key.column, positions)?;
            Ok(numbers)
        }
        _ => Ok(Vec::new(alloc)),
    }
}

fn column_numbers(
    alloc: Global,
    rows: &RowSource,
    column: u16,
    positions: &[u64],
) -> Result<Vec<Value>, OutOfMemory>
    ensures { IfOk result (λ v. v.items ≡ map (λ r. members.number_part (column_of r column)) (rows_at rows.now positions.now)) }
{
    let mut numbers = Vec::with_capacity(alloc, positions.len())?;
    for position in positions {
        numbers.push(number_at(rows, *position, column))?;
    }
    Ok(numbers)
}

fn number_at(rows: &RowSource, position: u64, column: u16) -> Value
    ensures { result ≡ members.number_part (column_of (row_at rows.now position) column) }
{
    number_part(rows.value(position, column as usize))
}

/// A whole number, and NULL in place of everything else.
fn number_part(value: &Value) -> Value
    ensures { result ≡ members.number_part value.now }
{
    match value {
        Value::Int(n) => Value::Int(*n),
        _ => Value::Null,
    }
}
