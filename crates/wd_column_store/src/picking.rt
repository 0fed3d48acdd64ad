//! Columns of the rows at some positions: the values of one column after the other are moved, so that no row is made of them.

ghost use Rattle.std.specs.Prelude.{◌≡◌, IfOk, map};
ghost use Rattle.wd_column_store.specs.Along as along;
ghost use Rattle.wd_column_store.specs.Moves.{AreDifferent};
ghost use Rattle.wd_value.specs.Rows.{rows_of};

use crate::taking::take_value;
use std::alloc::Global;
use wd_value::{OutOfMemory, Value};

/// The values of each column at these positions, in their order. No position is there twice.
pub fn picked_columns(
    alloc: Global,
    columns: Vec<Vec<Value>>,
    positions: &[u64],
) -> Result<Vec<Vec<Value>>, OutOfMemory>
    requires { AreDifferent positions.now }
    ensures { IfOk result (λ v. rows_of v.items ≡ map (λ column. along.values_at column positions.now) (rows_of columns.items)) }
{
    let mut picked = Vec::with_capacity(alloc, columns.len())?;
    for column in columns {
        let values = values_at(alloc, column, positions)?;
        picked.push(values)?;
    }
    Ok(picked)
}

/// The values of a column at these positions, in their order.
fn values_at(
    alloc: Global,
    column: Vec<Value>,
    positions: &[u64],
) -> Result<Vec<Value>, OutOfMemory>
    requires { AreDifferent positions.now }
    ensures { IfOk result (λ v. v.items ≡ along.values_at column.items positions.now) }
{
    let mut picked = Vec::with_capacity(alloc, positions.len())?;
    let mut left = column;
    for i in 0..positions.len() {
        picked.push(take_value(&mut left, positions[i] as usize))?;
    }
    Ok(picked)
}
