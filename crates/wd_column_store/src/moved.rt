//! Rows moved out of a list.

ghost use Rattle.std.specs.Prelude.{◌≡◌, ℕ, IfOk};
ghost use Rattle.wd_column_store.specs.Moves.{AreDifferent};
ghost use Rattle.wd_value.specs.Rows.{row_at, rows_at, rows_of};

use std::alloc::Global;
use std::mem::replace;
use wd_value::{OutOfMemory, Row};

/// The rows at these positions, in their order. Each is moved: no position stands there twice.
pub fn moved_rows(alloc: Global, rows: Vec<Row>, positions: &[u64]) -> Result<Vec<Row>, OutOfMemory>
    requires { AreDifferent positions.now }
    ensures { IfOk result (λ v. rows_of v.items ≡ rows_at (rows_of rows.items) positions.now) }
{
    let mut picked = Vec::with_capacity(alloc, positions.len())?;
    let mut left = rows;
    for i in 0..positions.len() {
        picked.push(take_row(alloc, &mut left, positions[i]))?;
    }
    Ok(picked)
}

/// Takes the row at a position out; past the last there is the empty row.
fn take_row(alloc: Global, rows: &mut Vec<Row>, position: u64) -> Row
    ensures taken { result.items ≡ row_at (rows_of rows.old.items) position }
    ensures others { (p : ℕ) → (p ≡ position → ⊥) → row_at (rows_of rows.new.items) p ≡ row_at (rows_of rows.old.items) p }
{
    let index = position as usize;
    if index >= rows.len() {
        return Vec::new(alloc);
    }
    replace(&mut rows[index], Vec::new(alloc))
}
