//! Rows of a list, each with a further value.

ghost use Rattle.std.specs.Prelude.{◌≡◌, ◌++◌, ◌∷◌, [], ◌<◌, ℕ, IfOk, OnOk, length};
ghost use Rattle.wd_column_store.specs.Along.{with_values};
ghost use Rattle.wd_value.specs.Rows.{row_at, rows_of};

use wd_value::{OutOfMemory, Row, Value};

/// Each row with the value beside it after its own, and NULL past the last value. The rows are extended in place.
pub fn with_values_beside(mut rows: Vec<Row>, values: Vec<Value>) -> Result<Vec<Row>, OutOfMemory>
    ensures { IfOk result (λ v. rows_of v.items ≡ with_values (rows_of rows.items) values.items) }
{
    let mut left = values.into_iter();
    for position in 0..rows.len() {
        let value = left.next().unwrap_or(Value::Null);
        push_after(&mut rows, position, value)?;
    }
    Ok(rows)
}

/// Puts a value after the own ones of the row at a position.
fn push_after(rows: &mut Vec<Row>, position: usize, value: Value) -> Result<(), OutOfMemory>
    requires { position < length rows.old.items }
    ensures long { OnOk result (length rows.new.items ≡ length rows.old.items) }
    ensures pushed { OnOk result (row_at (rows_of rows.new.items) position ≡ row_at (rows_of rows.old.items) position ++ value ∷ []) }
    ensures others { OnOk result ((p : ℕ) → (p ≡ position → ⊥) → row_at (rows_of rows.new.items) p ≡ row_at (rows_of rows.old.items) p) }
{
    rows[position].push(value)?;
    Ok(())
}
