ghost use Rattle.std.specs.Prelude.{◌≡◌, IfOk};

use crate::value::{OutOfMemory, Row, Value};
use std::alloc::Global;

/// An equal row with memory of its own.
pub fn copy_row(alloc: Global, row: &[Value]) -> Result<Row, OutOfMemory>
    ensures { IfOk result (λ r. r.items ≡ row.now) }
{
    let mut copied = Vec::with_capacity(alloc, row.len())?;
    for value in row {
        copied.push(value.copy(alloc)?)?;
    }
    Ok(copied)
}
