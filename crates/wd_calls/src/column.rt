//! A column of a call's values.

ghost use Rattle.std.specs.Prelude.{◌≡◌, ℕ, [], ◌∷◌, false, replicate, set, IfOk, Result};
ghost use Rattle.wd_calls.specs.CallColumns.{ArePut};
ghost use Rattle.wd_value.specs.declared.value.Fault as faults;
ghost use Rattle.wd_value.specs.declared.value.Value as values;
ghost use Rattle.wd_value.specs.declared.value.Value.TheVariants as value;

use std::alloc::Global;
use wd_value::{Fault, OutOfMemory, Value};

/// The values of a call at rows, by the rows' positions: NULL where 64 bits don't hold a sum and where nothing was put yet. And
/// whether there is such a sum.
#[derive(Drop)]
pub struct CallColumn {
    pub values: Vec<Value>,
    pub out_of_range: bool,
}

impl CallColumn {
    /// A column for so many rows.
    pub fn blank(alloc: Global, rows: usize) -> Result<CallColumn, OutOfMemory>
        ensures values { IfOk result (λ c. c.values.items ≡ replicate rows value.Null) }
        ensures range { IfOk result (λ c. c.out_of_range ≡ false) }
    {
        let mut values = Vec::with_capacity(alloc, rows)?;
        for _ in 0..rows {
            values.push(Value::Null)?;
        }
        Ok(CallColumn {
            values,
            out_of_range: false,
        })
    }

    /// Puts a value at a position; past the last row nothing.
    pub(crate) fn put(&mut self, position: u64, value: Result<Value, Fault>)
        ensures { (f : ℕ → Result values.Value faults.Fault) → f position ≡ value → ArePut f (position ∷ []) self.old self.new }
    {
        match value {
            Ok(value) => set_at(&mut self.values, position, value),
            Err(_) => {
                set_at(&mut self.values, position, Value::Null);
                self.out_of_range = true;
            }
        }
    }
}

fn set_at(values: &mut Vec<Value>, position: u64, value: Value)
    ensures { values.new.items ≡ set values.old.items position value }
{
    let position = position as usize;
    if position < values.len() {
        values[position] = value;
    }
}
