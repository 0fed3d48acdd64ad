//! Whole numbers and lists of them.

ghost use Rattle.std.specs.Prelude.{◌≡◌, ℕ, List, IfOk};
ghost use Rattle.serde_json.specs.View.{view};
ghost use Rattle.wd_json.specs.Json.{number_json, list_json};

use crate::forms::{InJson, list_value};
use serde_json::Value;
use std::alloc::Global;
use wd_value::OutOfMemory;

impl InJson for u64 {
    ghost Said = { ℕ };

    ghost said = { λ n. n };

    ghost json = { number_json };

    fn to_value(&self, _alloc: Global) -> Result<Value, OutOfMemory> {
        Ok(Value::from(*self))
    }
}

impl InJson for Vec<u64> {
    ghost Said = { List ℕ };

    ghost said = { λ v. v.items };

    ghost json = { λ ns. list_json number_json ns };

    fn to_value(&self, alloc: Global) -> Result<Value, OutOfMemory> {
        list_value(alloc, self)
    }
}

/// A list of numbers.
pub fn numbers_value(alloc: Global, numbers: &[u64]) -> Result<Value, OutOfMemory>
    ensures { IfOk result (λ v. view v ≡ list_json number_json numbers.now) }
{
    list_value(alloc, numbers)
}
