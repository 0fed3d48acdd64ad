//! Values that have a JSON form, and lists of them.

ghost use Rattle.std.specs.Prelude.{◌≡◌, map, IfOk};
ghost use Rattle.serde_json.specs.Data.{Data};
ghost use Rattle.serde_json.specs.View.{view};
ghost use Rattle.wd_json.specs.Json.{list_json};

use serde_json::Value;
use std::alloc::Global;
use wd_value::OutOfMemory;

/// A value that has a JSON form.
pub trait InJson: Drop {
    // What contracts see of a value, and the JSON value of that.
    ghost Said: { Type 0 };

    ghost said: { Self → Self.Said };

    ghost json: { Self.Said → Data };

    /// The value's form.
    fn to_value(&self, alloc: Global) -> Result<Value, OutOfMemory>
        ensures { IfOk result (λ v. view v ≡ Self.json (Self.said self.now)) };
}

/// The list of the elements' forms.
pub fn list_value<T: InJson>(alloc: Global, items: &[T]) -> Result<Value, OutOfMemory>
    ensures { IfOk result (λ v. view v ≡ list_json T.json (map T.said items.now)) }
{
    let mut list = Vec::with_capacity(alloc, items.len())?;
    for item in items {
        let value = item.to_value(alloc)?;
        list.push(value)?;
    }
    Ok(Value::Array(list))
}
