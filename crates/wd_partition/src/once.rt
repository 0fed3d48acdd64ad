//! Whether a list has each position once.

ghost use Rattle.std.specs.Prelude.{◌↔◌, IfOk, IsTrue};
ghost use Rattle.wd_value.specs.Bags.{EachOnce};

use std::alloc::Global;
use wd_value::OutOfMemory;

/// Whether the list has each position below `count` once, and nothing else. Takes time linear in `count`, and a mark for each position.
pub fn has_each_once(alloc: Global, count: usize, list: &[u64]) -> Result<bool, OutOfMemory>
    ensures { IfOk result (λ b. IsTrue b ↔ EachOnce count list.now) }
{
    if list.len() != count {
        return Ok(false);
    }
    let mut marks = vec![in alloc; false; count]?;
    for position in list {
        let index = *position as usize;
        if index >= count || marks[index] {
            return Ok(false);
        }
        marks[index] = true;
    }
    Ok(true)
}
