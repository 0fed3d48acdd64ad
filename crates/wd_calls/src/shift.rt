//! LAG and LEAD.

ghost use Rattle.std.specs.Prelude.{◌≡◌, IfOk};
ghost use Rattle.wd_calls.specs.Parts.{partition_of};
ghost use Rattle.wd_plan.specs.Calls as calls;
ghost use Rattle.wd_plan.specs.declared.function.Direction.TheVariants as direction;

use crate::partition::{Partition, copy_at};
use std::alloc::Global;
use wd_plan::{Direction, Shift};
use wd_value::{OutOfMemory, Value};

/// The value of a column at the shift's distance in the partition, else the default.
pub(crate) fn value_away(
    alloc: Global,
    shift: &Shift,
    partition: &Partition,
    place: usize,
) -> Result<Value, OutOfMemory>
    ensures { IfOk result (λ v. v ≡ calls.value_away shift.now.direction shift.now.argument shift.now.offset shift.now.default (partition_of partition.now) place) }
{
    match shift.direction {
        Direction::Lag => earlier(alloc, shift, partition, place),
        Direction::Lead => later(alloc, shift, partition, place),
    }
}

/// The value at the shift's distance before the place, else the default.
fn earlier(
    alloc: Global,
    shift: &Shift,
    partition: &Partition,
    place: usize,
) -> Result<Value, OutOfMemory>
    ensures { IfOk result (λ v. v ≡ calls.value_away direction.Lag shift.now.argument shift.now.offset shift.now.default (partition_of partition.now) place) }
{
    match (place as u64).checked_sub(shift.offset) {
        Some(other) => copy_at(alloc, partition, other as usize, shift.argument),
        None => shift.default.copy(alloc),
    }
}

/// The value at the shift's distance after the place, else the default.
fn later(
    alloc: Global,
    shift: &Shift,
    partition: &Partition,
    place: usize,
) -> Result<Value, OutOfMemory>
    ensures { IfOk result (λ v. v ≡ calls.value_away direction.Lead shift.now.argument shift.now.offset shift.now.default (partition_of partition.now) place) }
{
    match (place as u64).checked_add(shift.offset) {
        Some(other) if other < partition.positions.len() as u64 => {
            copy_at(alloc, partition, other as usize, shift.argument)
        }
        _ => shift.default.copy(alloc),
    }
}
