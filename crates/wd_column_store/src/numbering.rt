//! The positions of rows.

ghost use Rattle.std.specs.Prelude.{◌≡◌, IfOk};
ghost use Rattle.wd_value.specs.Bags as bags;

use std::alloc::Global;
use wd_value::OutOfMemory;

/// The first so many positions, in order.
#[tactic(auto, using(crate::proofs::Positions::positions_push))]
pub fn all_positions(alloc: Global, count: usize) -> Result<Vec<u64>, OutOfMemory>
    ensures { IfOk result (λ v. v.items ≡ bags.positions count) }
{
    let mut all = Vec::with_capacity(alloc, count)?;
    for position in 0..count {
        all.push(position as u64)?;
    }
    Ok(all)
}
