//! The orders in which positions are taken before a stable sort: rows that tie keep this order.

ghost use Rattle.std.specs.Prelude.{◌≡◌, IfOk};
ghost use Rattle.wd_partition.specs.Columns as spec;

use std::alloc::Global;
use wd_columns::all_positions;
use wd_value::OutOfMemory;

/// The order in which positions are taken.
#[derive(Clone, Copy)]
pub enum Turn {
    /// From the first to the last.
    AsGiven,
    /// From the last to the first.
    Reversed,
    /// The first one moved to the end.
    Rotated,
    /// Neighbours exchanged two by two; an odd last one stays.
    Exchanged,
}

/// The positions of `count` rows in this order.
pub(crate) fn given_positions(
    alloc: Global,
    count: usize,
    turn: Turn,
) -> Result<Vec<u64>, OutOfMemory>
    ensures { IfOk result (λ v. v.items ≡ spec.given_positions turn count) }
{
    let mut all = all_positions(alloc, count)?;
    match turn {
        Turn::AsGiven => Ok(all),
        Turn::Reversed => {
            all.reverse();
            Ok(all)
        }
        Turn::Rotated => rotate(alloc, &all),
        Turn::Exchanged => exchange(alloc, &all),
    }
}

/// The positions with the first one moved to the end.
fn rotate(alloc: Global, positions: &[u64]) -> Result<Vec<u64>, OutOfMemory>
    ensures { IfOk result (λ v. v.items ≡ spec.rotated positions.now) }
{
    match positions {
        [] => Ok(Vec::new(alloc)),
        [first, rest @ ..] => {
            let mut turned = rest.to_vec(alloc)?;
            turned.push(*first)?;
            Ok(turned)
        }
    }
}

/// The positions with neighbours exchanged two by two; an odd last one stays.
fn exchange(alloc: Global, positions: &[u64]) -> Result<Vec<u64>, OutOfMemory>
    ensures { IfOk result (λ v. v.items ≡ spec.exchanged positions.now) }
{
    let mut turned = Vec::with_capacity(alloc, positions.len())?;
    let mut rest = positions;
    while let [first, second, after @ ..] = rest {
        turned.push(*second)?;
        turned.push(*first)?;
        rest = after;
    }
    if let [last] = rest {
        turned.push(*last)?;
    }
    Ok(turned)
}
