//! Pairs of rows by their positions.

ghost use Rattle.std.specs.Prelude.{◌≡◌, ◌↔◌, IfOk, IsTrue, map};
ghost use Rattle.wd_joined.specs.Pairs.{AreOf};
ghost use Rattle.wd_value.specs.Rows.{Row};

use std::alloc::Global;
use wd_value::OutOfMemory;

/// The positions of a left and of a right row.
#[derive(Clone, Copy)]
pub struct Pair {
    pub left: u64,
    pub right: u64,
}

/// The positions of the left rows.
pub fn left_positions(alloc: Global, pairs: &[Pair]) -> Result<Vec<u64>, OutOfMemory>
    ensures { IfOk result (λ v. v.items ≡ map (λ pair. pair.left) pairs.now) }
{
    let mut positions = Vec::with_capacity(alloc, pairs.len())?;
    for pair in pairs {
        positions.push(pair.left)?;
    }
    Ok(positions)
}

/// The positions of the right rows.
pub fn right_positions(alloc: Global, pairs: &[Pair]) -> Result<Vec<u64>, OutOfMemory>
    ensures { IfOk result (λ v. v.items ≡ map (λ pair. pair.right) pairs.now) }
{
    let mut positions = Vec::with_capacity(alloc, pairs.len())?;
    for pair in pairs {
        positions.push(pair.right)?;
    }
    Ok(positions)
}

/// Whether each pair is one of so many left rows and so many right ones.
pub fn are_of(pairs: &[Pair], left: usize, right: usize) -> bool
    ensures { IsTrue result ↔ AreOf left right pairs.now }
{
    pairs.iter().all(|pair| (pair.left as usize) < left && (pair.right as usize) < right)
}
