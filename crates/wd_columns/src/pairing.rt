//! Rows of pairs, for which no value is copied.

ghost use Rattle.std.specs.Prelude.{IfOk, length};
ghost use Rattle.wd_columns.specs.Pairing.{IsPairing};
ghost use Rattle.wd_joined.specs.Pairs.{AreOf};

use crate::own::OwnRows;
use std::alloc::Global;
use wd_joined::{JoinedRows, Pair, are_of};
use wd_value::OutOfMemory;

/// The rows of pairs, or both sides as they were.
#[derive(Drop)]
pub enum Pairing {
    Joined(OwnRows),
    Apart(OwnRows, OwnRows),
}

/// The rows of the pairs by their positions in the tables from which either side's rows come. Both sides stay apart where rows of one
/// are kept row by row, or where a pair is none of their rows.
pub fn pair_rows(
    alloc: Global,
    left: OwnRows,
    right: OwnRows,
    pairs: &[Pair],
) -> Result<Pairing, OutOfMemory>
    ensures { IfOk result (λ p. IsPairing left right pairs.now p) }
{
    if !are_of(pairs, left.source().len(), right.source().len()) {
        return Ok(Pairing::Apart(left, right));
    }
    match left.into_joined(alloc)? {
        Ok(first) => join_to(alloc, first, right, pairs),
        Err(first) => Ok(Pairing::Apart(first, right)),
    }
}

/// The same for left rows that are joined rows.
fn join_to(
    alloc: Global,
    left: JoinedRows,
    right: OwnRows,
    pairs: &[Pair],
) -> Result<Pairing, OutOfMemory>
    requires { AreOf (length left) (length right) pairs.now }
    ensures { IfOk result (λ p. IsPairing left right pairs.now p) }
{
    match right.into_joined(alloc)? {
        Ok(second) => {
            let joined = JoinedRows::of_pairs(alloc, left, second, pairs)?;
            Ok(Pairing::Joined(OwnRows::of_joined(joined)))
        }
        Err(second) => Ok(Pairing::Apart(OwnRows::of_joined(left), second)),
    }
}
