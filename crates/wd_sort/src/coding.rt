//! Numbers for the rows at positions.

ghost use Rattle.std.specs.Prelude.{◌≡◌, ℕ, ◌*◌, ◌<◌, ◌^◌, [], ◌∷◌, IfOk, IfSome, get_or, length};
ghost use Rattle.wd_sort.specs.Codes.{ArePairs, IsCodingBelow};

use crate::numbering::value_codes;
use crate::whole::{whole_codes, whole_range};
use std::alloc::Global;
use wd_columns::RowSource;
use wd_value::{OutOfMemory, SortColumn};

/// A number for each position, below the bound.
#[derive(Drop)]
pub struct Coding {
    pub codes: Vec<u64>,
    pub bound: u64,
}

/// Numbers that compare as the values of a column; `None` where all values are whole numbers in a range that is too wide.
pub fn column_coding(
    alloc: Global,
    rows: &RowSource,
    column: SortColumn,
    positions: &[u64],
) -> Result<Option<Coding>, OutOfMemory>
    ensures { IfOk result (λ o. IfSome o (λ c. IsCodingBelow (column ∷ []) rows.now positions.now c.bound c.codes.items)) }
{
    match whole_range(rows, column.column, positions) {
        Some(range) => whole_codes(alloc, rows, column, positions, range),
        None => {
            let coding = value_codes(alloc, rows, column, positions)?;
            Ok(Some(coding))
        }
    }
}

/// The numbers of a column and, where these tie, of the columns after it, in the memory of the first; `None` where a pair does not fit 64
/// bits.
pub fn combine(first: Coding, others: &Coding) -> Option<Coding>
    requires long { length first.codes.items ≡ length others.now.codes.items }
    requires high { (k : ℕ) → k < length first.codes.items → get_or first.codes.items k 0 < first.bound }
    requires low { (k : ℕ) → k < length first.codes.items → get_or others.now.codes.items k 0 < others.now.bound }
    ensures { IfSome result (λ c. ArePairs first.codes.items others.now.codes.items others.now.bound c.codes.items × (c.bound ≡ first.bound * others.now.bound)) }
{
    first.bound.checked_mul(others.bound)?;
    Some(pair(first, others))
}

/// Both numbers of each position as one, in the memory of the first.
pub fn pair(first: Coding, others: &Coding) -> Coding
    requires long { length first.codes.items ≡ length others.now.codes.items }
    requires high { (k : ℕ) → k < length first.codes.items → get_or first.codes.items k 0 < first.bound }
    requires low { (k : ℕ) → k < length first.codes.items → get_or others.now.codes.items k 0 < others.now.bound }
    requires room { first.bound * others.now.bound < 2 ^ 64 }
    ensures pairs { ArePairs first.codes.items others.now.codes.items others.now.bound result.codes.items }
    ensures bound { result.bound ≡ first.bound * others.now.bound }
{
    let bound = first.bound * others.bound;
    let mut codes = first.codes;
    for k in 0..codes.len() {
        codes[k] = codes[k] * others.bound + others.codes[k];
    }
    Coding { codes, bound }
}
