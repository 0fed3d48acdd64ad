//! Numbers for all rows of a list, which are found once; the rows are then sorted and compared by them.

ghost use Rattle.std.specs.Prelude.{◌≡◌, ℕ, ◌<◌, List, [], IfOk, IfSome, All, get_or, length, map};
ghost use Rattle.wd_sort.specs.AllCodes.{AreCodesOfAll};
ghost use Rattle.wd_sort.specs.Sorting.{IsStableSortOf};
ghost use Rattle.wd_value.specs.Rows.{Row};
ghost use Rattle.wd_value.specs.declared.order.SortColumn.{SortColumn};

use crate::codes::sort_by_codes;
use crate::coding::Coding;
use crate::columns::{Last, last_coding};
use std::alloc::Global;
use wd_columns::{RowSource, all_positions};
use wd_value::{OutOfMemory, SortColumn};

/// A number for each row, by its position, that compares as the row does by the columns; `None` where a column has no codes, or where the
/// codes of all columns together don't fit 64 bits.
pub fn row_coding(
    alloc: Global,
    rows: &RowSource,
    columns: &[SortColumn],
) -> Result<Option<Coding>, OutOfMemory>
    ensures { IfOk result (λ o. IfSome o (λ c. AreCodesOfAll columns.now rows.now c.bound c.codes.items)) }
{
    if columns.is_empty() {
        let coding = one_code(alloc, rows)?;
        return Ok(Some(coding));
    }
    let all = all_positions(alloc, rows.len())?;
    let Some(last) = last_coding(alloc, rows, columns, &all)? else {
        return Ok(None);
    };
    let Last { start, coding } = last;
    if start > 0 {
        return Ok(None);
    }
    Ok(Some(coding))
}

/// One number for all rows, which all tie where there is no column.
fn one_code(alloc: Global, rows: &RowSource) -> Result<Coding, OutOfMemory>
    ensures { IfOk result (λ c. AreCodesOfAll [] rows.now c.bound c.codes.items) }
{
    let mut codes = Vec::with_capacity(alloc, rows.len())?;
    for _ in 0..rows.len() {
        codes.push(0)?;
    }
    Ok(Coding { codes, bound: 1 })
}

/// The stable sort of positions by the numbers of all rows.
pub fn sort_by_coding(
    alloc: Global,
    coding: &Coding,
    positions: &[u64],
) -> Result<Vec<u64>, OutOfMemory>
    requires within { All (λ p. p < length coding.now.codes.items) positions.now }
    requires below { (p : ℕ) → p < length coding.now.codes.items → get_or coding.now.codes.items p 0 < coding.now.bound }
    ensures { IfOk result (λ v. (columns : List SortColumn) (rows : List Row) → AreCodesOfAll columns rows coding.now.bound coding.now.codes.items → IsStableSortOf columns rows positions.now v.items) }
{
    let codes = codes_at(alloc, &coding.codes, positions)?;
    sort_by_codes(alloc, codes, coding.bound, positions)
}

/// The numbers at positions.
fn codes_at(alloc: Global, codes: &[u64], positions: &[u64]) -> Result<Vec<u64>, OutOfMemory>
    requires { All (λ p. p < length codes.now) positions.now }
    ensures { IfOk result (λ v. v.items ≡ map (λ p. get_or codes.now p 0) positions.now) }
{
    let mut found = Vec::with_capacity(alloc, positions.len())?;
    for i in 0..positions.len() {
        found.push(codes[positions[i] as usize])?;
    }
    Ok(found)
}
