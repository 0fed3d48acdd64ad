//! Numbers for rows, equal exactly for rows of one group of a set.

ghost use Rattle.std.specs.Prelude.{◌≡◌, ℕ, ◌<◌, ◌*◌, ◌^◌, [], true, All, IfOk, get_or, length};
ghost use Rattle.wd_group.specs.Numbered.{AreNumbersOfEach};
ghost use Rattle.wd_group.specs.Pairs.{ArePairNumbers};
ghost use Rattle.wd_sort.specs.Numbers.{AreNumbersBy};

use crate::pairs::pair_numbers;
use std::alloc::Global;
use wd_columns::RowSource;
use wd_sort::{Coding, pair, value_numbers};
use wd_value::OutOfMemory;

/// For each of the first `columns` columns a number for each row; two are equal exactly where the values are the same. So the texts of
/// a column are looked up here, and not again for each set.
pub(crate) fn column_numbers(
    alloc: Global,
    rows: &RowSource,
    columns: u16,
) -> Result<Vec<Coding>, OutOfMemory>
    ensures { IfOk result (λ v. AreNumbersOfEach columns rows.now v.items) }
{
    let mut found = Vec::with_capacity(alloc, columns as usize)?;
    for column in 0..columns {
        let numbers = value_numbers(alloc, rows, column)?;
        found.push(numbers)?;
    }
    Ok(found)
}

/// A number for each row; two are equal exactly where the rows are the same in these columns.
pub(crate) fn row_numbers(
    alloc: Global,
    rows: &RowSource,
    numbers: &[Coding],
    columns: &[u16],
) -> Result<Coding, OutOfMemory>
    requires numbers { AreNumbersOfEach (length numbers.now) rows.now numbers.now }
    requires within { All (λ c. c < length numbers.now) columns.now }
    ensures { IfOk result (λ c. AreNumbersBy columns.now rows.now c.bound c.codes.items) }
{
    let mut joined = one_number(alloc, rows)?;
    for i in 0..columns.len() {
        joined = both(alloc, joined, &numbers[columns[i] as usize])?;
    }
    Ok(joined)
}

/// One number for all rows.
fn one_number(alloc: Global, rows: &RowSource) -> Result<Coding, OutOfMemory>
    ensures { IfOk result (λ c. AreNumbersBy [] rows.now c.bound c.codes.items) }
{
    let codes = vec![in alloc; 0; rows.len()]?;
    Ok(Coding { codes, bound: 1 })
}

/// A number for each place of two lists of numbers; two are equal exactly where both numbers are. The two numbers are coded as one
/// where there are not too many pairs below the bounds (`are_dense`); otherwise the pairs that are met are numbered.
fn both(alloc: Global, first: Coding, second: &Coding) -> Result<Coding, OutOfMemory>
    requires long { length first.codes.items ≡ length second.now.codes.items }
    requires high { (k : ℕ) → k < length first.codes.items → get_or first.codes.items k 0 < first.bound }
    requires low { (k : ℕ) → k < length first.codes.items → get_or second.now.codes.items k 0 < second.now.bound }
    ensures { IfOk result (λ c. ArePairNumbers first.codes.items second.now.codes.items c.bound c.codes.items) }
{
    if are_dense(first.bound, second.bound, first.codes.len()) {
        Ok(pair(first, second))
    } else {
        pair_numbers(alloc, &first.codes, &second.codes)
    }
}

/// Whether there are at most about twice as many pairs below two bounds as there are rows.
fn are_dense(first: u64, second: u64, count: usize) -> bool
    ensures { result ≡ true → first * second < 2 ^ 64 }
{
    match first.checked_mul(second) {
        Some(bound) => bound / 2 <= (count as u64).saturating_add(8),
        None => false,
    }
}
