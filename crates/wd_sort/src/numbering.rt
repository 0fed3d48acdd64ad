//! Numbers for the values of a column by the distinct ones among them.

ghost use Rattle.std.specs.Prelude.{◌≡◌, ◌<◌, ℕ, [], ◌∷◌, IfOk, OnOk, length, map, get_or};
ghost use Rattle.wd_sort.specs.Codes.{IsCodingBelow};
ghost use Rattle.wd_sort.specs.Known.{AreKnown, AreNumbers};

use crate::coding::Coding;
use crate::known::Known;
use crate::ranks::ranks_of;
use crate::seeded::Seeded;
use std::alloc::Global;
use wd_columns::RowSource;
use wd_value::{OutOfMemory, SortColumn, Value};

/// For each position the rank of its value among the column's.
pub fn value_codes(
    alloc: Global,
    rows: &RowSource,
    column: SortColumn,
    positions: &[u64],
) -> Result<Coding, OutOfMemory>
    ensures { IfOk result (λ c. IsCodingBelow (column ∷ []) rows.now positions.now c.bound c.codes.items) }
{
    let no = Value::Bool(false);
    let yes = Value::Bool(true);
    let seeded = Seeded::by_column(rows, column.column, positions);
    let known = Known::new(alloc, seeded, rows, &no, &yes)?;
    known_codes(alloc, rows, column, positions, known)
}

/// The ranks of the values, from the distinct values already known.
fn known_codes<'a>(
    alloc: Global,
    rows: &'a RowSource<'_>,
    column: SortColumn,
    positions: &[u64],
    known: Known<'a>,
) -> Result<Coding, OutOfMemory>
    requires { AreKnown known }
    ensures { IfOk result (λ c. IsCodingBelow (column ∷ []) rows.now positions.now c.bound c.codes.items) }
{
    let mut known = known;
    let numbers = numbers_of(alloc, rows, column.column, positions, &mut known)?;
    let ranks = ranks_of(alloc, &known.values, column.key)?;
    let codes = replace_numbers(numbers, &ranks);
    let bound = ranks.len() as u64;
    Ok(Coding { codes, bound })
}

/// For each position the place of its value among the known ones.
pub fn numbers_of<'a>(
    alloc: Global,
    rows: &'a RowSource<'_>,
    column: u16,
    positions: &[u64],
    known: &mut Known<'a>,
) -> Result<Vec<u64>, OutOfMemory>
    requires { AreKnown known.old }
    ensures known { OnOk result (AreKnown known.new) }
    ensures numbers { IfOk result (λ v. AreNumbers known.new column rows.now positions.now v.items) }
{
    let mut numbers = Vec::with_capacity(alloc, positions.len())?;
    for i in 0..positions.len() {
        let value = rows.value(positions[i], column as usize);
        let number = known.number_of(value)?;
        numbers.push(number)?;
    }
    Ok(numbers)
}

/// For each number the element at that place, in the memory of the numbers.
fn replace_numbers(numbers: Vec<u64>, elements: &[u64]) -> Vec<u64>
    requires { (k : ℕ) → k < length numbers.items → get_or numbers.items k 0 < length elements.now }
    ensures { result.items ≡ map (λ n. get_or elements.now n 0) numbers.items }
{
    let mut found = numbers;
    for i in 0..found.len() {
        found[i] = elements[found[i] as usize];
    }
    found
}
