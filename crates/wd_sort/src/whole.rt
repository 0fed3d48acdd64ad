//! Numbers for the values of a column of whole numbers.

ghost use Rattle.std.specs.Prelude.{◌≡◌, [], ◌∷◌, ◌^◌, ◌<◌, ◌+◌, ◌-ℤ◌, IfOk, IfSome, unsigned_abs};
ghost use Rattle.wd_sort.specs.Codes as spec;
ghost use Rattle.wd_sort.specs.Codes.{AreWhole, IsCodingBelow, IsWhole, IsWider};
ghost use Rattle.wd_value.specs.Rows.{column_of, row_at};

use crate::coding::Coding;
use std::alloc::Global;
use wd_columns::RowSource;
use wd_value::{OutOfMemory, SortColumn, SortKey, Value};

/// A range of whole numbers, by the least and the greatest.
#[derive(Clone, Copy)]
pub struct Range {
    least: i64,
    greatest: i64,
}

impl Range {
    /// The difference of the greatest and the least.
    pub fn width(self) -> u64
        ensures { result ≡ unsigned_abs (self.greatest -ℤ self.least) }
    {
        self.greatest.abs_diff(self.least)
    }
}

/// The range of the whole numbers of a column, or that of 0 alone where all values are NULL; `None` where it has other values.
pub fn whole_range(rows: &RowSource, column: u16, positions: &[u64]) -> Option<Range>
    ensures { IfSome result (λ r. AreWhole r.least r.greatest column rows.now positions.now) }
{
    let mut range = Range {
        least: i64::MAX,
        greatest: i64::MIN,
    };
    for i in 0..positions.len() {
        range = widen(range, rows, column, positions[i])?;
    }
    if range.greatest < range.least {
        return Some(Range {
            least: 0,
            greatest: 0,
        });
    }
    Some(range)
}

fn widen(range: Range, rows: &RowSource, column: u16, position: u64) -> Option<Range>
    ensures wider { IfSome result (λ r. IsWider range.least range.greatest r.least r.greatest) }
    ensures whole { IfSome result (λ r. IsWhole r.least r.greatest (column_of (row_at rows.now position) column)) }
{
    match rows.value(position, column as usize) {
        Value::Null => Some(range),
        Value::Int(n) => Some(Range {
            least: range.least.min(*n),
            greatest: range.greatest.max(*n),
        }),
        _ => None,
    }
}

/// For each position how far its value is along the range; `None` where the range is too wide.
pub fn whole_codes(
    alloc: Global,
    rows: &RowSource,
    column: SortColumn,
    positions: &[u64],
    range: Range,
) -> Result<Option<Coding>, OutOfMemory>
    requires { AreWhole range.least range.greatest column.column rows.now positions.now }
    ensures { IfOk result (λ o. IfSome o (λ c. IsCodingBelow (column ∷ []) rows.now positions.now c.bound c.codes.items)) }
{
    let Some(bound) = range.greatest.abs_diff(range.least).checked_add(2) else {
        return Ok(None);
    };
    let mut codes = Vec::with_capacity(alloc, positions.len())?;
    for k in 0..positions.len() {
        codes.push(whole_code_at(rows, column, positions[k], range))?;
    }
    Ok(Some(Coding { codes, bound }))
}

fn whole_code_at(rows: &RowSource, column: SortColumn, position: u64, range: Range) -> u64
    requires narrow { unsigned_abs (range.greatest -ℤ range.least) + 1 < 2 ^ 64 }
    requires whole { IsWhole range.least range.greatest (column_of (row_at rows.now position) column.column) }
    ensures { result ≡ spec.whole_code column.key range.least range.greatest (column_of (row_at rows.now position) column.column) }
{
    whole_code(
        rows.value(position, column.column as usize),
        column.key,
        range,
    )
}

/// How far a value is from the range's start, or under DESC from its end; NULL comes before or after all numbers.
fn whole_code(value: &Value, key: SortKey, range: Range) -> u64
    requires narrow { unsigned_abs (range.greatest -ℤ range.least) + 1 < 2 ^ 64 }
    requires whole { IsWhole range.least range.greatest value.now }
    ensures { result ≡ spec.whole_code key range.least range.greatest value.now }
{
    match value {
        Value::Int(n) => {
            let along = if key.desc {
                range.greatest.abs_diff(*n)
            } else {
                n.abs_diff(range.least)
            };
            along + key.nulls_first as u64
        }
        _ => if key.nulls_first {
            0
        } else {
            range.greatest.abs_diff(range.least) + 1
        },
    }
}
