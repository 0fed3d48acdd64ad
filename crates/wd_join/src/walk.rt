//! The right rows that agree with each left row, found by a walk over both sides in the order of
//! the columns.

ghost use Rattle.std.specs.Prelude.{◌≡◌, ℕ, ◌-◌, ◌<◌, ◌≤◌, true, false, IfOk, drop, get_or, length, map, set, take};
ghost use Rattle.std.specs.List.{list_any};
ghost use Rattle.wd_join.specs.Matching as spec;
ghost use Rattle.wd_join.specs.Matching.{AreAgreeing, AreBefore, AreAgreeingRanges, IsEnd, IsKnown, IsSortedBy, IsAgreeingRange};
ghost use Rattle.wd_value.specs.Rows.{row_at};

use crate::matching::{JoinColumns, is_null_at};
use std::alloc::Global;
use std::cmp::Ordering;
use wd_columns::{RowSource, all_positions};
use wd_sort::sort_positions_in;
use wd_value::{OutOfMemory, SortColumn, SortKey, compare};

/// Consecutive positions in an order, from `start` up to `end`.
#[derive(Clone, Copy)]
pub struct RowRange {
    pub start: usize,
    pub end: usize,
}

/// The right rows' positions in the order of the columns, and for each left row the range of those that agree with it.
#[derive(Drop)]
pub struct Agreeing {
    pub order: Vec<u64>,
    pub ranges: Vec<RowRange>,
}

/// The right rows that agree with each left row. Takes the time of sorting either side.
pub(crate) fn agreeing_rows(
    alloc: Global,
    columns: &[JoinColumns],
    left: &RowSource,
    right: &RowSource,
) -> Result<Agreeing, OutOfMemory>
    ensures { IfOk result (λ a. AreAgreeing columns.now left.now right.now a) }
{
    let left_order = sorted_left(alloc, columns, left)?;
    let order = sorted_right(alloc, columns, right)?;
    let ranges = agreeing_ranges(alloc, columns, left, &left_order, right, &order)?;
    Ok(Agreeing { order, ranges })
}

/// The positions in a range of an order.
pub(crate) fn positions_in(order: &[u64], range: RowRange) -> &[u64]
    requires forwards { range.start ≤ range.end }
    requires within { range.end ≤ length order.now }
    ensures { result.now ≡ take (range.end - range.start) (drop range.start order.now) }
{
    let rest = &order[range.start..];
    &rest[..range.end - range.start]
}

/// The positions of the left rows, sorted by their columns.
fn sorted_left(
    alloc: Global,
    columns: &[JoinColumns],
    rows: &RowSource,
) -> Result<Vec<u64>, OutOfMemory>
    ensures { IfOk result (λ v. IsSortedBy (spec.left_keys columns.now) rows.now v.items) }
{
    let mut keys = Vec::with_capacity(alloc, columns.len())?;
    for column in columns {
        keys.push(key(column.left))?;
    }
    sort_numbers(alloc, rows, &keys)
}

/// The positions of the right rows, sorted by their columns.
fn sorted_right(
    alloc: Global,
    columns: &[JoinColumns],
    rows: &RowSource,
) -> Result<Vec<u64>, OutOfMemory>
    ensures { IfOk result (λ v. IsSortedBy (spec.right_keys columns.now) rows.now v.items) }
{
    let mut keys = Vec::with_capacity(alloc, columns.len())?;
    for column in columns {
        keys.push(key(column.right))?;
    }
    sort_numbers(alloc, rows, &keys)
}

fn key(column: u16) -> SortColumn
    ensures { result ≡ spec.key column }
{
    SortColumn {
        column,
        key: ASCENDING,
    }
}

const ASCENDING: SortKey = SortKey {
    desc: false,
    nulls_first: false,
};

fn sort_numbers(
    alloc: Global,
    rows: &RowSource,
    keys: &[SortColumn],
) -> Result<Vec<u64>, OutOfMemory>
    ensures { IfOk result (λ v. IsSortedBy keys.now rows.now v.items) }
{
    let all = all_positions(alloc, rows.len())?;
    let order = sort_positions_in(alloc, rows, keys, &all)?;
    Ok(order)
}

/// For each left row the range of the right rows that agree with it. In the order of the columns the ranges of later left rows start
/// and end no earlier, so that each right row is passed once at a start and once at an end.
fn agreeing_ranges(
    alloc: Global,
    columns: &[JoinColumns],
    left: &RowSource,
    left_order: &[u64],
    right: &RowSource,
    order: &[u64],
) -> Result<Vec<RowRange>, OutOfMemory>
    requires left_sorted { IsSortedBy (spec.left_keys columns.now) left.now left_order.now }
    requires right_sorted { IsSortedBy (spec.right_keys columns.now) right.now order.now }
    ensures { IfOk result (λ v. AreAgreeingRanges columns.now left.now right.now order.now v.items) }
{
    let mut ranges = vec![in alloc; RowRange { start: 0, end: 0 }; left.len()]?;
    let mut known = RowRange { start: 0, end: 0 };
    for position in left_order {
        known = range_from(columns, left, *position, right, order, known);
        put_range(&mut ranges, *position, known);
    }
    Ok(ranges)
}

/// Sets the range of the left row at a position, where there is one.
fn put_range(ranges: &mut Vec<RowRange>, position: u64, range: RowRange)
    ensures { ranges.new.items ≡ set ranges.old.items position range }
{
    if position < ranges.len() as u64 {
        ranges[position as usize] = range;
    }
}

/// The range of the right rows that agree with the left row at a position. All rows before the start of the known range are before that
/// row, and those before its end are before that row or tie with it.
fn range_from(
    columns: &[JoinColumns],
    left: &RowSource,
    position: u64,
    right: &RowSource,
    order: &[u64],
    known: RowRange,
) -> RowRange
    requires sorted { IsSortedBy (spec.right_keys columns.now) right.now order.now }
    requires within { (known.start ≤ length order.now) × (known.end ≤ length order.now) }
    requires before { IsKnown columns.now (row_at left.now position) right.now order.now known }
    ensures is { IsAgreeingRange columns.now (row_at left.now position) right.now order.now result }
    ensures before { IsKnown columns.now (row_at left.now position) right.now order.now result }
{
    let start = end_from(columns, left, position, right, order, known.start, false);
    if lacks_key(columns, left, position) {
        return RowRange { start, end: start };
    }
    let passed = start.max(known.end);
    let end = end_from(columns, left, position, right, order, passed, true);
    RowRange { start, end }
}

/// How many rows of the order are before the left row at a position, or with `too` tie with it; of the first `from` rows this is known.
fn end_from(
    columns: &[JoinColumns],
    left: &RowSource,
    position: u64,
    right: &RowSource,
    order: &[u64],
    from: usize,
    too: bool,
) -> usize
    requires sorted { IsSortedBy (spec.right_keys columns.now) right.now order.now }
    requires within { from ≤ length order.now }
    requires before { AreBefore too columns.now (row_at left.now position) right.now order.now from }
    ensures later { from ≤ result }
    ensures is { IsEnd too columns.now (row_at left.now position) right.now order.now result }
{
    for i in from..order.len() {
        let compared = compare_sides(columns, left, position, right, order[i]);
        if !is_before(too, compared) {
            return i;
        }
    }
    order.len()
}

fn is_before(too: bool, compared: Ordering) -> bool
    ensures { result ≡ spec.is_before too compared }
{
    compared.is_lt() || (too && compared.is_eq())
}

/// The order of the right row at a position against the left one at a position, by the first columns on which they differ.
fn compare_sides(
    columns: &[JoinColumns],
    left: &RowSource,
    first: u64,
    right: &RowSource,
    second: u64,
) -> Ordering
    ensures { result ≡ spec.compare_sides columns.now (row_at left.now first) (row_at right.now second) }
{
    for column in columns {
        match compare_in(*column, left, first, right, second) {
            Ordering::Equal => {}
            found => return found,
        }
    }
    Ordering::Equal
}

fn compare_in(
    column: JoinColumns,
    left: &RowSource,
    first: u64,
    right: &RowSource,
    second: u64,
) -> Ordering
    ensures { result ≡ spec.compare_in column (row_at left.now first) (row_at right.now second) }
{
    compare(
        right.value(second, column.right as usize),
        left.value(first, column.left as usize),
        ASCENDING,
    )
}

/// Whether one of the columns of the left row at a position is NULL.
fn lacks_key(columns: &[JoinColumns], left: &RowSource, position: u64) -> bool
    ensures { result ≡ spec.lacks_key columns.now (row_at left.now position) }
{
    for column in columns {
        if is_null_at(left, position, column.left) {
            return true;
        }
    }
    false
}
