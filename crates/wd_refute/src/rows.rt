//! Rows in a total order in which rows that tie are equal.

ghost use Rattle.std.specs.Prelude.{◌≡◌, ◌↔◌, IfOk, IsTrue};
ghost use Rattle.wd_refute.specs.Ready as spec;
ghost use Rattle.wd_refute.specs.Ready.{IsRowSort};
ghost use Rattle.wd_value.specs.Rows.{row_at, rows_at};

use std::alloc::Global;
use std::cmp::Ordering;
use wd_columns::{RowSource, all_positions};
use wd_value::{OutOfMemory, SortKey, compare};

/// The order of the values; any total order would do.
const ASCENDING: SortKey = SortKey {
    desc: false,
    nulls_first: false,
};

/// The positions of the rows, sorted by the rows.
pub(crate) fn row_order(alloc: Global, rows: &RowSource) -> Result<Vec<u64>, OutOfMemory>
    ensures { IfOk result (λ v. IsRowSort rows.now v.items) }
{
    let mut order = all_positions(alloc, rows.len())?;
    order.sort_by(|p, q| compare_rows(rows, *p, rows, *q))?;
    Ok(order)
}

/// Whether the rows at the first positions equal those at the second ones, place by place.
pub(crate) fn show_the_same<'a>(
    first: &RowSource<'a>,
    first_order: &[u64],
    second: &RowSource<'a>,
    second_order: &[u64],
) -> bool
    ensures { IsTrue result ↔ (rows_at first.now first_order.now ≡ rows_at second.now second_order.now) }
{
    if first_order.len() != second_order.len() {
        return false;
    }
    for i in 0..first_order.len() {
        if !is_same(first, first_order[i], second, second_order[i]) {
            return false;
        }
    }
    true
}

/// Whether the row at a position equals another one at another.
fn is_same<'a>(first: &RowSource<'a>, p: u64, second: &RowSource<'a>, q: u64) -> bool
    ensures { IsTrue result ↔ (row_at first.now p ≡ row_at second.now q) }
{
    compare_rows(first, p, second, q).is_eq()
}

/// The order of the row at a position and another one at another: the first values that differ decide, or else the lengths.
fn compare_rows<'a>(first: &RowSource<'a>, p: u64, second: &RowSource<'a>, q: u64) -> Ordering
    ensures { result ≡ spec.compare_rows (row_at first.now p) (row_at second.now q) }
{
    let (width, other_width) = (first.width(p), second.width(q));
    for i in 0..width.min(other_width) {
        match compare(first.value(p, i), second.value(q, i), ASCENDING) {
            Ordering::Equal => {}
            found => return found,
        }
    }
    width.cmp(&other_width)
}
