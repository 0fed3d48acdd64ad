//! Rows as numbers: different rows have different numbers.

ghost use Rattle.std.specs.Ordering.{nat_cmp};
ghost use Rattle.std.specs.Prelude.{◌≡◌, ◌<◌, IfNone, IfOk, IfSome, IsPermutation, IsSorted, None, length, slice_index_or};
ghost use Rattle.wd_refute.specs.Numbers as spec;
ghost use Rattle.wd_refute.specs.Numbers.{AreNumbers, AreSortedNumbers, HaveNumbers, place_in};
ghost use Rattle.wd_refute.specs.Stored.{AreAllPlaces, ArePlaces, IsFound};
ghost use Rattle.wd_value.specs.Rows.{column_of, row_at};

use crate::places::Places;
use crate::stored::{StoredPlaces, stored_places};
use std::alloc::Global;
use wd_columns::RowSource;
use wd_value::OutOfMemory;

/// The numbers of the rows, sorted; `None` exactly where some row has no number.
pub(crate) fn sorted_numbers(
    alloc: Global,
    places: &[Places],
    rows: &RowSource,
) -> Result<Option<Vec<u128>>, OutOfMemory>
    ensures numbers { IfOk result (λ o. IfSome o (λ v. AreSortedNumbers places.now rows.now v.items)) }
    ensures none { IfOk result (λ o. IfNone o (HaveNumbers places.now rows.now → ⊥)) }
{
    match numbers_of(alloc, places, rows)? {
        Some(numbers) => Ok(Some(sort(numbers))),
        None => Ok(None),
    }
}

fn sort(numbers: Vec<u128>) -> Vec<u128>
    ensures each_once { IsPermutation numbers.items result.items }
    ensures ordered { IsSorted nat_cmp result.items }
{
    let mut order = numbers;
    order.sort_unstable();
    order
}

/// The number of each row; `None` exactly where some row has no number.
fn numbers_of(
    alloc: Global,
    places: &[Places],
    rows: &RowSource,
) -> Result<Option<Vec<u128>>, OutOfMemory>
    ensures numbers { IfOk result (λ o. IfSome o (λ v. AreNumbers places.now rows.now v.items)) }
    ensures none { IfOk result (λ o. IfNone o (HaveNumbers places.now rows.now → ⊥)) }
{
    let stored = stored_places(alloc, places, rows)?;
    let mut numbers = Vec::with_capacity(alloc, rows.len())?;
    for i in 0..rows.len() {
        match number_of(places, &stored, rows, i as u64) {
            Some(number) => numbers.push(number)?,
            None => return Ok(None),
        }
    }
    Ok(Some(numbers))
}

/// The places of the values of the row at a position as the digits of one number, the first value's digit the highest. `None` where a
/// value has no place, where there are more or fewer values than columns, or where 128 bits don't hold the number.
fn number_of(
    places: &[Places],
    stored: &[Option<StoredPlaces>],
    rows: &RowSource,
    position: u64,
) -> Option<u128>
    requires stored { AreAllPlaces places.now rows.now stored.now }
    requires within { position < length rows.now }
    ensures { result ≡ spec.number_of places.now (row_at rows.now position) }
{
    if places.len() != rows.width(position) {
        return None;
    }
    let mut number = 0;
    for i in 0..places.len() {
        let place = place_at(&places[i], stored, rows, position, i)?;
        number = with_digit(number, places[i].count(), place)?;
    }
    Some(number)
}

/// The place of the value in a column of the row at a position.
fn place_at(
    places: &Places,
    stored: &[Option<StoredPlaces>],
    rows: &RowSource,
    position: u64,
    column: usize,
) -> Option<u64>
    requires stored { IfSome (slice_index_or stored.now column None) (ArePlaces places.now rows.now column) }
    requires within { position < length rows.now }
    ensures { result ≡ place_in places.now (column_of (row_at rows.now position) column) }
{
    match found_at(stored, column, position) {
        Some(place) => place,
        None => places.place_of(rows.value(position, column)),
    }
}

/// The place that is found for the row at a position in a stored column.
fn found_at(stored: &[Option<StoredPlaces>], column: usize, position: u64) -> Option<Option<u64>>
    ensures { IfSome result (λ place. IsFound stored.now column position place) }
{
    match stored.get(column) {
        Some(Some(places)) => places.find(position),
        _ => None,
    }
}

/// A number with a further digit below a count; `None` where 128 bits don't hold it.
fn with_digit(number: u128, count: usize, digit: u64) -> Option<u128>
    ensures { result ≡ spec.with_digit number count digit }
{
    number
        .checked_mul(count as u128)?
        .checked_add(digit as u128)
}
