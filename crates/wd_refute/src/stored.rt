//! The places of a column's values where the rows are kept by their positions in other tables: found once for each value of the table.

ghost use Rattle.std.specs.Prelude.{◌≡◌, ◌<◌, IfOk, IfSome, None, length, slice_index_or, ℕ};
ghost use Rattle.wd_refute.specs.Numbers.{place_in};
ghost use Rattle.wd_refute.specs.Stored.{AreAllPlaces, ArePlaces};
ghost use Rattle.wd_value.specs.Rows.{column_of, row_at};

use crate::places::Places;
use std::alloc::Global;
use wd_columns::{Columns, RowSource};
use wd_value::OutOfMemory;

/// The places of the values of a table's column, and for each row the position of its value there.
#[derive(Drop)]
pub(crate) struct StoredPlaces<'a> {
    pub positions: &'a [u64],
    pub places: Vec<Option<u64>>,
}

impl<'a> StoredPlaces<'a> {
    /// What is found for the row at a position; `None` where the table has no such row.
    pub fn find(&self, position: u64) -> Option<Option<u64>>
        ensures { let q = slice_index_or self.now.positions.now position 0 in IfSome result (λ place. (q < length self.now.places.items) × (place ≡ slice_index_or self.now.places.items q None)) }
    {
        let place = self.positions.get(position as usize).copied().unwrap_or(0) as usize;
        if place < self.places.len() {
            Some(self.places[place])
        } else {
            None
        }
    }
}

/// For each column the places of its values, where it is stored in a table of no more rows than there are.
pub(crate) fn stored_places<'a>(
    alloc: Global,
    places: &[Places],
    rows: &'a RowSource<'_>,
) -> Result<Vec<Option<StoredPlaces<'a>>>, OutOfMemory>
    ensures { IfOk result (λ v. AreAllPlaces places.now rows.now v.items) }
{
    let mut found = Vec::with_capacity(alloc, places.len())?;
    for column in 0..places.len() {
        found.push(column_places(alloc, &places[column], rows, column)?)?;
    }
    Ok(found)
}

fn column_places<'a>(
    alloc: Global,
    places: &Places,
    rows: &'a RowSource<'_>,
    column: usize,
) -> Result<Option<StoredPlaces<'a>>, OutOfMemory>
    ensures { IfOk result (λ o. IfSome o (ArePlaces places.now rows.now column)) }
{
    match rows.stored_column(column) {
        Some(stored) => {
            if stored.table.len() > rows.len() {
                return Ok(None);
            }
            let found = table_places(alloc, places, stored.table, stored.column)?;
            Ok(Some(StoredPlaces {
                positions: stored.positions,
                places: found,
            }))
        }
        None => Ok(None),
    }
}

/// The place of each value of a table's column.
fn table_places(
    alloc: Global,
    places: &Places,
    table: &Columns,
    column: usize,
) -> Result<Vec<Option<u64>>, OutOfMemory>
    ensures all { IfOk result (λ v. length v.items ≡ length table.now) }
    ensures each { IfOk result (λ v. (q : ℕ) → q < length table.now → slice_index_or v.items q None ≡ place_in places.now (column_of (row_at table.now q) column)) }
{
    let mut found = Vec::with_capacity(alloc, table.len())?;
    for position in 0..table.len() {
        found.push(places.place_of(table.value(position as u64, column)))?;
    }
    Ok(found)
}
