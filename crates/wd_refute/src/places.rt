//! The places of the values of a column among the distinct ones seen in it.

ghost use Rattle.std.specs.Prelude.{◌≡◌, length};
ghost use Rattle.wd_refute.specs.Numbers as spec;

use std::alloc::Global;
use std::collections::HashMap;
use wd_columns::RowSource;
use wd_sort::Seeded;
use wd_value::{OutOfMemory, Text, Value, same};

/// The distinct values seen in a column, each at its place: NULL and the truth values, then the texts and whole numbers in order of first
/// appearance.
#[derive(Drop)]
pub(crate) struct Places {
    values: Vec<Value>,
    wholes: HashMap<i64, u64, Seeded>,
    texts: HashMap<String, u64, Seeded>,
}

impl Places {
    /// Places without any text or whole number.
    pub fn new(alloc: Global, seeded: Seeded) -> Result<Places, OutOfMemory> {
        let mut values = Vec::with_capacity(alloc, 3)?;
        values.push(Value::Null)?;
        values.push(Value::Bool(false))?;
        values.push(Value::Bool(true))?;
        Ok(Places {
            values,
            wholes: HashMap::with_hasher(alloc, seeded),
            texts: HashMap::with_hasher(alloc, seeded),
        })
    }

    /// How many values there are; each place is below this number.
    pub fn count(&self) -> usize
        ensures { result ≡ length self.now.values.items }
    {
        self.values.len()
    }

    /// The place of a value; `None` where it was not seen.
    pub fn place_of(&self, value: &Value) -> Option<u64>
        ensures { result ≡ spec.place_in self.now value.now }
    {
        let place = self.kept_place(value)?;
        if self.stands_at(place, value) {
            Some(place)
        } else {
            None
        }
    }

    /// The place that is stored for a value.
    fn kept_place(&self, value: &Value) -> Option<u64>
        ensures { result ≡ spec.kept_place self.now value.now }
    {
        match value {
            Value::Null => Some(0),
            Value::Bool(false) => Some(1),
            Value::Bool(true) => Some(2),
            Value::Int(whole) => self.wholes.get(whole).copied(),
            Value::Text(text) => self.texts.get(text.as_str()).copied(),
        }
    }

    /// Whether a value is at a place.
    fn stands_at(&self, place: u64, value: &Value) -> bool
        ensures { result ≡ spec.stands_at self.now.values.items place value.now }
    {
        match self.values.get(place as usize) {
            Some(found) => same(found, value),
            None => false,
        }
    }

    /// Stores a value; one that has no place comes after those stored before.
    fn meet(&mut self, alloc: Global, value: &Value) -> Result<(), OutOfMemory> {
        if self.kept_place(value).is_some() {
            return Ok(());
        }
        let place = self.values.len() as u64;
        self.values.push(value.copy(alloc)?)?;
        match value {
            Value::Int(whole) => self.keep_whole(*whole, place),
            Value::Text(text) => self.keep_text(alloc, text, place),
            Value::Null | Value::Bool(_) => Ok(()),
        }
    }

    fn keep_whole(&mut self, whole: i64, place: u64) -> Result<(), OutOfMemory> {
        self.wholes.insert(whole, place)?;
        Ok(())
    }

    fn keep_text(&mut self, alloc: Global, text: &Text, place: u64) -> Result<(), OutOfMemory> {
        let key = String::from_str(alloc, text.as_str())?;
        self.texts.insert(key, place)?;
        Ok(())
    }
}

/// For each column of the first row, the values of all rows in it; of a column that is stored in a table of no more rows, the values of
/// all rows there.
pub(crate) fn places_of(
    alloc: Global,
    rows: &RowSource,
    seeded: Seeded,
) -> Result<Vec<Places>, OutOfMemory> {
    let mut places = Vec::with_capacity(alloc, rows.width(0))?;
    for column in 0..rows.width(0) {
        places.push(column_places(alloc, rows, column, seeded)?)?;
    }
    Ok(places)
}

fn column_places(
    alloc: Global,
    rows: &RowSource,
    column: usize,
    seeded: Seeded,
) -> Result<Places, OutOfMemory> {
    let mut places = Places::new(alloc, seeded)?;
    match rows.stored_column(column) {
        Some(stored) if stored.table.len() <= rows.len() => {
            let table = RowSource::of_columns(stored.table);
            meet_column(alloc, &mut places, &table, stored.column)?;
        }
        _ => meet_column(alloc, &mut places, rows, column)?,
    }
    Ok(places)
}

/// Stores the values of all rows in a column.
fn meet_column(
    alloc: Global,
    places: &mut Places,
    rows: &RowSource,
    column: usize,
) -> Result<(), OutOfMemory> {
    for position in 0..rows.len() {
        places.meet(alloc, rows.value(position as u64, column))?;
    }
    Ok(())
}
