ghost use Rattle.std.specs.Prelude.{◌≡◌, true, length, map, Some, All, IfOk, IfErr};
ghost use Rattle.csv.specs.Records.{fields_of};
ghost use Rattle.wd_schema.specs.Meets.{fits_columns, may_hold};
ghost use Rattle.wd_tables.specs.Refusals.{IsRefusedIn, RefusesField, RefusesRecord};
ghost use Rattle.wd_tables.specs.Refused.{leftmost as leftmost_of};
ghost use Rattle.wd_tables.specs.Data.{values_in};
ghost use Rattle.wd_tables.specs.Reading.{WherePlaced};
ghost use Rattle.wd_tables.specs.Fields as spec;

use crate::error::DataError;
use crate::field::field_value;
use crate::recent::RecentTexts;
use crate::record::field_at;
use csv::StringRecord;
use std::alloc::Global;
use wd_schema::{Column, is_null};
use wd_value::{Row, Value};

/// The row of a record, by the place of each column's field.
pub fn row_of(
    alloc: Global,
    columns: &[Column],
    places: &[usize],
    fields: &StringRecord,
    number: u64,
    recent: &mut RecentTexts,
) -> Result<Row, DataError>
    requires { length places.now ≡ length columns.now }
    ensures values { WherePlaced columns.now places.now (λ header. IfOk result (λ r. values_in columns.now header (fields_of fields.now) ≡ map (λ v. Some v) r.items)) }
    ensures fits { IfOk result (λ r. fits_columns columns.now r.items ≡ true) }
    ensures refused { WherePlaced columns.now places.now (λ header. IfErr result (λ e. RefusesRecord columns.now header (fields_of fields.now) number e)) }
{
    let mut row = Vec::with_capacity(alloc, columns.len())?;
    for c in 0..columns.len() {
        match value_of(
            alloc,
            &columns[c],
            field_at(fields, places[c]),
            number,
            recent,
        ) {
            Ok(value) => row.push(value)?,
            Err(refusal) => {
                refuse_first(alloc, columns, places, fields, number, recent)?;
                return Err(refusal);
            }
        }
    }
    Ok(row)
}

// A refused field, and its place in the record.
#[derive(Drop)]
struct Refused {
    place: usize,
    refusal: DataError,
}

// Refuses a record for the first of its refused fields, if there is one.
fn refuse_first(
    alloc: Global,
    columns: &[Column],
    places: &[usize],
    fields: &StringRecord,
    number: u64,
    recent: &mut RecentTexts,
) -> Result<(), DataError>
    requires { length places.now ≡ length columns.now }
    ensures passed { WherePlaced columns.now places.now (λ header. IfOk result (λ u. All (λ column. ¬ (IsRefusedIn header (fields_of fields.now) column)) columns.now)) }
    ensures refused { WherePlaced columns.now places.now (λ header. IfErr result (λ e. RefusesRecord columns.now header (fields_of fields.now) number e)) }
{
    let mut first = None;
    for c in 0..columns.len() {
        let place = places[c];
        match value_of(alloc, &columns[c], field_at(fields, place), number, recent) {
            Ok(_) => {}
            Err(refusal) => first = Some(leftmost(first, Refused { place, refusal })),
        }
    }
    match first {
        Some(refused) => Err(refused.refusal),
        None => Ok(()),
    }
}

// The refused field that is further left.
fn leftmost(first: Option<Refused>, other: Refused) -> Refused
    ensures { result ≡ leftmost_of first other }
{
    match first {
        Some(refused) if refused.place <= other.place => refused,
        _ => other,
    }
}

// The value of a field of a record in a column.
fn value_of(
    alloc: Global,
    column: &Column,
    field: &str,
    number: u64,
    recent: &mut RecentTexts,
) -> Result<Value, DataError>
    ensures value { IfOk result (λ v. spec.field_value column.now field.now ≡ Some v) }
    ensures held { IfOk result (λ v. may_hold column.now v ≡ true) }
    ensures refused { IfErr result (λ e. RefusesField column.now field.now number e) }
{
    let Some(value) = field_value(alloc, column, field, recent)? else {
        return Err(DataError::Value { record: number });
    };
    if column.not_null && is_null(&value) {
        return Err(DataError::Null { record: number });
    }
    Ok(value)
}
