ghost use Rattle.std.specs.Prelude.{◌≡◌, ◌+◌, ◌<◌, ◌≤◌, ℕ, List, true, length, All, IfOk, IfErr, IfSome, MatchOption};
ghost use Rattle.wd_schema.specs.Meets.{MeetsTable, fits_columns};
ghost use Rattle.wd_schema.specs.Tables.{TableRule, table_of};
ghost use Rattle.wd_tables.specs.Causes.{AreAccepted, HasCause};
ghost use Rattle.wd_tables.specs.Data.{HoldsRows, most_records, records_of};
ghost use Rattle.wd_tables.specs.Reading.{HasRead, HoldsRecord, IsMalformedAt, WhereHeaded, WhereRead};
ghost use Rattle.wd_tables.specs.Wide.{IsWide};
ghost use Rattle.wd_value.specs.Rows.{rows_of};

use crate::error::DataError;
use crate::header::places_of;
use crate::key::first_repeat;
use crate::recent::RecentTexts;
use crate::record::{next_record, next_unless};
use crate::row::row_of;
use crate::wide::{has_text_header, wide_record};
use csv::{Reader, ReaderBuilder, StringRecord};
use std::alloc::Global;
use wd_columns::{Columns, empty_columns, push_row};
use wd_schema::Table;
use wd_value::{OutOfMemory, Row};

/// The most records that may follow the header.
const MOST_RECORDS: u64 = 1_000_000;

/// The rows of a table, from CSV text whose first record names each column of the table once, in any order. A leading byte order mark is
/// ignored. A whole number is digits, with or without a minus before them, within the range of the column's type; a truth value is `t`,
/// `f`, `true` or `false` in any ASCII case; an empty field is NULL, and in a NOT NULL column of texts the empty text. Records are
/// checked in order, fields in the header's order, and the keys last (this project's choice).
pub fn load(alloc: Global, table: &Table, text: &[u8]) -> Result<Vec<Row>, DataError>
    ensures holds { IfOk result (λ v. HoldsRows (table_of table.now) text.now (rows_of v.items)) }
    ensures meets { IfOk result (λ v. MeetsTable (table_of table.now) (rows_of v.items)) }
    ensures refused { IfErr result (λ e. HasCause (table_of table.now) text.now e) }
{
    let columns = load_columns(alloc, table, text)?;
    let rows = columns.into_rows(alloc)?;
    Ok(rows)
}

/// The rows of a table that [`load`] reads, kept column by column.
pub fn load_columns(alloc: Global, table: &Table, text: &[u8]) -> Result<Columns, DataError>
    ensures holds { IfOk result (λ v. HoldsRows (table_of table.now) text.now v) }
    ensures meets { IfOk result (λ v. MeetsTable (table_of table.now) v) }
    ensures refused { IfErr result (λ e. HasCause (table_of table.now) text.now e) }
{
    let rows = read_rows(alloc, table, text)?;
    match first_repeat(alloc, &table.keys, &rows)? {
        Some(position) => Err(DataError::Key {
            record: position + 1,
        }),
        None => Ok(rows),
    }
}

// The rows of a table, whose keys are not checked.
fn read_rows(alloc: Global, table: &Table, text: &[u8]) -> Result<Columns, DataError>
    ensures holds { IfOk result (λ v. HoldsRows (table_of table.now) text.now v) }
    ensures fits { IfOk result (λ v. All (λ row. fits_columns table.now.columns.items row ≡ true) v) }
    ensures refused { IfErr result (λ e. HasCause (table_of table.now) text.now e) }
{
    let wide = wide_record(text, table.columns.len());
    if wide == Some(0) {
        return Err(wide_header(alloc, text)?);
    }
    let mut reader = ReaderBuilder::new()
        .has_headers(false)
        .from_reader(alloc, text);
    let rows = read_all(alloc, table, &mut reader, wide)?;
    Ok(rows)
}

// Why a header with more fields than the table has columns is refused.
fn wide_header(alloc: Global, text: &[u8]) -> Result<DataError, OutOfMemory>
    ensures { IfOk result (λ e. (table : TableRule) → IsWide text.now (length table.columns) 0 → HasCause table text.now e) }
{
    if has_text_header(alloc, text)? {
        Ok(DataError::Header)
    } else {
        Ok(DataError::Malformed)
    }
}

// The rows; a record that is known to be wider than the table is not read.
fn read_all(
    alloc: Global,
    table: &Table,
    reader: &mut Reader<&[u8]>,
    wide: Option<u64>,
) -> Result<Columns, DataError>
    ensures holds { (text : List ℕ) → HasRead text 0 reader.old → IfOk result (λ v. HoldsRows (table_of table.now) text v) }
    ensures fits { (text : List ℕ) → HasRead text 0 reader.old → IfOk result (λ v. All (λ row. fits_columns table.now.columns.items row ≡ true) v) }
    ensures refused { (text : List ℕ) → HasRead text 0 reader.old → IfSome wide (λ n. IsWide text (length table.now.columns.items) n) → IfErr result (λ e. HasCause (table_of table.now) text e) }
{
    let mut fields = StringRecord::new(alloc);
    let headed = next_record(reader, &mut fields)?;
    if !headed {
        return Err(DataError::Header);
    }
    let places = places_of(alloc, &table.columns, &fields)?;
    let rows = read_data(alloc, table, &places, reader, &mut fields, wide)?;
    Ok(rows)
}

// The rows of the records that follow the header; one of them may be known to be malformed.
fn read_data(
    alloc: Global,
    table: &Table,
    places: &[usize],
    reader: &mut Reader<&[u8]>,
    fields: &mut StringRecord,
    malformed: Option<u64>,
) -> Result<Columns, DataError>
    requires { length places.now ≡ length table.now.columns.items }
    ensures holds { WhereHeaded table.now.columns.items reader.old places.now (λ text. IfOk result (λ v. HoldsRows (table_of table.now) text v)) }
    ensures fits { WhereHeaded table.now.columns.items reader.old places.now (λ text. IfOk result (λ v. All (λ row. fits_columns table.now.columns.items row ≡ true) v)) }
    ensures refused { WhereHeaded table.now.columns.items reader.old places.now (λ text. IsMalformedAt text malformed → IfErr result (λ e. HasCause (table_of table.now) text e)) }
{
    let mut columns = empty_columns(alloc, table.columns.len())?;
    let mut recent = RecentTexts::new(alloc)?;
    for before in 0..MOST_RECORDS {
        match next_row(
            alloc,
            table,
            places,
            reader,
            fields,
            before + 1,
            malformed,
            &mut recent,
        )? {
            Some(row) => push_row(&mut columns, row)?,
            None => return Ok(Columns::new(columns, before as usize)),
        }
    }
    let more = next_unless(reader, fields, MOST_RECORDS + 1, malformed)?;
    if more {
        return Err(DataError::TooManyRecords);
    }
    Ok(Columns::new(columns, MOST_RECORDS as usize))
}

// The row of the next record, which has this number, if there is one.
fn next_row(
    alloc: Global,
    table: &Table,
    places: &[usize],
    reader: &mut Reader<&[u8]>,
    fields: &mut StringRecord,
    number: u64,
    malformed: Option<u64>,
    recent: &mut RecentTexts,
) -> Result<Option<Row>, DataError>
    requires { length places.now ≡ length table.now.columns.items }
    ensures read { WhereRead table.now.columns.items number reader.old places.now (λ text. IfOk result (λ o. MatchOption o (length (records_of text) ≡ number) (λ row. HasRead text (number + 1) reader.new × HoldsRecord table.now.columns.items text number row.items))) }
    ensures refused { WhereRead table.now.columns.items number reader.old places.now (λ text. 0 < number → number ≤ most_records → AreAccepted (table_of table.now) text number → IsMalformedAt text malformed → IfErr result (λ e. HasCause (table_of table.now) text e)) }
{
    let found = next_unless(reader, fields, number, malformed)?;
    if !found {
        return Ok(None);
    }
    let row = row_of(alloc, &table.columns, places, fields, number, recent)?;
    Ok(Some(row))
}
