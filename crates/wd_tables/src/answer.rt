ghost use Rattle.std.specs.Prelude.{◌≡◌, ◌++◌, ℕ, List, [], ◌∷◌, map, IfOk, OnOk};
ghost use Rattle.csv.specs.Records.{fields_of, partial_of};
ghost use Rattle.csv.specs.Writing.{default_writer, row_text};
ghost use Rattle.wd_value.specs.Rows.{column_of, row_at, rows_of};
ghost use Rattle.wd_tables.specs.Answers as spec;

use csv::{ByteRecord, Writer, WriterBuilder};
use itoa::Buffer;
use std::alloc::{AllocError, Global};
use wd_columns::RowSource;
use wd_value::{OutOfMemory, Row, Text, Value};

/// The text of an answer: a header of the names of its columns, and its rows. NULL and the empty
/// text are empty fields, and each line ends with a line feed.
pub fn answer_text(alloc: Global, names: &[Text], rows: &[Row]) -> Result<Vec<u8>, OutOfMemory>
    ensures { IfOk result (λ v. v.items ≡ spec.answer_text names.now (rows_of rows.now)) }
{
    answer_text_from(alloc, names, &RowSource::of_rows(rows))
}

/// As `answer_text`, for rows in any form.
pub fn answer_text_from(
    alloc: Global,
    names: &[Text],
    rows: &RowSource,
) -> Result<Vec<u8>, OutOfMemory>
    ensures { IfOk result (λ v. v.items ≡ spec.answer_text names.now rows.now) }
{
    // A flexible writer accepts records of any lengths.
    let mut writer = WriterBuilder::new()
        .flexible(true)
        .from_writer(Vec::new(alloc));
    let mut fields = ByteRecord::new(alloc);
    put_names(&mut fields, names)?;
    write(&mut writer, &fields)?;
    for position in 0..rows.len() {
        put_values(&mut fields, rows, position as u64)?;
        write(&mut writer, &fields)?;
    }
    match writer.into_inner() {
        Ok(text) => Ok(text),
        Err(_) => Err(OutOfMemory),
    }
}

// Writes a record. A write to a `Vec` fails only where memory runs out.
fn write(writer: &mut Writer<Vec<u8>>, fields: &ByteRecord) -> Result<(), OutOfMemory>
    ensures { (text : List ℕ) → spec.HasWritten writer.old text → OnOk result (spec.HasWritten writer.new (text ++ row_text default_writer (fields_of fields.now))) }
{
    match writer.write_byte_record(fields) {
        Ok(()) => Ok(()),
        Err(_) => Err(OutOfMemory),
    }
}

fn put_names(fields: &mut ByteRecord, names: &[Text]) -> Result<(), AllocError>
    ensures { OnOk result (fields_of fields.new ≡ names.now) }
{
    fields.clear();
    for name in names {
        fields.push_field(name.as_bytes())?;
    }
    Ok(())
}

fn put_values(fields: &mut ByteRecord, rows: &RowSource, position: u64) -> Result<(), AllocError>
    ensures { OnOk result (fields_of fields.new ≡ map spec.value_text (row_at rows.now position)) }
{
    fields.clear();
    for column in 0..rows.width(position) {
        put_column(fields, rows, position, column)?;
    }
    Ok(())
}

// Adds the field of a row's value in a column.
fn put_column(
    fields: &mut ByteRecord,
    rows: &RowSource,
    position: u64,
    column: usize,
) -> Result<(), AllocError>
    ensures fields { partial_of fields.old ≡ [] → OnOk result (fields_of fields.new ≡ fields_of fields.old ++ spec.value_text (column_of (row_at rows.now position) column) ∷ []) }
    ensures partial { OnOk result (partial_of fields.new ≡ []) }
{
    put_value(fields, rows.value(position, column))
}

// Adds the field of a value.
fn put_value(fields: &mut ByteRecord, value: &Value) -> Result<(), AllocError>
    ensures fields { partial_of fields.old ≡ [] → OnOk result (fields_of fields.new ≡ fields_of fields.old ++ spec.value_text value.now ∷ []) }
    ensures partial { OnOk result (partial_of fields.new ≡ []) }
{
    match value {
        Value::Null => fields.push_field(b""),
        Value::Int(n) => {
            let mut digits = Buffer::new();
            fields.push_field(digits.format(*n).as_bytes())
        }
        Value::Text(text) => fields.push_field(text.as_bytes()),
        Value::Bool(true) => fields.push_field(b"true"),
        Value::Bool(false) => fields.push_field(b"false"),
    }
}
