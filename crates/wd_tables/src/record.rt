ghost use Rattle.std.specs.Prelude.{◌≡◌, ◌+◌, ℕ, List, [], length, slice_index_or, IfOk, IfErr};
ghost use Rattle.std.specs.Bool.{MatchBool};
ghost use Rattle.csv.specs.Records.{fields_of};
ghost use Rattle.wd_tables.specs.Data.{records_of};
ghost use Rattle.wd_tables.specs.Reading.{HasRead, IsMalformedAt, IsRecord, RefusesRead, refusal_of};

use crate::error::DataError;
use csv::{ErrorKind, Reader, StringRecord};

/// Reads the next record of a text in place of the one before; the result is whether there was one.
pub fn next_record(reader: &mut Reader<&[u8]>, fields: &mut StringRecord) -> Result<bool, DataError>
    ensures read { (text : List ℕ) (n : ℕ) → HasRead text n reader.old → IfOk result (λ found. MatchBool found (HasRead text (n + 1) reader.new × IsRecord text n (fields_of fields.new)) (length (records_of text) ≡ n)) }
    ensures refused { (text : List ℕ) (n : ℕ) → HasRead text n reader.old → IfErr result (λ e. RefusesRead text n e) }
{
    match reader.read_record(fields) {
        Ok(found) => Ok(found),
        Err(error) => Err(refusal(error.into_kind())),
    }
}

/// Reads the record with a number in place of the one before; the result is whether there was one. The record that is known to be
/// malformed is not read.
pub fn next_unless(
    reader: &mut Reader<&[u8]>,
    fields: &mut StringRecord,
    number: u64,
    malformed: Option<u64>,
) -> Result<bool, DataError>
    ensures read { (text : List ℕ) → HasRead text number reader.old → IfOk result (λ found. MatchBool found (HasRead text (number + 1) reader.new × IsRecord text number (fields_of fields.new)) (length (records_of text) ≡ number)) }
    ensures refused { (text : List ℕ) → HasRead text number reader.old → IsMalformedAt text malformed → IfErr result (λ e. RefusesRead text number e) }
{
    if malformed == Some(number) {
        return Err(DataError::Malformed);
    }
    next_record(reader, fields)
}

// The refusal of a failed read: of a malformed record, or else out of memory, since a slice can't fail.
fn refusal(kind: ErrorKind) -> DataError
    ensures { result ≡ refusal_of kind }
{
    match kind {
        ErrorKind::UnequalLengths { .. } | ErrorKind::Utf8 { .. } => DataError::Malformed,
        ErrorKind::Io(_)
        | ErrorKind::OutOfMemory
        | ErrorKind::Serialize(_)
        | ErrorKind::Deserialize { .. } => DataError::OutOfMemory,
    }
}

/// The field at a place, and the empty field past the last.
pub fn field_at(fields: &StringRecord, place: usize) -> &str
    ensures { result.now ≡ slice_index_or (fields_of fields.now) place [] }
{
    match fields.get(place) {
        Some(field) => field,
        None => "",
    }
}
