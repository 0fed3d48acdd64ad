//! What the text of a schema file is read as.

ghost use Rattle.std.specs.Prelude.{map, IfOk};
ghost use Rattle.std.specs.String.{string_bytes};
ghost use Rattle.wd_schema.specs.Texts.{HasCause};
ghost use Rattle.wd_dialect_read.specs.Said.{statement_said};
ghost use Rattle.wd_front.specs.Fronts.{IsFront, IsSpelledBy};

use crate::place::{dialect_place, profile_place};
use std::alloc::Global;
use wd_dialect_schema::{DialectError, DialectSchema, read_dialect};
use wd_lex::Span;
use wd_schema::{SchemaError, read_schema};
use wd_value::OutOfMemory;

/// What the text of a schema file is read as.
#[derive(Drop)]
pub enum Front {
    /// The profile reads it.
    Own,
    /// The profile refuses it, and reads the text of the tables that it declares as PostgreSQL's tools write it.
    Respelled(DialectSchema),
    /// Neither reads it.
    Unread(Refused),
}

/// Which refusal is reported for a text that is not read.
#[derive(Clone, Copy)]
pub enum Refused {
    /// The refusal of the profile.
    Profile,
    /// PostgreSQL's way of writing cannot continue with these bytes.
    At(Span),
    /// The tables that it declares as PostgreSQL's tools write it are refused with this number.
    Tables(u32),
    /// The profile's text of these tables would be too long.
    TooLong,
}

/// What the text of a schema file is read as.
///
/// NULL for a column that takes none is refused by the profile, however the text is read. Otherwise, where neither the profile nor
/// PostgreSQL's way of writing reads the text, the refusal further on in the text is reported; PostgreSQL's where the profile does not
/// read the text's characters (it checks these first for the whole text); the profile's where both are at one place, and where the
/// tables are refused with the same number.
pub fn front_of(alloc: Global, text: &[u8]) -> Result<Front, OutOfMemory>
    ensures { IfOk result (IsFront text.now) }
{
    match read_schema(alloc, text) {
        Ok(_) => Ok(Front::Own),
        Err(SchemaError::OutOfMemory) => Err(OutOfMemory),
        Err(SchemaError::NullForbidden) => Ok(Front::Unread(Refused::Profile)),
        Err(error) => read_as_dialect(alloc, text, error),
    }
}

/// What a text is read as that the profile refuses with this error.
fn read_as_dialect(alloc: Global, text: &[u8], error: SchemaError) -> Result<Front, OutOfMemory>
    requires { HasCause text.now error }
    ensures { IfOk result (IsFront text.now) }
{
    match read_dialect(alloc, text) {
        Ok(schema) => where_read(alloc, text, schema, error),
        Err(DialectError::OutOfMemory) => Err(OutOfMemory),
        Err(refusal) => {
            let refused = refusal_of_both(alloc, text, error, refusal)?;
            Ok(Front::Unread(refused))
        }
    }
}

/// What a text is read as that the profile refuses with this error and that is a schema of PostgreSQL: its tables, if the profile reads
/// the text that spells them.
fn where_read(
    alloc: Global,
    text: &[u8],
    schema: DialectSchema,
    error: SchemaError,
) -> Result<Front, OutOfMemory>
    requires unread { HasCause text.now error }
    requires spelled { IsSpelledBy text.now (map statement_said schema.statements.items) (string_bytes schema.text) }
    ensures { IfOk result (IsFront text.now) }
{
    match read_schema(alloc, schema.text.as_bytes()) {
        Ok(_) => Ok(Front::Respelled(schema)),
        Err(SchemaError::OutOfMemory) => Err(OutOfMemory),
        Err(other) => Ok(unread_front(text, schema, error, other)),
    }
}

/// What a text is read as that the profile refuses with the first error, if it refuses the text of its tables with the other.
fn unread_front(text: &[u8], schema: DialectSchema, error: SchemaError, other: SchemaError) -> Front
    requires unread { HasCause text.now error }
    requires spelled { IsSpelledBy text.now (map statement_said schema.statements.items) (string_bytes schema.text) }
    requires lost { HasCause (string_bytes schema.text) other }
    ensures { IsFront text.now result }
{
    Front::Unread(refusal_of_tables(error, other))
}

/// Which refusal is reported where the profile refuses a text with the first error and the text of its tables with the other.
fn refusal_of_tables(error: SchemaError, other: SchemaError) -> Refused {
    match other.number() {
        Some(number) if error.number() != Some(number) => Refused::Tables(number),
        _ => Refused::Profile,
    }
}

/// Which refusal is reported where both refuse a text: PostgreSQL's where the profile does not read its characters, otherwise the one
/// further on in the text.
fn refusal_of_both(
    alloc: Global,
    text: &[u8],
    error: SchemaError,
    refusal: DialectError,
) -> Result<Refused, OutOfMemory> {
    if matches!(refusal, DialectError::TooLong) {
        return Ok(Refused::TooLong);
    }
    let own = match (error, refusal) {
        (SchemaError::Tokens(_), DialectError::Unexpected { .. }) => None,
        _ => profile_place(alloc, text, error)?,
    };
    let Some(place) = dialect_place(alloc, text, refusal)? else {
        return Ok(Refused::Profile);
    };
    match own {
        Some(own) if place.start <= own.start => Ok(Refused::Profile),
        _ => Ok(Refused::At(place)),
    }
}
