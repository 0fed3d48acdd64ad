//! Reads schema texts.

ghost use Rattle.std.specs.Prelude.{◌≡◌, ◌≢◌, map, List, IfOk, IfErr, OnOk};
ghost use Rattle.wd_schema.specs.Declares.{AllKeep, table_declared};
ghost use Rattle.wd_schema.specs.Schemas.{schema_of};
ghost use Rattle.wd_schema.specs.Tables.{TableRule};
ghost use Rattle.wd_schema.specs.Texts.{Declares, GivesTables, HasCause};
ghost use Rattle.wd_schema.specs.WellFormed.{IsWellFormed};
ghost use Rattle.wd_read_statements.specs.Written.{table_tree};
ghost use Rattle.wd_schema.specs.declared.error.SchemaError.{SchemaError as Refusal};

use crate::declare::declare;
use crate::error::SchemaError;
use crate::schema::Schema;
use indexmap::IndexMap;
use std::alloc::Global;
use wd_lex::{LexError, lex};
use wd_read_statements::{WrittenTable, read_statements};

/// The most tables of a schema.
const MOST_TABLES: usize = 64;

/// The schema that a text declares: its tables in order of declaration.
///
/// Of several causes of a refusal the first in the text is reported; 309 of a statement comes before its other refusals. The names of a
/// statement are compared with one another, so the time is at most quadratic in their number, in a text of at most 65,536 bytes.
pub fn read_schema(alloc: Global, text: &[u8]) -> Result<Schema, SchemaError>
    // The schema's tables are those that the text declares.
    ensures schema { IfOk result (λ schema. Declares text.now (schema_of schema)) }

    // The tables keep the limits; keys name columns of their table, and those of a primary key are NOT NULL.
    ensures well_formed { IfOk result (λ schema. IsWellFormed (schema_of schema)) }

    // Tables that the text declares are returned, unless memory runs out.
    ensures declared { (tables : List TableRule) → Declares text.now tables → GivesTables tables result }

    // A refusal is returned only where the text has its cause.
    ensures cause { IfErr result (λ refusal. refusal ≢ SchemaError.OutOfMemory → HasCause text.now refusal) }

    // A text with a cause of a refusal is refused.
    ensures refused { OnOk result ((refusal : Refusal) → HasCause text.now refusal → ⊥) }
{
    answer(alloc, text)
}

/// The schema that a text declares, or its refusal.
fn answer(alloc: Global, text: &[u8]) -> Result<Schema, SchemaError>
    ensures schema { IfOk result (λ schema. Declares text.now (schema_of schema)) }
    ensures cause { IfErr result (λ refusal. refusal ≢ SchemaError.OutOfMemory → HasCause text.now refusal) }
{
    let tokens = match lex(alloc, text) {
        Ok(tokens) => tokens,
        Err(error) => return Err(lexer_refusal(error)),
    };
    let Ok(statements) = read_statements(alloc, &tokens) else {
        return Err(SchemaError::OutOfMemory);
    };
    let schema = declared_schema(alloc, &statements.tables)?;
    match statements.unexpected {
        Some(place) => Err(SchemaError::Unexpected { place }),
        None => Ok(schema),
    }
}

/// The refusal of a text that cannot be split into tokens.
fn lexer_refusal(error: LexError) -> SchemaError
    ensures { result ≢ SchemaError.OutOfMemory → (error ≢ LexError.OutOfMemory) × (result ≡ SchemaError.Tokens error) }
{
    match error {
        LexError::OutOfMemory => SchemaError::OutOfMemory,
        _ => SchemaError::Tokens(error),
    }
}

/// The schema of these tables.
fn declared_schema(alloc: Global, tables: &[WrittenTable]) -> Result<Schema, SchemaError>
    ensures tables { IfOk result (λ schema. schema_of schema ≡ map table_declared (map table_tree tables.now)) }
    ensures kept { OnOk result ((refusal : Refusal) → AllKeep refusal (map table_tree tables.now)) }
    ensures refused { IfErr result (λ refusal. refusal ≢ SchemaError.OutOfMemory → AllKeep refusal (map table_tree tables.now) → ⊥) }
{
    let mut schema = IndexMap::new(alloc);
    for (t, table) in tables.iter().enumerate() {
        let name = &table.name.text;
        if schema.contains_key(name.as_str()) {
            return Err(SchemaError::TableTwice);
        }
        if t >= MOST_TABLES {
            return Err(SchemaError::TooMany);
        }
        let declared = declare(alloc, table)?;
        let key = String::from_str(alloc, name.as_str())?;
        schema.insert(key, declared)?;
    }
    Ok(Schema { tables: schema })
}
