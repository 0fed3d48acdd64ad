//! Reads texts of schemas as PostgreSQL's tools write them.

ghost use Rattle.std.specs.Prelude.{◌≡◌, ◌≢◌, ◌-◌, ◌<◌, length, map, IfOk, IfErr, OnOk, MatchOption, Err};
ghost use Rattle.std.specs.String.{string_bytes};
ghost use Rattle.wd_lex.specs.Lexed.{kinds_of, most_bytes};
ghost use Rattle.wd_print.specs.Printed.{printed};
ghost use Rattle.wd_read_cursor.specs.Given.{left_of};
ghost use Rattle.wd_read_statements.specs.Grammar.{spell_schema};
ghost use Rattle.wd_dialect_read.specs.Said.{statement_said};
ghost use Rattle.wd_dialect_schema.specs.declared.error.DialectError.{DialectError as Refused};
ghost use Rattle.wd_dialect_schema.specs.Meaning.{tables_of};
ghost use Rattle.wd_dialect_schema.specs.Texts.{HasCause, Says, Spells, schema_of};

use crate::error::DialectError;
use crate::table::declared_tables;
use std::alloc::Global;
use wd_declaration::{TextError, schema_text};
use wd_dialect_read::{Statement, read_statements};
use wd_dialect_text::mask_text;
use wd_lex::{LexError, Token, lex};
use wd_read_cursor::{Refusal, token_place};

/// A schema as PostgreSQL's tools write it.
#[derive(Drop)]
pub struct DialectSchema {
    /// Its statements, with the kinds of columns and what is passed over.
    pub statements: Vec<Statement>,
    /// The text of the profile that spells its tables.
    pub text: String,
}

/// The schema of a text of PostgreSQL.
///
/// A table is named without its schema. In the profile's text each name is in quotes.
pub fn read_dialect(alloc: Global, text: &[u8]) -> Result<DialectSchema, DialectError>
    // The statements are those of the text.
    ensures says { IfOk result (λ schema. Says text.now (map statement_said schema.statements.items)) }

    // The profile's text spells the tables that they declare.
    ensures spells { IfOk result (λ schema. Spells (string_bytes schema.text) (tables_of (map statement_said schema.statements.items))) }

    // A refusal occurs only where the text has its cause.
    ensures cause { IfErr result (λ refusal. refusal ≢ DialectError.OutOfMemory → HasCause text.now refusal) }

    // Where the text's tokens have a cause, the text is refused.
    ensures refused { OnOk result ((refusal : Refused) → refusal ≢ DialectError.TooLong → HasCause text.now refusal → ⊥) }
{
    let statements = statements_of(alloc, text)?;
    let text = respell(alloc, &statements)?;
    Ok(DialectSchema { statements, text })
}

/// The statements of a text.
fn statements_of(alloc: Global, text: &[u8]) -> Result<Vec<Statement>, DialectError>
    ensures says { IfOk result (λ statements. Says text.now (map statement_said statements.items)) }
    ensures cause { IfErr result (λ refusal. refusal ≢ DialectError.OutOfMemory → HasCause text.now refusal) }
{
    let other = mask_text(alloc, text)?;
    let tokens = match lex(alloc, &other) {
        Ok(tokens) => tokens,
        Err(error) => return Err(lexer_refusal(error)),
    };
    match read_statements(alloc, &tokens) {
        Ok((statements, _)) => Ok(statements),
        Err(refusal) => Err(refusal_at(&tokens, refusal)),
    }
}

/// The refusal of a text that has no tokens.
fn lexer_refusal(error: LexError) -> DialectError
    ensures { result ≢ DialectError.OutOfMemory → (error ≢ LexError.OutOfMemory) × (result ≡ DialectError.Tokens error) }
{
    match error {
        LexError::OutOfMemory => DialectError::OutOfMemory,
        _ => DialectError::Tokens(error),
    }
}

/// The refusal of the tokens, with the number of the refused token.
fn refusal_at(tokens: &[Token], refusal: Refusal) -> DialectError
    ensures { MatchOption (left_of refusal) (result ≡ DialectError.OutOfMemory) (λ left. result ≡ DialectError.Unexpected (length (kinds_of tokens.now) - left)) }
{
    match refusal.left() {
        Some(left) => {
            let place = token_place(tokens, left);
            DialectError::Unexpected { place }
        }
        None => DialectError::OutOfMemory,
    }
}

/// The text of the profile that spells the tables of statements.
fn respell(alloc: Global, statements: &[Statement]) -> Result<String, DialectError>
    ensures spells { IfOk result (λ text. Spells (string_bytes text) (tables_of (map statement_said statements.now))) }
    ensures long { IfErr result (λ refusal. refusal ≢ DialectError.OutOfMemory → (refusal ≡ DialectError.TooLong) × (most_bytes < length (printed (spell_schema (schema_of (tables_of (map statement_said statements.now))))))) }
{
    let tables = declared_tables(alloc, statements)?;
    match schema_text(alloc, &tables) {
        Ok(text) => Ok(text),
        Err(TextError::TooLong) => Err(DialectError::TooLong),
        Err(TextError::OutOfMemory) => Err(DialectError::OutOfMemory),
    }
}
