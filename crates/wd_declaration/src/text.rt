//! The text of a schema.

ghost use Rattle.std.specs.Prelude.{◌≡◌, ◌<◌, length, IfOk, Err};
ghost use Rattle.std.specs.String.{string_bytes};
ghost use Rattle.wd_lex.specs.Lexed.{most_bytes};
ghost use Rattle.wd_print.specs.Printed.{printed};
ghost use Rattle.wd_read_statements.specs.Grammar.{spell_schema};
ghost use Rattle.wd_declaration.specs.Spelled.{Spells, schema_of};
ghost use Rattle.wd_declaration.specs.declared.text.TextError.TheVariants.{OutOfMemory};

use crate::declaration::Declaration;
use crate::write::write_list;
use std::alloc::{AllocError, Global};
use wd_lex::Terminal;

/// The most bytes of a text.
const MOST_BYTES: usize = 65536;

/// Why declarations have no text.
#[derive(Clone, Copy)]
pub enum TextError {
    /// The text would be longer than 65,536 bytes.
    TooLong,
    OutOfMemory,
}

impl From<AllocError> for TextError {
    ghost from_gives = { λ _ e. e ≡ OutOfMemory };

    fn from(_error: AllocError) -> TextError {
        TextError::OutOfMemory
    }
}

/// The text that spells declarations of tables, one token after the other.
pub fn schema_text(alloc: Global, tables: &[Declaration]) -> Result<String, TextError>
    // The text spells them, so the profile reads it as just their tables.
    ensures spells { IfOk result (λ text. Spells (string_bytes text) tables.now) }

    // It is refused only where it would be too long.
    ensures too_long { result ≡ Err TextError.TooLong → most_bytes < length (printed (spell_schema (schema_of tables.now))) }
{
    let text = printed_tables(alloc, tables)?;
    if text.as_str().len() > MOST_BYTES {
        return Err(TextError::TooLong);
    }
    Ok(text)
}

/// The tokens of declarations, printed.
fn printed_tables(alloc: Global, tables: &[Declaration]) -> Result<String, AllocError>
    ensures { IfOk result (λ text. string_bytes text ≡ printed (spell_schema (schema_of tables.now))) }
{
    let mut text = String::new(alloc);
    write_list(&mut text, tables, Terminal::Semicolon)?;
    Ok(text)
}
