//! The text over which the queries of a file are checked.

ghost use Rattle.std.specs.Prelude.{◌≡◌, ◌≤◌, [], All, IfNone, IfOk, IfSome, IsNone, List, length, map};
ghost use Rattle.wd_fix.specs.Fixes.{span_of};
ghost use Rattle.wd_query.specs.Causes.{HasTextCause};
ghost use Rattle.wd_query_front.specs.Fronts.{AreLeft, IsLeft, IsPut, IsRespelledAt, IsRespelledText, IsTooLong, statement_of};
ghost use Rattle.wd_query.specs.Laws.{HaveMeaning};
ghost use Rattle.wd_respell.specs.Respelled as respelled;
ghost use Rattle.wd_respell.specs.Respelled.{CountsUnits, IsRespelledAs};
ghost use Rattle.wd_schema.specs.Schemas.{schema_of};
ghost use Rattle.wd_schema.specs.Tables.{TableRule};
ghost use Rattle.wd_schema.specs.Texts.{Declares};
ghost use Rattle.wd_source.specs.Statements.{StandInOrder};

use std::alloc::Global;
use wd_dialect_read::Statement;
use wd_fix::{Fix, fixed_text};
use wd_lex::{Span, Token, TokenKind};
use wd_query::{TextError, read_texts};
use wd_respell::{Respelled, counts_units, respell};
use wd_schema::{Schema, read_schema};
use wd_source::statements;
use wd_value::OutOfMemory;

/// More bytes than a text may have.
const UNREAD: usize = 65537;

/// A file of queries, some of them respelled.
#[derive(Drop)]
pub struct RespelledText {
    pub text: Vec<u8>,
    /// Notes on members of WITH that are read more than once, one line each.
    pub notes: Vec<String>,
}

/// The text of a file in which each statement that the profile refuses over a schema, or whose numbers count units, is respelled by the
/// equations, if there is such a statement. What the columns count is known from the statements that PostgreSQL has for the schema.
/// `None` where no statement is respelled, or the schema's text is refused. A query that would be misread is never left as it is, nor is
/// one that is refused and can be respelled.
pub fn respelled_text(
    alloc: Global,
    declared: &[Statement],
    schema: &[u8],
    text: &[u8],
) -> Result<Option<RespelledText>, OutOfMemory>
    ensures respelled { IfOk result (λ o. IfSome o (λ r. IsRespelledText declared.now schema.now text.now r.text.items)) }
    ensures left { IfOk result (λ o. IfNone o ((tables : List TableRule) → Declares schema.now tables → AreLeft declared.now schema.now text.now)) }
{
    match read_schema(alloc, schema) {
        Ok(tables) => respell_over(alloc, declared, schema, &tables, text),
        Err(error) => match error.number() {
            Some(_) => Ok(None),
            None => Err(OutOfMemory),
        },
    }
}

/// The text of a file over the schema that was read of a text.
fn respell_over(
    alloc: Global,
    declared: &[Statement],
    schema: &[u8],
    tables: &Schema,
    text: &[u8],
) -> Result<Option<RespelledText>, OutOfMemory>
    requires { Declares schema.now (schema_of tables.now) }
    ensures respelled { IfOk result (λ o. IfSome o (λ r. IsRespelledText declared.now schema.now text.now r.text.items)) }
    ensures left { IfOk result (λ o. IfNone o (AreLeft declared.now schema.now text.now)) }
{
    let mut notes = Vec::new(alloc);
    let spans = statements(alloc, text)?;
    let fixes = respelled_statements(alloc, declared, schema, tables, text, &spans, &mut notes)?;
    if fixes.is_empty() {
        return Ok(None);
    }
    let text = fixed_text(alloc, text, &fixes)?;
    Ok(Some(RespelledText { text, notes }))
}

/// The respelled statements; notes on them are appended to `notes`.
fn respelled_statements(
    alloc: Global,
    declared: &[Statement],
    schema: &[u8],
    tables: &Schema,
    text: &[u8],
    spans: &[Span],
    notes: &mut Vec<String>,
) -> Result<Vec<Fix>, OutOfMemory>
    requires declares { Declares schema.now (schema_of tables.now) }
    requires order { StandInOrder 0 spans.now (length text.now) }
    ensures order { IfOk result (λ fixes. StandInOrder 0 (map span_of fixes.items) (length text.now)) }
    ensures each { IfOk result (λ fixes. All (IsRespelledAt declared.now schema.now text.now) fixes.items) }
    ensures left { IfOk result (λ fixes. fixes.items ≡ [] → All (λ span. IsLeft (schema_of tables.now) declared.now schema.now (statement_of text.now span)) spans.now) }
{
    let mut fixes = Vec::new(alloc);
    for span in spans {
        if let Some(fix) = respelled_statement(
            alloc, declared, schema, tables, text, *span, notes,
        )? {
            fixes.push(fix)?;
        }
    }
    Ok(fixes)
}

/// The respelling of the statement in these bytes, if the profile refuses it or its numbers count units.
fn respelled_statement(
    alloc: Global,
    declared: &[Statement],
    schema: &[u8],
    tables: &Schema,
    text: &[u8],
    span: Span,
    notes: &mut Vec<String>,
) -> Result<Option<Fix>, OutOfMemory>
    requires declares { Declares schema.now (schema_of tables.now) }
    requires ordered { span.start ≤ span.end }
    requires within { span.end ≤ length text.now }
    ensures stands { IfOk result (λ o. IfSome o (λ fix. fix.span ≡ span)) }
    ensures respelled { IfOk result (λ o. IfSome o (IsRespelledAt declared.now schema.now text.now)) }
    ensures left { IfOk result (λ o. IsNone o → IsLeft (schema_of tables.now) declared.now schema.now (statement_of text.now span)) }
{
    let query = &text[span.start as usize..span.end as usize];
    match refusal(alloc, schema, query) {
        None => in_units(alloc, declared, tables, query, span, notes),
        Some(error) => match error.number() {
            Some(_) => respelling(alloc, declared, tables, query, span, notes),
            None => Err(OutOfMemory),
        },
    }
}

/// A query that the profile reads, with its numbers in the units that they count, if they count any.
fn in_units(
    alloc: Global,
    declared: &[Statement],
    tables: &Schema,
    query: &[u8],
    span: Span,
    notes: &mut Vec<String>,
) -> Result<Option<Fix>, OutOfMemory>
    ensures stands { IfOk result (λ o. IfSome o (λ fix. fix.span ≡ span)) }
    ensures counts { IfOk result (λ o. IfSome o (λ fix. CountsUnits declared.now query.now)) }
    ensures put { IfOk result (λ o. IfSome o (λ fix. IsPut (schema_of tables.now) declared.now query.now fix.text.items)) }
    ensures left { IfOk result (λ o. IsNone o → CountsUnits declared.now query.now → ⊥) }
{
    if !counts_units(alloc, declared, query)? {
        return Ok(None);
    }
    match respelling(alloc, declared, tables, query, span, notes)? {
        Some(fix) => Ok(Some(fix)),
        None => {
            let text = unread(alloc)?;
            Ok(Some(Fix { span, text }))
        }
    }
}

/// A text that is refused as too long. It replaces a query that would be misread as it is, and would have too many tokens or bytes with
/// its numbers in units.
fn unread(alloc: Global) -> Result<Vec<u8>, OutOfMemory>
    ensures { IfOk result (λ text. IsTooLong text.items) }
{
    let mut text = Vec::new(alloc);
    text.resize(UNREAD, b'x')?;
    Ok(text)
}

/// Why the profile refuses a query over a schema, if it does.
fn refusal(alloc: Global, schema: &[u8], query: &[u8]) -> Option<TextError>
    ensures refused { IfSome result (HasTextCause schema.now query.now) }
    ensures read { IfNone result (HaveMeaning schema.now query.now) }
{
    match read_texts(alloc, schema, query) {
        Ok(_) => None,
        Err(error) => Some(error),
    }
}

/// The respelling of a query by the equations, to replace it.
fn respelling(
    alloc: Global,
    declared: &[Statement],
    tables: &Schema,
    query: &[u8],
    span: Span,
    notes: &mut Vec<String>,
) -> Result<Option<Fix>, OutOfMemory>
    ensures stands { IfOk result (λ o. IfSome o (λ fix. fix.span ≡ span)) }
    ensures respelled { IfOk result (λ o. IfSome o (λ fix. IsRespelledAs (schema_of tables.now) declared.now query.now fix.text.items)) }
    ensures left { IfOk result (λ o. IsNone o → respelled.IsLeft (schema_of tables.now) declared.now query.now) }
{
    match respell(alloc, tables, declared, query)? {
        Some(respelled) => {
            let Respelled { text, read_twice } = respelled;
            for name in &read_twice {
                notes.push(note_of(alloc, name)?)?;
            }
            let text = Vec::from_slice(alloc, text.as_bytes())?;
            Ok(Some(Fix { span, text }))
        }
        None => Ok(None),
    }
}

/// The note on a member of WITH that is read more than once.
fn note_of(alloc: Global, name: &Token) -> Result<String, OutOfMemory> {
    let mut line = String::from_str(alloc, "note: WITH ")?;
    match &name.kind {
        TokenKind::Word(word) => line.push_str(word.as_str())?,
        TokenKind::Quoted(word) => line.push_str(word.as_str())?,
        _ => {}
    }
    line.push_str(
        " is read more than once; each use is judged by itself, so its ties may differ here where the database evaluates it once",
    )?;
    Ok(line)
}
