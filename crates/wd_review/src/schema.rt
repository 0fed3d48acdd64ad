//! A schema that was read, and the remarks on it.

use std::alloc::Global;
use std::mem;
use wd_dialect_schema::{DialectError, DialectSchema, Statement, read_dialect};
use wd_formats::Level;
use wd_front::{Front, Refused, front_of, note_lines};
use wd_judged::File;
use wd_lex::Span;
use wd_lines::refusal_words_at;
use wd_output::Report;
use wd_value::OutOfMemory;

/// What is still to be reported of a schema.
#[derive(Drop)]
enum Untold {
    Nothing,
    /// What is ignored, and what is assumed.
    Notes(Vec<String>),
    /// It is refused at these bytes.
    Refused(Span),
    /// Its tables are refused, with these words.
    Tables(String),
}

/// Whether a schema is read. If it is not, its text is that of the file.
#[derive(Clone, Copy, PartialEq, Eq)]
pub(crate) enum Reading {
    Read,
    /// The profile refuses the schema, which is reported for each query.
    Unread,
    /// The schema is refused in the form of PostgreSQL's tools, which is reported once.
    Refused,
}

/// A schema that was read.
#[derive(Drop)]
pub(crate) struct SchemaFile {
    path: String,
    /// The text over which queries are checked: that of the file, or the one that spells its tables.
    pub(crate) text: Vec<u8>,
    pub(crate) reading: Reading,
    /// The statements that PostgreSQL has for the schema; none where PostgreSQL does not read it.
    pub(crate) statements: Vec<Statement>,
    untold: Untold,
}

impl SchemaFile {
    /// The schema of a text.
    pub(crate) fn new(alloc: Global, path: &str, text: Vec<u8>) -> Result<SchemaFile, OutOfMemory> {
        let path = String::from_str(alloc, path)?;
        match front_of(alloc, &text)? {
            Front::Own => {
                let statements = statements_of(alloc, &text)?;
                Ok(SchemaFile {
                    path,
                    text,
                    reading: Reading::Read,
                    statements,
                    untold: Untold::Nothing,
                })
            }
            Front::Unread(Refused::Profile) => Ok(SchemaFile {
                path,
                text,
                reading: Reading::Unread,
                statements: Vec::new(alloc),
                untold: Untold::Nothing,
            }),
            Front::Respelled(schema) => {
                let DialectSchema { statements, text } = schema;
                let lines = note_lines(alloc, &statements)?;
                Ok(SchemaFile {
                    path,
                    text: Vec::from_slice(alloc, text.as_bytes())?,
                    reading: Reading::Read,
                    statements,
                    untold: Untold::Notes(lines),
                })
            }
            Front::Unread(refused) => Ok(SchemaFile {
                path,
                text,
                reading: Reading::Refused,
                statements: Vec::new(alloc),
                untold: untold_of(alloc, refused)?,
            }),
        }
    }

    /// The schema's path, and the text over which queries are checked.
    pub(crate) fn file(&self) -> File<'_> {
        File {
            path: self.path.as_str(),
            text: &self.text,
        }
    }

    /// Reports what was not reported yet.
    pub(crate) fn tell(&mut self, alloc: Global, report: &mut Report) -> Result<(), OutOfMemory> {
        let path = self.path.as_str();
        match mem::replace(&mut self.untold, Untold::Nothing) {
            Untold::Nothing => Ok(()),
            Untold::Notes(lines) => {
                for line in &lines {
                    report.add_line(alloc, "note", Level::Warning, path, line.as_str())?;
                }
                Ok(())
            }
            Untold::Refused(span) => report.add_schema(alloc, path, &self.text, span),
            Untold::Tables(words) => report.add_remark(alloc, path, words.as_str()),
        }
    }
}

/// The statements that PostgreSQL has for a text of the profile, from which it is known what the columns are.
fn statements_of(alloc: Global, text: &[u8]) -> Result<Vec<Statement>, OutOfMemory> {
    match read_dialect(alloc, text) {
        Ok(schema) => {
            let DialectSchema {
                statements,
                text: _spelled,
            } = schema;
            Ok(statements)
        }
        Err(DialectError::OutOfMemory) => Err(OutOfMemory),
        Err(_) => Ok(Vec::new(alloc)),
    }
}

/// What is to be reported of a refusal.
fn untold_of(alloc: Global, refused: Refused) -> Result<Untold, OutOfMemory> {
    match refused {
        Refused::Profile => Ok(Untold::Nothing),
        Refused::At(span) => Ok(Untold::Refused(span)),
        Refused::Tables(number) => {
            let (sentence, _) = refusal_words_at(number, &[], None);
            let words = format!(in alloc; "not read: {sentence} [{number}]")?;
            Ok(Untold::Tables(words))
        }
        Refused::TooLong => {
            let words = "not read: the tables that it declares take more than 65,536 bytes";
            Ok(Untold::Tables(String::from_str(alloc, words)?))
        }
    }
}
