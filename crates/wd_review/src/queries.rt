//! A file of queries, as it is checked.

use crate::schema::SchemaFile;
use std::alloc::Global;
use wd_formats::Level;
use wd_output::Report;
use wd_query_front::{RespelledText, respelled_text};
use wd_value::OutOfMemory;

/// The remark on a file in which queries are respelled.
const RESPELLED: &str =
    "note: queries that wdcheck does not read are judged as the standard's equations respell them; --show-respelled prints them";

/// A file of queries, as it is checked.
#[derive(Drop)]
pub(crate) struct Queries {
    pub(crate) text: Vec<u8>,
    /// Whether some of the queries are respelled.
    pub(crate) is_respelled: bool,
    /// Notes on the respelled queries, one line each.
    notes: Vec<String>,
}

impl Queries {
    /// A file whose text is checked as it is.
    pub(crate) fn as_written(alloc: Global, text: Vec<u8>) -> Queries {
        Queries {
            text,
            is_respelled: false,
            notes: Vec::new(alloc),
        }
    }

    /// A file of this text over a schema: statements that the profile refuses are respelled by the standard's equations.
    pub(crate) fn over(
        alloc: Global,
        schema: &SchemaFile,
        text: Vec<u8>,
    ) -> Result<Queries, OutOfMemory> {
        match respelled_text(alloc, &schema.statements, &schema.text, &text)? {
            Some(RespelledText { text, notes }) => Ok(Queries {
                text,
                is_respelled: true,
                notes,
            }),
            None => Ok(Queries::as_written(alloc, text)),
        }
    }

    /// Reports that queries are respelled.
    pub(crate) fn tell(
        &self,
        alloc: Global,
        path: &str,
        report: &mut Report,
    ) -> Result<(), OutOfMemory> {
        if self.is_respelled {
            report.add_line(alloc, "note", Level::Warning, path, RESPELLED)?;
        }
        for note in &self.notes {
            report.add_line(alloc, "note", Level::Warning, path, note.as_str())?;
        }
        Ok(())
    }
}
