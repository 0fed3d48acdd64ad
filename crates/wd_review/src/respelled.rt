//! The texts over which queries are checked.

use crate::queries::Queries;
use crate::run::{QueryFile, Run, WRONG, steps};
use crate::schema::{Reading, SchemaFile};
use crate::stop::Stop;
use crate::walk::{EachFile, walk};
use std::alloc::Global;
use std::io::Write;
use std::rt::Clock;
use wd_judged::File;
use wd_lines::add_plain;
use wd_output::{Look, Report, Screen, Terminals, Watch};
use wd_sources::Sources;
use wd_value::OutOfMemory;
use wd_words::{Colour, FilesRequest, Format};

/// The status where a schema is not read.
const NOT_READ: u8 = 2;

/// Prints the text of each schema over which queries of these files are checked, and of each file with respelled queries. Remarks on them
/// go to standard error.
pub(crate) fn show_respelled<'w, S: Sources, C: Clock, O: Write, E: Write>(
    alloc: Global,
    request: &FilesRequest<'w>,
    terminals: Terminals,
    clock: &C,
    sources: &mut S,
    out: &mut O,
    err: &mut E,
) -> Result<u8, Stop<'w>> {
    let steps = steps(alloc, &request.paths, sources)?;
    let mut run = Run::new(alloc, sources, request.schema);
    let look = Look {
        colour: Colour::Auto,
        is_filter: true,
    };
    let mut screen = Screen::new(look, terminals, steps.len() as u64, clock, out, err);
    let mut shown = Shown {
        count: 0,
        text: Vec::new(alloc),
    };
    walk(&mut run, &steps, Format::Text, &mut shown, &mut screen)?;
    screen.finish(&shown.text)?;
    if run.is_wrong {
        return Ok(WRONG);
    }
    Ok(if run.schemas.has_unread() {
        NOT_READ
    } else {
        0
    })
}

/// The text to be printed: of each file whose queries are respelled, and before it its schema, unless that was added before.
#[derive(Drop)]
struct Shown {
    /// How many of the schemas that were read are in the text.
    count: usize,
    text: Vec<u8>,
}

impl EachFile for Shown {
    fn take<S: Sources, W: Watch>(
        &mut self,
        run: &mut Run<'_, S>,
        path: &str,
        report: &mut Report,
        _watch: &mut W,
    ) -> Result<(), OutOfMemory> {
        let Some(query) = run.query(path, report)? else {
            return Ok(());
        };
        let QueryFile {
            text,
            schema: number,
        } = query;
        let Some(schema) = run.schemas.file(number) else {
            return Ok(());
        };
        if number >= self.count {
            self.count = number.saturating_add(1);
            self.add_schema(run.alloc, schema, report)?;
        }
        self.add_queries(run.alloc, schema, path, text)
    }
}

impl Shown {
    /// Adds a file, if some of its queries are respelled over its schema.
    fn add_queries(
        &mut self,
        alloc: Global,
        schema: &SchemaFile,
        path: &str,
        text: Vec<u8>,
    ) -> Result<(), OutOfMemory> {
        let queries = Queries::over(alloc, schema, text)?;
        if !queries.is_respelled {
            return Ok(());
        }
        let file = File {
            path,
            text: &queries.text,
        };
        self.add_text(alloc, file)
    }

    /// Adds a schema, if it was read.
    fn add_schema(
        &mut self,
        alloc: Global,
        schema: &SchemaFile,
        report: &mut Report,
    ) -> Result<(), OutOfMemory> {
        match schema.reading {
            Reading::Read => self.add_text(alloc, schema.file()),
            Reading::Unread => report.add_remark(
                alloc,
                schema.file().path,
                "not read: judge a query over it to see where",
            ),
            Reading::Refused => Ok(()),
        }
    }

    /// Adds a text, with its path above it.
    fn add_text(&mut self, alloc: Global, file: File<'_>) -> Result<(), OutOfMemory> {
        let mut path = String::new(alloc);
        add_plain(&mut path, file.path)?;
        self.text.extend_from_slice(b"-- ")?;
        self.text.extend_from_slice(path.as_bytes())?;
        self.text.push(b'\n')?;
        self.text.extend_from_slice(file.text.trim_ascii_end())?;
        Ok(self.text.push(b'\n')?)
    }
}
