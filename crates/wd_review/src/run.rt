//! What a run uses: its files, and the schemas that were read.

use crate::schema::{Reading, SchemaFile};
use std::alloc::Global;
use std::collections::HashMap;
use wd_formats::Level;
use wd_output::Report;
use wd_sources::{MOST_BYTES, SourceError, Sources, files_at, schemas_for};
use wd_value::OutOfMemory;

/// The status where a path, a schema or a word is wrong, or the output or a file can't be written.
pub(crate) const WRONG: u8 = 3;

/// A file to be checked, or a path that is wrong.
#[derive(Drop)]
pub(crate) enum Step {
    File(String),
    Wrong(String, SourceError),
}

/// The files of all paths.
pub(crate) fn steps<S: Sources>(
    alloc: Global,
    paths: &[&str],
    sources: &mut S,
) -> Result<Vec<Step>, OutOfMemory> {
    let mut steps = Vec::new(alloc);
    for path in paths {
        match files_at(alloc, sources, path) {
            Ok(files) => {
                for file in files {
                    steps.push(Step::File(file))?;
                }
            }
            Err(error) => steps.push(Step::Wrong(String::from_str(alloc, path)?, error))?,
        }
    }
    Ok(steps)
}

/// A file of queries that was read.
#[derive(Drop)]
pub(crate) struct QueryFile {
    pub(crate) text: Vec<u8>,
    /// The number of its schema among those that were read.
    pub(crate) schema: usize,
}

/// The schemas that were read.
#[derive(Drop)]
pub(crate) struct Schemas {
    kept: Vec<SchemaFile>,
    /// Their numbers by their paths.
    numbers: HashMap<String, usize>,
}

impl Schemas {
    /// No schemas yet.
    fn new(alloc: Global) -> Schemas {
        Schemas {
            kept: Vec::new(alloc),
            numbers: HashMap::new(alloc),
        }
    }

    /// The schema with a number.
    pub(crate) fn file(&self, number: usize) -> Option<&SchemaFile> {
        self.kept.get(number)
    }

    /// Whether one of the schemas is not read.
    pub(crate) fn has_unread(&self) -> bool {
        self.kept.iter().any(|kept| kept.reading != Reading::Read)
    }

    /// The number of the schema of a path, which is read unless it was read before.
    fn at<S: Sources>(
        &mut self,
        alloc: Global,
        path: &str,
        sources: &mut S,
    ) -> Result<usize, SourceError> {
        if let Some(number) = self.numbers.get(path) {
            return Ok(*number);
        }
        let text = sources.read(alloc, path, MOST_BYTES)?;
        let number = self.kept.len();
        match SchemaFile::new(alloc, path, text) {
            Ok(kept) => self.kept.push(kept)?,
            Err(OutOfMemory) => return Err(SourceError::OutOfMemory),
        }
        self.numbers.insert(String::from_str(alloc, path)?, number)?;
        Ok(number)
    }
}

/// A run.
#[derive(Drop)]
pub(crate) struct Run<'r, S> {
    pub(crate) alloc: Global,
    pub(crate) sources: &'r mut S,
    /// The path of the schema, if one is given.
    pub(crate) schema: Option<&'r str>,
    pub(crate) schemas: Schemas,
    /// Whether a path, a schema or a lock is wrong, or a file can't be written.
    pub(crate) is_wrong: bool,
}

impl<'r, S: Sources> Run<'r, S> {
    /// A run over these files and folders.
    pub(crate) fn new(alloc: Global, sources: &'r mut S, schema: Option<&'r str>) -> Run<'r, S> {
        Run {
            alloc,
            sources,
            schema,
            schemas: Schemas::new(alloc),
            is_wrong: false,
        }
    }

    /// A file of queries, with its schema; `None` where one of them cannot be read, which is reported.
    pub(crate) fn query(
        &mut self,
        path: &str,
        report: &mut Report,
    ) -> Result<Option<QueryFile>, OutOfMemory> {
        let Some(text) = self.read(path, report)? else {
            return Ok(None);
        };
        match self.schema_for(path, report)? {
            Some(schema) => Ok(Some(QueryFile { text, schema })),
            None => Ok(None),
        }
    }

    /// The text of a query's file; `None` where it cannot be read, which is reported.
    fn read(&mut self, path: &str, report: &mut Report) -> Result<Option<Vec<u8>>, OutOfMemory> {
        match self.sources.read(self.alloc, path, MOST_BYTES) {
            Ok(text) => Ok(Some(text)),
            Err(error) => {
                self.tell_wrong(path, error, report)?;
                Ok(None)
            }
        }
    }

    /// Reports what is not done to a file, and why.
    pub(crate) fn tell_not_done(
        &mut self,
        what: &'static str,
        path: &str,
        reason: &str,
        report: &mut Report,
    ) -> Result<(), OutOfMemory> {
        self.is_wrong = true;
        let line = format!(in self.alloc; "{what}: {reason}")?;
        report.add_line(self.alloc, what, Level::Error, path, line.as_str())
    }

    /// Reports that a path cannot be read.
    pub(crate) fn tell_wrong(
        &mut self,
        path: &str,
        error: SourceError,
        report: &mut Report,
    ) -> Result<(), OutOfMemory> {
        let remark = match error {
            SourceError::Missing => "there is no such file or folder",
            SourceError::Failed | SourceError::Taken => "it can't be read",
            SourceError::OutOfMemory => return Err(OutOfMemory),
        };
        self.is_wrong = true;
        report.add_remark(self.alloc, path, remark)
    }

    /// The number of a query's schema among those that were read: the given one, or the nearest; `None` where there is none, which is
    /// reported.
    fn schema_for(
        &mut self,
        query: &str,
        report: &mut Report,
    ) -> Result<Option<usize>, OutOfMemory> {
        match self.nearest(query) {
            Ok(Some(number)) => {
                if let Some(kept) = self.schemas.kept.get_mut(number) {
                    kept.tell(self.alloc, report)?;
                }
                Ok(Some(number))
            }
            Ok(None) => {
                self.is_wrong = true;
                report.add_remark(
                    self.alloc,
                    query,
                    "no schema: there is no schema.sql beside it or above it",
                )?;
                Ok(None)
            }
            Err(error) => {
                let path = self.schema.unwrap_or(query);
                self.tell_wrong(path, error, report)?;
                Ok(None)
            }
        }
    }

    /// The number of the given schema, or of the nearest one.
    fn nearest(&mut self, query: &str) -> Result<Option<usize>, SourceError> {
        if let Some(path) = self.schema {
            return Ok(Some(self.schemas.at(self.alloc, path, self.sources)?));
        }
        let paths = schemas_for(self.alloc, query)?;
        for path in &paths {
            match self.schemas.at(self.alloc, path.as_str(), self.sources) {
                Ok(number) => return Ok(Some(number)),
                Err(SourceError::Missing) => {}
                Err(error) => return Err(error),
            }
        }
        Ok(None)
    }
}
