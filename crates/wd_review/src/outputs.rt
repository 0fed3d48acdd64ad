//! The files that a run writes.

use crate::run::Step;
use crate::stop::Stop;
use std::alloc::Global;
use std::collections::HashMap;
use std::io::Write;
use wd_baseline::{Baseline, baseline_text};
use wd_file::{Knowledge, Tally};
use wd_sources::{STANDARD_INPUT, SourceError, Sources, schemas_for};
use wd_value::OutOfMemory;
use wd_words::Request;

/// The most bytes of a baseline that are read.
const MOST_OF_A_BASELINE: u64 = 64 << 20;

/// The path of a file's lock.
pub(crate) fn lock_path(alloc: Global, query: &str) -> Result<String, OutOfMemory> {
    let mut path = String::from_str(alloc, query)?;
    path.push_str(".cert")?;
    Ok(path)
}

/// What is known of findings, as the command line asks.
pub(crate) fn knowledge<'w, S: Sources, E: Write>(
    alloc: Global,
    request: &Request<'w>,
    sources: &mut S,
    err: &mut E,
) -> Result<Knowledge, Stop<'w>> {
    let Some(path) = request.baseline else {
        if request.writes_baseline {
            return Err(Stop::NoBaseline);
        }
        return Ok(Knowledge::Nothing);
    };
    if request.writes_baseline {
        return Ok(Knowledge::Written(Vec::new(alloc)));
    }
    let bytes = match sources.read(alloc, path, MOST_OF_A_BASELINE + 1) {
        Ok(bytes) => bytes,
        Err(_) => return Err(Stop::BaselineUnread),
    };
    if bytes.len() as u64 > MOST_OF_A_BASELINE {
        return Err(Stop::BaselineLarge);
    }
    match Baseline::read(alloc, &bytes) {
        Ok(baseline) => Ok(Knowledge::Read(baseline)),
        Err(error) => {
            let _ = writeln!(err, "wdreport: {path}: {error}");
            Err(Stop::BaselineUnread)
        }
    }
}

/// Writes the baseline, if that is requested.
pub(crate) fn write_baseline<'w, S: Sources>(
    alloc: Global,
    request: &Request<'w>,
    knowledge: Knowledge,
    sources: &mut S,
) -> Result<(), Stop<'w>> {
    let (Some(path), Knowledge::Written(lines)) = (request.baseline, knowledge) else {
        return Ok(());
    };
    let bytes = baseline_text(alloc, lines)?;
    match sources.write(alloc, path, &bytes) {
        Ok(()) => Ok(()),
        Err(_) => Err(Stop::BaselineUnwritten),
    }
}

/// Writes the page, if one is requested.
pub(crate) fn write_page<'w, S: Sources>(
    alloc: Global,
    request: &Request<'w>,
    tally: &Tally,
    sources: &mut S,
) -> Result<(), Stop<'w>> {
    let (Some(path), Some(page)) = (request.html, &tally.page) else {
        return Ok(());
    };
    let bytes = page.to_bytes()?;
    match sources.write(alloc, path, &bytes) {
        Ok(()) => Ok(()),
        Err(_) => Err(Stop::PageUnwritten),
    }
}

/// The files that a run reads or already writes, by resolved paths, which do not depend on the spelling.
#[derive(Drop)]
pub(crate) struct Used {
    alloc: Global,
    files: HashMap<String, &'static str>,
}

impl Used {
    /// No files yet.
    pub(crate) fn new(alloc: Global) -> Used {
        Used {
            alloc,
            files: HashMap::new(alloc),
        }
    }

    /// Adds a file, and what it is. A file whose folder does not exist cannot be meant by any other path.
    pub(crate) fn add<S: Sources>(
        &mut self,
        path: &str,
        what: &'static str,
        sources: &mut S,
    ) -> Result<(), OutOfMemory> {
        if let Some(path) = resolve_path(self.alloc, path, sources)? {
            self.files.insert(path, what)?;
        }
        Ok(())
    }

    /// Adds the files of queries that are checked.
    pub(crate) fn add_queries<S: Sources>(
        &mut self,
        steps: &[Step],
        sources: &mut S,
    ) -> Result<(), OutOfMemory> {
        for step in steps {
            if let Step::File(path) = step {
                if path.as_str() != STANDARD_INPUT {
                    self.add(path.as_str(), "a query that is judged", sources)?;
                }
            }
        }
        Ok(())
    }

    /// Adds the locks of the files that are checked.
    pub(crate) fn add_locks<S: Sources>(
        &mut self,
        steps: &[Step],
        sources: &mut S,
    ) -> Result<(), OutOfMemory> {
        for step in steps {
            if let Step::File(path) = step {
                let lock = lock_path(self.alloc, path.as_str())?;
                self.add(lock.as_str(), "the lock of a query that is judged", sources)?;
            }
        }
        Ok(())
    }

    /// Adds the given schema, or the places where the schemas of the queries are looked for. Files of queries in one folder have the same
    /// places.
    pub(crate) fn add_schemas<S: Sources>(
        &mut self,
        schema: Option<&str>,
        steps: &[Step],
        sources: &mut S,
    ) -> Result<(), OutOfMemory> {
        if let Some(path) = schema {
            return self.add(path, "the schema", sources);
        }
        let mut nearest = String::new(self.alloc);
        for step in steps {
            let Step::File(query) = step else {
                continue;
            };
            let paths = schemas_for(self.alloc, query.as_str())?;
            let Some(first) = paths.first() else {
                continue;
            };
            if *first == nearest {
                continue;
            }
            for path in &paths {
                self.add(
                    path.as_str(),
                    "the schema of a query that is judged",
                    sources,
                )?;
            }
            nearest = String::from_str(self.alloc, first.as_str())?;
        }
        Ok(())
    }

    /// What a file to be written is, if it is one of these.
    pub(crate) fn what<S: Sources>(
        &self,
        path: &str,
        sources: &mut S,
    ) -> Result<Option<&'static str>, OutOfMemory> {
        match resolve_path(self.alloc, path, sources)? {
            Some(path) => Ok(self.files.get(path.as_str()).copied()),
            None => Ok(None),
        }
    }
}

/// The resolved path of a file, which does not depend on the spelling; `None` where its folder cannot be looked at.
fn resolve_path<S: Sources>(
    alloc: Global,
    path: &str,
    sources: &mut S,
) -> Result<Option<String>, OutOfMemory> {
    match sources.resolve(alloc, path) {
        Ok(path) => Ok(Some(path)),
        Err(SourceError::OutOfMemory) => Err(OutOfMemory),
        Err(SourceError::Missing | SourceError::Failed | SourceError::Taken) => Ok(None),
    }
}

/// Refuses a page or a baseline that would overwrite a file that is read, or one another.
pub(crate) fn check_outputs<'w, S: Sources>(
    alloc: Global,
    request: &Request<'w>,
    steps: &[Step],
    sources: &mut S,
) -> Result<(), Stop<'w>> {
    if request.html.is_none() && !request.writes_baseline {
        return Ok(());
    }
    let mut used = Used::new(alloc);
    used.add_locks(steps, sources)?;
    used.add_schemas(request.schema, steps, sources)?;
    used.add_queries(steps, sources)?;
    if let Some(path) = request.baseline {
        if request.writes_baseline {
            refuse_used(&used, path, sources)?;
        }
        used.add(path, "the baseline", sources)?;
    }
    match request.html {
        Some(path) => refuse_used(&used, path, sources),
        None => Ok(()),
    }
}

/// Refuses a file to be written that is used.
pub(crate) fn refuse_used<'w, S: Sources>(
    used: &Used,
    path: &'w str,
    sources: &mut S,
) -> Result<(), Stop<'w>> {
    match used.what(path, sources)? {
        Some(what) => Err(Stop::Overwrites { path, what }),
        None => Ok(()),
    }
}
