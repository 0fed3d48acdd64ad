//! Locks: the certificates of a file's queries, in a file beside it.

use crate::mended::words_of_error;
use crate::outputs::{Used, lock_path};
use crate::queries::Queries;
use crate::run::{QueryFile, Run, Step, WRONG, steps};
use crate::schema::SchemaFile;
use crate::stop::Stop;
use crate::walk::{EachFile, walk};
use std::alloc::Global;
use std::io::Write;
use std::rt::Clock;
use wd_file::lock_statements;
use wd_formats::Level;
use wd_json_lines::LineError;
use wd_lock::Lock;
use wd_output::{Look, Report, Screen, Terminals, Watch};
use wd_sources::{STANDARD_INPUT, SourceError, Sources};
use wd_value::OutOfMemory;
use wd_words::{Colour, FilesRequest, Format};

/// The most bytes of a lock that are read.
const MOST_OF_A_LOCK: u64 = 64 << 20;

/// The remark on a file whose lock is not written.
const NOT_LOCKED: &str = "not locked";

/// A lock beside a file, and its path.
#[derive(Drop)]
pub(crate) struct Beside {
    pub(crate) path: String,
    pub(crate) lock: Lock,
}

/// The lock beside a file; `None` where there is none, or where the file there is no lock, which is reported.
pub(crate) fn lock_beside<S: Sources>(
    run: &mut Run<'_, S>,
    query: &str,
    report: &mut Report,
) -> Result<Option<Beside>, OutOfMemory> {
    if query == STANDARD_INPUT {
        return Ok(None);
    }
    let alloc = run.alloc;
    let path = lock_path(alloc, query)?;
    let bytes = match run.sources.read(alloc, path.as_str(), MOST_OF_A_LOCK + 1) {
        Ok(bytes) => bytes,
        Err(SourceError::Missing) => return Ok(None),
        Err(SourceError::OutOfMemory) => return Err(OutOfMemory),
        Err(_) => return tell_no_lock(run, path.as_str(), "the lock can't be read", report),
    };
    if bytes.len() as u64 > MOST_OF_A_LOCK {
        return tell_no_lock(run, path.as_str(), "the lock has more than 64 MiB", report);
    }
    match Lock::read(alloc, &bytes) {
        Ok(lock) => Ok(Some(Beside { path, lock })),
        Err(LineError::Unread { number }) => {
            let words = format!(in alloc;
                "line {number} of the lock is neither a certificate nor null"
            )?;
            tell_no_lock(run, path.as_str(), words.as_str(), report)
        }
        Err(LineError::OutOfMemory) => Err(OutOfMemory),
    }
}

/// Reports why a file is not a lock.
fn tell_no_lock<S: Sources>(
    run: &mut Run<'_, S>,
    path: &str,
    words: &str,
    report: &mut Report,
) -> Result<Option<Beside>, OutOfMemory> {
    run.is_wrong = true;
    report.add_line(run.alloc, "lock", Level::Error, path, words)?;
    Ok(None)
}

/// Writes the locks of all files.
pub(crate) fn lock_all<'w, S: Sources, C: Clock, O: Write, E: Write>(
    alloc: Global,
    request: &FilesRequest<'w>,
    terminals: Terminals,
    clock: &C,
    sources: &mut S,
    out: &mut O,
    err: &mut E,
) -> Result<u8, Stop<'w>> {
    let steps = steps(alloc, &request.paths, sources)?;
    let used = read_files(alloc, request, &steps, sources)?;
    let look = Look {
        colour: Colour::Auto,
        is_filter: false,
    };
    let mut run = Run::new(alloc, sources, request.schema);
    let mut screen = Screen::new(look, terminals, steps.len() as u64, clock, out, err);
    let mut locks = Locks {
        used: &used,
        queries: 0,
        certified: 0,
    };
    walk(&mut run, &steps, Format::Text, &mut locks, &mut screen)?;
    locks.show(alloc, &mut screen)?;
    Ok(if run.is_wrong { WRONG } else { 0 })
}

/// The files that are read, over which no lock is written.
fn read_files<S: Sources>(
    alloc: Global,
    request: &FilesRequest<'_>,
    steps: &[Step],
    sources: &mut S,
) -> Result<Used, OutOfMemory> {
    let mut used = Used::new(alloc);
    used.add_schemas(request.schema, steps, sources)?;
    used.add_queries(steps, sources)?;
    Ok(used)
}

/// The locks of all files.
#[derive(Drop)]
struct Locks<'u> {
    /// The files over which none is written.
    used: &'u Used,
    /// How many queries there are so far.
    queries: u64,
    /// How many of them have a certificate.
    certified: u64,
}

impl EachFile for Locks<'_> {
    fn take<S: Sources, W: Watch>(
        &mut self,
        run: &mut Run<'_, S>,
        path: &str,
        report: &mut Report,
        watch: &mut W,
    ) -> Result<(), OutOfMemory> {
        if path == STANDARD_INPUT {
            let reason = "standard input has no place beside it";
            return run.tell_not_done(NOT_LOCKED, path, reason, report);
        }
        let beside = lock_path(run.alloc, path)?;
        match self.used.what(beside.as_str(), run.sources)? {
            Some(what) => tell_read(run, path, what, report),
            None => self.lock_file(run, path, beside.as_str(), report, watch),
        }
    }
}

impl Locks<'_> {
    /// Writes the lock of one file.
    fn lock_file<S: Sources, W: Watch>(
        &mut self,
        run: &mut Run<'_, S>,
        path: &str,
        beside: &str,
        report: &mut Report,
        watch: &mut W,
    ) -> Result<(), OutOfMemory> {
        let Some(query) = run.query(path, report)? else {
            return Ok(());
        };
        let QueryFile { text, schema } = query;
        let Some(schema) = run.schemas.file(schema) else {
            return Ok(());
        };
        let lock = lock_over(run.alloc, schema, text, watch)?;
        self.queries = self.queries.saturating_add(lock.entries.len() as u64);
        self.certified = self.certified.saturating_add(lock.certified());
        write_lock(run, path, beside, &lock, report)
    }

    /// Writes how many queries have a certificate.
    fn show<C: Clock, O: Write, E: Write>(
        &self,
        alloc: Global,
        screen: &mut Screen<'_, C, O, E>,
    ) -> Result<(), Stop<'static>> {
        let Locks {
            queries,
            certified,
            ..
        } = self;
        let line = format!(in alloc; "locked: {certified} of {queries} queries\n")?;
        screen.write(line.as_bytes())?;
        Ok(screen.finish(b"")?)
    }
}

/// Reports that a lock would overwrite a file that is read.
fn tell_read<S: Sources>(
    run: &mut Run<'_, S>,
    path: &str,
    what: &str,
    report: &mut Report,
) -> Result<(), OutOfMemory> {
    let words = format!(in run.alloc; "its lock would be written over {what}")?;
    run.tell_not_done(NOT_LOCKED, path, words.as_str(), report)
}

/// The lock of a file's queries over a schema.
fn lock_over<W: Watch>(
    alloc: Global,
    schema: &SchemaFile,
    text: Vec<u8>,
    watch: &mut W,
) -> Result<Lock, OutOfMemory> {
    let queries = Queries::over(alloc, schema, text)?;
    lock_statements(alloc, &schema.text, &queries.text, watch)
}

/// Writes a lock, and reports how many certificates it has. A lock without certificates is not written, and an existing one is removed.
fn write_lock<S: Sources>(
    run: &mut Run<'_, S>,
    query: &str,
    path: &str,
    lock: &Lock,
    report: &mut Report,
) -> Result<(), OutOfMemory> {
    let alloc = run.alloc;
    let certified = lock.certified();
    let written = if certified == 0 {
        match run.sources.remove(alloc, path) {
            Err(SourceError::Missing) => Ok(()),
            done => done,
        }
    } else {
        let bytes = lock.to_bytes(alloc)?;
        run.sources.write(alloc, path, &bytes)
    };
    match written {
        Ok(()) => {
            let queries = lock.entries.len() as u64;
            let words = format!(in alloc; "locked: {certified} of {queries} queries")?;
            report.add_line(alloc, "locked", Level::Warning, query, words.as_str())
        }
        Err(error) => {
            let words = words_of_error(error)?;
            run.is_wrong = true;
            report.add_line(alloc, "lock", Level::Error, path, words)
        }
    }
}
