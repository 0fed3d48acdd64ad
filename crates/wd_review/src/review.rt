//! All files, one after the other.

use crate::lock::{lock_all, lock_beside};
use crate::mended::write_mended;
use crate::outputs::{check_outputs, knowledge, write_baseline, write_page};
use crate::queries::Queries;
use crate::respelled::show_respelled;
use crate::run::{QueryFile, Run, WRONG, steps};
use crate::schema::Reading;
use crate::stop::Stop;
use crate::walk::{EachFile, walk};
use clap::Error;
use std::alloc::Global;
use std::io::Write;
use std::mem;
use std::rt::Clock;
use wd_file::{Findings, Knowledge, Locked, Reviewed, Tally, Task, review_statements};
use wd_judged::File;
use wd_output::{Look, Report, Screen, Terminals, Watch};
use wd_sources::{STANDARD_INPUT, Sources};
use wd_value::OutOfMemory;
use wd_words::{Asked, Format, Request, SCHEMA_OF_DATABASE, read_words};

/// Runs the program on the words after its own name, and returns its exit status: 0 where each query is deterministic, 1 where some
/// depend or may tie or lost their certificates, 2 where some are not read, 3 where a path, a schema, a lock or a word is wrong, memory
/// runs out or the output or a file can't be written. Help, the version and the SQL of `schema` go to standard output, with status 0.
///
/// With `--fix` the status is that of the files as they are written; where one of the paths is standard input, its mended text goes to
/// standard output and the findings go to standard error.
pub fn review_words<S: Sources, C: Clock, O: Write, E: Write>(
    alloc: Global,
    words: &[&str],
    terminals: Terminals,
    clock: &C,
    sources: &mut S,
    out: &mut O,
    err: &mut E,
) -> u8 {
    let ended = match read_words(alloc, words) {
        Ok(Asked::Catalog) => match out.write_all(SCHEMA_OF_DATABASE.as_bytes()) {
            Ok(()) => return 0,
            Err(_) => return WRONG,
        },
        Ok(Asked::Report(request)) => {
            review_all(alloc, &request, terminals, clock, sources, out, err)
        }
        Ok(Asked::Lock(request)) => lock_all(alloc, &request, terminals, clock, sources, out, err),
        Ok(Asked::Respelled(request)) => {
            show_respelled(alloc, &request, terminals, clock, sources, out, err)
        }
        Err(error) => return show(&error, out, err),
    };
    match ended {
        Ok(status) => status,
        Err(stop) => {
            stop.tell(err);
            WRONG
        }
    }
}

/// Shows the text of an error of the words, or of help and the version.
fn show<O: Write, E: Write>(error: &Error, out: &mut O, err: &mut E) -> u8 {
    if error.use_stderr() {
        let _ = write!(err, "{error}");
        return WRONG;
    }
    match write!(out, "{error}") {
        Ok(()) => 0,
        Err(_) => WRONG,
    }
}

/// Judges all files.
fn review_all<'w, S: Sources, C: Clock, O: Write, E: Write>(
    alloc: Global,
    request: &Request<'w>,
    terminals: Terminals,
    clock: &C,
    sources: &mut S,
    out: &mut O,
    err: &mut E,
) -> Result<u8, Stop<'w>> {
    let knowledge = knowledge(alloc, request, sources, err)?;
    let steps = steps(alloc, &request.paths, sources)?;
    check_outputs(alloc, request, &steps, sources)?;
    let mut review = Review::new(alloc, request.is_fix, request.html.is_some(), knowledge);
    let look = Look {
        colour: request.colour,
        is_filter: request.is_fix && request.paths.iter().any(|path| *path == STANDARD_INPUT),
    };
    let mut screen = Screen::new(look, terminals, steps.len() as u64, clock, out, err);
    let mut run = Run::new(alloc, sources, request.schema);
    walk(&mut run, &steps, request.format, &mut review, &mut screen)?;
    finish(run, request, review, &mut screen)
}

/// What was found so far.
#[derive(Drop)]
struct Review {
    /// Whether files are written with their keys.
    is_fix: bool,
    tally: Tally,
    /// The new text of standard input.
    input: Vec<u8>,
}

impl Review {
    /// Nothing yet.
    fn new(alloc: Global, is_fix: bool, has_page: bool, knowledge: Knowledge) -> Review {
        let page = if has_page {
            Some(wd_page::Report::new(alloc))
        } else {
            None
        };
        Review {
            is_fix,
            tally: Tally::new(is_fix, knowledge, page),
            input: Vec::new(alloc),
        }
    }

    /// Judges a file over the schema with this number among those that were read.
    fn review_over<S: Sources, W: Watch>(
        &mut self,
        run: &mut Run<'_, S>,
        file: File<'_>,
        schema: usize,
        report: &mut Report,
        watch: &mut W,
    ) -> Result<(), OutOfMemory> {
        let Some(reviewed) = review_text(run, file, schema, &mut self.tally, report, watch)? else {
            return Ok(());
        };
        if !reviewed.is_lock_read {
            run.is_wrong = true;
        }
        if self.is_fix {
            return write_mended(run, file, reviewed, &mut self.input, report);
        }
        Ok(())
    }
}

impl EachFile for Review {
    fn take<S: Sources, W: Watch>(
        &mut self,
        run: &mut Run<'_, S>,
        path: &str,
        report: &mut Report,
        watch: &mut W,
    ) -> Result<(), OutOfMemory> {
        let Some(query) = run.query(path, report)? else {
            return Ok(());
        };
        let QueryFile { text, schema } = query;
        let queries = match run.schemas.file(schema) {
            Some(over) if !self.is_fix => Queries::over(run.alloc, over, text)?,
            _ => Queries::as_written(run.alloc, text),
        };
        queries.tell(run.alloc, path, report)?;
        let file = File {
            path,
            text: &queries.text,
        };
        self.review_over(run, file, schema, report, watch)
    }
}

/// Reports what is found of a file, over the schema with this number among those that were read. A schema that is refused in the form of
/// PostgreSQL's tools is reported once, and not for each query.
fn review_text<S: Sources, W: Watch>(
    run: &mut Run<'_, S>,
    query: File<'_>,
    schema: usize,
    tally: &mut Tally,
    report: &mut Report,
    watch: &mut W,
) -> Result<Option<Reviewed>, OutOfMemory> {
    let beside = lock_beside(run, query.path, report)?;
    let Some(schema) = run.schemas.file(schema) else {
        return Ok(None);
    };
    let mut untold = Report::new(run.alloc, report.format);
    let task = Task {
        alloc: run.alloc,
        schema: schema.file(),
        query,
        locked: match &beside {
            Some(beside) => Some(Locked {
                path: beside.path.as_str(),
                lock: &beside.lock,
            }),
            None => None,
        },
    };
    let mut findings = Findings {
        report: if schema.reading == Reading::Refused {
            &mut untold
        } else {
            report
        },
        tally,
        watch,
    };
    Ok(Some(review_statements(task, &mut findings)?))
}

/// Writes the baseline and the page, the line with the counts unless a program reads the output, and the new text of standard input; the
/// result is the exit status.
fn finish<'w, S: Sources, C: Clock, O: Write, E: Write>(
    run: Run<'_, S>,
    request: &Request<'w>,
    review: Review,
    screen: &mut Screen<'_, C, O, E>,
) -> Result<u8, Stop<'w>> {
    let Run {
        alloc,
        sources,
        is_wrong,
        ..
    } = run;
    let Review {
        mut tally,
        input,
        ..
    } = review;
    let gone = tally.knowledge.left();
    let knowledge = mem::replace(&mut tally.knowledge, Knowledge::Nothing);
    write_baseline(alloc, request, knowledge, sources)?;
    write_page(alloc, request, &tally, sources)?;
    if request.format != Format::Json {
        let line = counts(alloc, &tally, gone)?;
        screen.write(line.as_bytes())?;
    }
    screen.finish(&input)?;
    if is_wrong {
        return Ok(WRONG);
    }
    Ok(tally.status(request.allows_unknown))
}

/// The line with the counts, and lines on findings of the baseline that no longer occur and on lost certificates.
fn counts(alloc: Global, tally: &Tally, gone: u64) -> Result<String, OutOfMemory> {
    let mut line = String::new(alloc);
    tally.found.add_line(&mut line)?;
    add_gone(&mut line, gone)?;
    add_lost(&mut line, tally.lost)?;
    Ok(line)
}

/// Adds how many findings of the baseline no longer occur, if there are any.
fn add_gone(line: &mut String, gone: u64) -> Result<(), OutOfMemory> {
    if gone == 0 {
        return Ok(());
    }
    Ok(writeln!(
        line,
        "{gone} of the baseline no longer occur: --baseline-write takes them out"
    )?)
}

/// Adds how many queries lost their certificates, if some did.
fn add_lost(line: &mut String, lost: u64) -> Result<(), OutOfMemory> {
    match lost {
        0 => Ok(()),
        1 => Ok(line.push_str("1 query lost its certificate\n")?),
        _ => Ok(writeln!(line, "{lost} queries lost their certificates")?),
    }
}
