//! What a terminal shows: the findings, in colours, and the progress of the run.
//!
//! Where standard error is a terminal and a run takes more than a second, its last line says how many queries are done. The line is
//! removed before anything else is written, and at the end.

use crate::colours::colour;
use crate::progress::Progress;
use crate::report::Report;
use std::alloc::Global;
use std::io;
use std::io::Write;
use std::rt::Clock;
use wd_value::OutOfMemory;
use wd_words::{Colour, Format};

/// Which of the streams are terminals.
#[derive(Clone, Copy, Debug, PartialEq, Eq)]
pub struct Terminals {
    /// Whether standard output is a terminal.
    pub out: bool,
    /// Whether standard error is a terminal.
    pub err: bool,
}

/// How a run shows its findings.
#[derive(Clone, Copy, Debug, PartialEq, Eq)]
pub struct Look {
    pub colour: Colour,
    /// Whether standard output has another text, so that the findings go to standard error.
    pub is_filter: bool,
}

/// Why the findings are not written.
#[derive(Clone, Copy, Debug, PartialEq, Eq)]
pub enum ScreenError {
    /// A stream can't be written.
    Unwritten,
    OutOfMemory,
}

impl From<OutOfMemory> for ScreenError {
    fn from(_error: OutOfMemory) -> Self {
        ScreenError::OutOfMemory
    }
}

impl From<io::Error> for ScreenError {
    fn from(_error: io::Error) -> Self {
        ScreenError::Unwritten
    }
}

/// Receives the progress of a run.
pub trait Watch {
    /// One more file is begun.
    fn begin_file(&mut self);

    /// Adds the queries of a file.
    fn add_queries(&mut self, queries: u64);

    /// One more query is done.
    fn add_done(&mut self);
}

/// The streams of a run, and its progress.
#[derive(Drop)]
pub struct Screen<'s, C, O, E> {
    look: Look,
    terminals: Terminals,
    clock: &'s C,
    out: &'s mut O,
    err: &'s mut E,
    progress: Progress,
}

impl<'s, C: Clock, O: Write, E: Write> Screen<'s, C, O, E> {
    /// The streams of a run over the given number of files that begins now.
    pub fn new(
        look: Look,
        terminals: Terminals,
        files: u64,
        clock: &'s C,
        out: &'s mut O,
        err: &'s mut E,
    ) -> Screen<'s, C, O, E> {
        Screen {
            look,
            terminals,
            clock,
            out,
            err,
            progress: Progress::new(clock, terminals.err, files),
        }
    }

    /// Writes findings, in colours where a terminal shows a text.
    pub fn tell(&mut self, alloc: Global, report: &Report) -> Result<(), ScreenError> {
        if report.bytes.is_empty() {
            return Ok(());
        }
        let is_terminal = if self.look.is_filter {
            self.terminals.err
        } else {
            self.terminals.out
        };
        if report.format == Format::Text && self.look.colour.is_on(is_terminal) {
            let bytes = colour(alloc, &report.bytes)?;
            self.write(&bytes)
        } else {
            self.write(&report.bytes)
        }
    }

    /// Writes bytes of findings.
    pub fn write(&mut self, bytes: &[u8]) -> Result<(), ScreenError> {
        self.progress.clear(self.err);
        if self.look.is_filter {
            Ok(self.err.write_all(bytes)?)
        } else {
            Ok(self.out.write_all(bytes)?)
        }
    }

    /// Writes the text of standard output, and waits until all of it is passed on.
    pub fn finish(&mut self, text: &[u8]) -> Result<(), ScreenError> {
        self.progress.clear(self.err);
        self.out.write_all(text)?;
        Ok(self.out.flush()?)
    }

    /// Shows the progress of the run.
    fn show(&mut self) {
        self.progress.show(self.clock, self.err);
    }
}

impl<C: Clock, O: Write, E: Write> Watch for Screen<'_, C, O, E> {
    fn begin_file(&mut self) {
        self.progress.begin_file();
    }

    fn add_queries(&mut self, queries: u64) {
        self.progress.add_queries(queries);
        self.show();
    }

    fn add_done(&mut self) {
        self.progress.add_done();
        self.show();
    }
}
