//! The progress of a run.

use std::io::Write;
use std::rt::Clock;
use std::time::Instant;

/// The progress of a run. The number of queries in a file that is still to be read is unknown: such a file counts as one of the files
/// left.
#[derive(Clone, Copy)]
pub(crate) struct Progress {
    /// When the run began; `None` where nothing is shown.
    began: Option<Instant>,
    /// Whether a line is on the terminal.
    is_shown: bool,
    /// How many queries are done.
    done: u64,
    /// How many queries the files have that were read.
    read: u64,
    /// How many files are still to be read.
    left: u64,
}

impl Progress {
    /// A run over the given number of files that begins now; its progress is shown only on a terminal.
    pub(crate) fn new<C: Clock>(clock: &C, is_terminal: bool, files: u64) -> Progress {
        Progress {
            began: if is_terminal {
                Instant::now(clock).ok()
            } else {
                None
            },
            is_shown: false,
            done: 0,
            read: 0,
            left: files,
        }
    }

    /// One more file is begun.
    pub(crate) fn begin_file(&mut self) {
        self.left = self.left.saturating_sub(1);
    }

    /// Adds the queries of a file.
    pub(crate) fn add_queries(&mut self, queries: u64) {
        self.read = self.read.saturating_add(queries);
    }

    /// One more query is done.
    pub(crate) fn add_done(&mut self) {
        self.done = self.done.saturating_add(1);
    }

    /// Shows how many of the queries are done, from one second after the beginning on.
    pub(crate) fn show<C: Clock, E: Write>(&mut self, clock: &C, err: &mut E) {
        let Some(began) = self.began else {
            return;
        };
        let is_late = match began.elapsed(clock) {
            Ok(elapsed) => elapsed.as_secs() >= 1,
            Err(_) => false,
        };
        if is_late {
            let done = self.done;
            let all = self.read.saturating_add(self.left);
            let about = if self.left > 0 { "about " } else { "" };
            let _ = write!(err, "\r{done} of {about}{all} queries\x1b[K");
            self.is_shown = true;
        }
    }

    /// Removes what is shown.
    pub(crate) fn clear<E: Write>(&mut self, err: &mut E) {
        if self.is_shown {
            let _ = err.write_all(b"\r\x1b[K");
            self.is_shown = false;
        }
    }
}
