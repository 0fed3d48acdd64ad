//! Why a run ends early.

use std::alloc::AllocError;
use std::io::Write;
use wd_output::ScreenError;
use wd_value::OutOfMemory;

/// Why a run ends early.
#[derive(Clone, Copy, Debug)]
pub(crate) enum Stop<'w> {
    /// Memory runs out, or the output can't be written.
    Refused,
    /// The baseline is to be written, but none is named.
    NoBaseline,
    /// The baseline can't be read, or is not one.
    BaselineUnread,
    /// The baseline has more bytes than are read.
    BaselineLarge,
    /// The baseline can't be written.
    BaselineUnwritten,
    /// The page can't be written.
    PageUnwritten,
    /// A file to be written is this one, which is read or written too.
    Overwrites { path: &'w str, what: &'static str },
}

impl Stop<'_> {
    /// Reports why.
    pub(crate) fn tell<E: Write>(self, err: &mut E) {
        let words = match self {
            Stop::Refused => "out of memory, or the output can't be written",
            Stop::NoBaseline => "--baseline-write wants --baseline FILE",
            Stop::BaselineUnread => "the baseline can't be read",
            Stop::BaselineLarge => "the baseline has more than 64 MiB",
            Stop::BaselineUnwritten => "the baseline can't be written",
            Stop::PageUnwritten => "the page can't be written",
            Stop::Overwrites { path, what } => {
                let _ = writeln!(err, "wdreport: {path} is {what}, and would be written over");
                return;
            }
        };
        let _ = writeln!(err, "wdreport: {words}");
    }
}

impl From<OutOfMemory> for Stop<'_> {
    fn from(_error: OutOfMemory) -> Self {
        Stop::Refused
    }
}

impl From<ScreenError> for Stop<'_> {
    fn from(_error: ScreenError) -> Self {
        Stop::Refused
    }
}

impl From<AllocError> for Stop<'_> {
    fn from(_error: AllocError) -> Self {
        Stop::Refused
    }
}
