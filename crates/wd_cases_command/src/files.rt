//! Files that tell what was read.

ghost use Rattle.std.specs.Prelude.{◌≡◌};
ghost use Rattle.wd_command.specs.Memory.{failures_of};

use std::alloc::Global;
use wd_check::{Files, MemoryFiles, ReadFault};

/// Files in memory, and the paths that were asked for, each with a blank before it.
#[derive(Drop)]
pub struct AskedFiles<'a> {
    pub files: MemoryFiles<'a>,
    pub asked: String,
}

impl<'a> AskedFiles<'a> {
    /// The files of which nothing was asked yet.
    pub fn over(alloc: Global, files: MemoryFiles<'a>) -> AskedFiles<'a>
        ensures { failures_of result.files ≡ failures_of files.entry }
    {
        AskedFiles {
            files,
            asked: String::new(alloc),
        }
    }
}

impl Files for AskedFiles<'_> {
    ghost failures = { λ m. failures_of m.files };

    fn read(&mut self, alloc: Global, path: &str) -> Result<Vec<u8>, ReadFault> {
        if write!(self.asked, " {path}").is_err() {
            return Err(ReadFault::OutOfMemory);
        }
        self.files.read(alloc, path)
    }
}
