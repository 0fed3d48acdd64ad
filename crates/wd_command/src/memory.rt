//! Files in memory.

ghost use Rattle.std.specs.Prelude.{◌≡◌, ◌↔◌, ◌-◌, [], None, Some, option_map, IsTrue, IfOk, IfErr};
ghost use Rattle.wd_command.specs.Memory.{failures_of, files_of, first_at, handed_of, reads_left};
ghost use Rattle.wd_run.specs.Runs.{data_of};

use crate::files::{Files, MOST_BYTES, ReadFault};
use std::alloc::Global;

/// Named byte strings as files, for tests.
#[derive(Drop)]
pub struct MemoryFiles<'a> {
    files: &'a [(&'a str, &'a [u8])],
    // The numbers of the files that were supplied.
    handed: Vec<usize>,
    failures: u64,
    // How many reads are left until one fails.
    until_failure: Option<u64>,
}

impl<'a> MemoryFiles<'a> {
    pub fn new(alloc: Global, files: &'a [(&'a str, &'a [u8])]) -> MemoryFiles<'a>
        ensures files { files_of result ≡ data_of files.now }
        ensures failures { failures_of result ≡ 0 }
        ensures handed { handed_of result ≡ [] }
        ensures left { reads_left result ≡ None }
    {
        MemoryFiles {
            files,
            handed: Vec::new(alloc),
            failures: 0,
            until_failure: None,
        }
    }

    /// These files, whose reads fail after `reads` reads.
    pub fn failing_after(mut self, reads: u64) -> MemoryFiles<'a>
        ensures files { files_of result ≡ files_of self.entry }
        ensures failures { failures_of result ≡ failures_of self.entry }
        ensures handed { handed_of result ≡ handed_of self.entry }
        ensures left { reads_left result ≡ Some reads }
    {
        self.until_failure = Some(reads);
        self
    }

    // Whether this read is to fail.
    fn fails(&mut self) -> bool
        ensures due { IsTrue result ↔ (reads_left self.old ≡ Some 0) }
        ensures rest { self.new ≡ record self.old { until_failure = option_map (λ reads. reads - 1) (reads_left self.old) } }
    {
        match self.until_failure {
            None => false,
            Some(0) => true,
            Some(reads) => {
                self.until_failure = Some(reads - 1);
                false
            }
        }
    }
}

impl Files for MemoryFiles<'_> {
    ghost failures = { failures_of };

    ghost handed = { λ m. Some (handed_of m) };

    fn read(&mut self, alloc: Global, path: &str) -> Result<Vec<u8>, ReadFault> {
        let found = if self.fails() {
            None
        } else {
            position(self.files, path)
        };
        let Some(i) = found else {
            self.failures += 1;
            return Err(ReadFault::Failed);
        };
        let bytes = copy(alloc, self.files[i].1)?;
        if self.handed.push(i).is_err() {
            return Err(ReadFault::OutOfMemory);
        }
        Ok(bytes)
    }
}

// The number of the first file at the path that is not too long to be supplied.
fn position(files: &[(&str, &[u8])], path: &str) -> Option<usize>
    ensures { result ≡ first_at path.now files.now }
{
    files
        .iter()
        .position(|(name, bytes)| *name == path && bytes.len() <= MOST_BYTES)
}

fn copy(alloc: Global, bytes: &[u8]) -> Result<Vec<u8>, ReadFault>
    ensures handed { IfOk result (λ copy. copy.items ≡ bytes.now) }
    ensures memory { IfErr result (λ fault. fault ≡ ReadFault.OutOfMemory) }
{
    match Vec::from_slice(alloc, bytes) {
        Ok(copy) => Ok(copy),
        Err(_) => Err(ReadFault::OutOfMemory),
    }
}
