//! The lock of a file.

ghost use Rattle.std.specs.Prelude.{◌≡◌, None, get_or, length, option_map, IfOk, IfErr};
ghost use Rattle.std.specs.List.{count_by};
ghost use Rattle.wd_certificate.specs.Certificates.{certificate_of};
ghost use Rattle.wd_json_lines.specs.Refusals.{HasCause};
ghost use Rattle.wd_lock.specs.Locks.{IsLock, entries_of, entry_json, is_certified, lock_text};

use crate::entry::Entry;
use std::alloc::Global;
use wd_certificate::Certificate;
use wd_json_lines::{LineError, read_lines, write_lines};
use wd_value::OutOfMemory;

/// The lock of a file: what it has of each statement, in the order of the file.
#[derive(Drop)]
pub struct Lock {
    pub entries: Vec<Entry>,
}

impl Lock {
    /// Reads a lock: a line of JSON for each statement, which is its certificate or `null`. White space within a line and the order of
    /// members do not matter, and the last line needs no line feed. The first line that is neither is refused.
    pub fn read(alloc: Global, bytes: &[u8]) -> Result<Lock, LineError>
        ensures ok { IfOk result (λ lock. IsLock (entries_of lock) bytes.now) }
        ensures refused { IfErr result (λ e. HasCause entry_json e bytes.now) }
    {
        let entries = read_lines(alloc, bytes)?;
        Ok(Lock { entries })
    }

    /// The text of the lock: JSON without white space, each line with its line feed.
    pub fn to_bytes(&self, alloc: Global) -> Result<Vec<u8>, OutOfMemory>
        ensures text { IfOk result (λ b. b.items ≡ lock_text (entries_of self.now)) }
        ensures spells { IfOk result (λ b. IsLock (entries_of self.now) b.items) }
    {
        write_lines(alloc, &self.entries)
    }

    /// The certificate of the statement with a number, counted from 0; `None` where it has none.
    pub fn certificate(&self, number: usize) -> Option<&Certificate>
        ensures { option_map (λ c. certificate_of c.now) result ≡ get_or (entries_of self.now) number None }
    {
        match self.entries.get(number) {
            Some(Entry::Certified(certificate)) => Some(certificate),
            Some(Entry::Open) | None => None,
        }
    }

    /// How many statements have a certificate.
    pub fn certified(&self) -> u64
        ensures { result ≡ count_by is_certified (entries_of self.now) }
    {
        self.entries
            .iter()
            .filter(|entry| matches!(entry, Entry::Certified(_)))
            .count() as u64
    }
}
