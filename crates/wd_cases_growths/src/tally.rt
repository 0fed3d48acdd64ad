//! What became of calls.
use std::alloc::{AllocError, Global};
use wd_value::OutOfMemory;

/// How many calls were done, how many refused with all as it was, and how many refused with something changed.
#[derive(Clone, Copy)]
pub struct Tally {
    done: u64,
    refused: u64,
    changed: u64,
}

impl Tally {
    pub const NONE: Tally = Tally {
        done: 0,
        refused: 0,
        changed: 0,
    };

    /// Counts a call by its outcome and by whether what it was passed is as it was.
    pub fn count<T: Drop>(&mut self, outcome: Result<T, OutOfMemory>, is_as_before: bool) {
        if outcome.is_ok() {
            self.done = self.done.saturating_add(1);
        } else if is_as_before {
            self.refused = self.refused.saturating_add(1);
        } else {
            self.changed = self.changed.saturating_add(1);
        }
    }

    pub fn shown(self, alloc: Global) -> Result<String, AllocError> {
        let (done, refused, changed) = (self.done, self.refused, self.changed);
        format!(in alloc; "{done} done, {refused} refused, {changed} changed by a refusal")
    }
}
