//! A baseline: read, used up, written.

ghost use Rattle.std.specs.Prelude.{◌≡◌, ◌-◌, ◌++◌, ℕ, List, flat_map, nat_lt, IfOk, IfErr};
ghost use Rattle.std.specs.Str.{bytes_eq};
ghost use Rattle.wd_baseline.specs.Baselines as spec;
ghost use Rattle.wd_baseline.specs.Baselines.{IsBaselineOf, IsWritten, count_of, left_of};
ghost use Rattle.wd_baseline.specs.Counts.{one_if};
ghost use Rattle.wd_baseline.specs.Refusals.{HasCause};

use crate::counts::{line_counts, take_one};
use crate::error::BaselineError;
use crate::lines::lines_in;
use crate::read::read_version;
use std::alloc::Global;
use std::collections::HashMap;
use wd_json::Misread;
use wd_json_lines::split_line;
use wd_value::OutOfMemory;

/// The first line of a baseline.
const VERSION: &str = "{\"version\":1}\n";

/// Findings that are known, each with the number of its occurrences that are left, and the total of these numbers.
#[derive(Drop)]
pub struct Baseline {
    counts: HashMap<String, u64>,
    left: u64,
}

impl Baseline {
    /// Reads a baseline: a line `{"version":1}`, and then a line of JSON for each finding, as `Known::line` writes it; white space
    /// within a line and the order of its members do not matter, and the last line needs no line feed. Equal lines count as often as
    /// they appear. Another first line is refused, and so is the first line that is no finding.
    pub fn read(alloc: Global, bytes: &[u8]) -> Result<Baseline, BaselineError>
        ensures ok { IfOk result (λ b. IsBaselineOf bytes.now b) }
        ensures refused { IfErr result (λ e. HasCause e bytes.now) }
    {
        let (version, rest) = split_line(bytes);
        read_first(alloc, version)?;
        let lines = lines_in(alloc, rest)?;
        let counts = line_counts(alloc, &lines)?;
        Ok(Baseline {
            counts,
            left: lines.len() as u64,
        })
    }

    /// Takes a finding off, by the line that `Known::line` gives it. Returns whether it was known more often than it was taken off so far.
    pub fn take(&mut self, line: &str) -> bool
        ensures known { result ≡ nat_lt 0 (count_of self.old line.now) }
        ensures taken { (other : List ℕ) → count_of self.new other ≡ count_of self.old other - one_if (bytes_eq line.now other) }
        ensures left { left_of self.new ≡ left_of self.old - one_if result }
    {
        let is_known = take_one(&mut self.counts, line);
        if is_known {
            self.left = self.left.saturating_sub(1);
        }
        is_known
    }

    /// How many findings are left: known ones that did not occur, once all those that occur are taken off.
    pub fn left(&self) -> u64
        ensures { result ≡ left_of self.now }
    {
        self.left
    }
}

/// Reads the first line, which has to be that of the version.
fn read_first(alloc: Global, line: &[u8]) -> Result<(), BaselineError>
    ensures ok { IfOk result (λ _. spec.IsVersionLine line.now) }
    ensures refused { IfErr result (λ e. spec.HasVersionCause e line.now) }
{
    match read_version(alloc, line) {
        Ok(()) => Ok(()),
        Err(Misread::Shape) => Err(BaselineError::Version),
        Err(Misread::OutOfMemory) => Err(BaselineError::OutOfMemory),
    }
}

/// Writes a baseline of findings, by the lines that `Known::line` gives them: the line of the version, and then these lines in the
/// order of their bytes, so that few lines of the file change where few findings do.
pub fn baseline_text(alloc: Global, lines: Vec<String>) -> Result<Vec<u8>, OutOfMemory>
    ensures { IfOk result (λ b. IsWritten lines.items b.items) }
{
    let mut lines = lines;
    lines.sort()?;
    let mut text = Vec::from_slice(alloc, VERSION.as_bytes())?;
    add_lines(&mut text, &lines)?;
    Ok(text)
}

/// Adds lines, each with its line feed.
fn add_lines(text: &mut Vec<u8>, lines: &[String]) -> Result<(), OutOfMemory>
    ensures { IfOk result (λ _. text.new.items ≡ text.old.items ++ flat_map spec.with_feed lines.now) }
{
    for line in lines {
        text.extend_from_slice(line.as_bytes())?;
        text.push(b'\n')?;
    }
    Ok(())
}
