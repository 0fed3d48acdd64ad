//! What is known of findings: by a baseline that is read, and whose findings are taken off, or by one that is written.

use std::alloc::Global;
use wd_baseline::{Baseline, Finding, Known};
use wd_judged::{Block, Judged, Judgement};
use wd_lines::Kind;
use wd_value::OutOfMemory;

/// What is known of findings.
#[derive(Drop)]
pub enum Knowledge {
    /// No baseline is given.
    Nothing,
    /// A baseline that was read; its findings are taken off as they occur.
    Read(Baseline),
    /// A baseline that is written: the lines of the findings so far.
    Written(Vec<String>),
}

impl Knowledge {
    /// Whether the finding of a block is known. The finding is taken off a baseline that was read, and added to one that is written.
    pub(crate) fn knows(
        &mut self,
        alloc: Global,
        path: &str,
        judged: &Judged,
        block: &Block,
    ) -> Result<bool, OutOfMemory> {
        match self {
            Knowledge::Nothing => Ok(false),
            Knowledge::Read(baseline) => match line_of(alloc, path, judged, block)? {
                Some(line) => Ok(baseline.take(line.as_str())),
                None => Ok(false),
            },
            Knowledge::Written(lines) => match line_of(alloc, path, judged, block)? {
                Some(line) => {
                    lines.push(line)?;
                    Ok(true)
                }
                None => Ok(false),
            },
        }
    }

    /// How many findings of the baseline did not occur, once all that occur are taken off.
    pub fn left(&self) -> u64 {
        match self {
            Knowledge::Read(baseline) => baseline.left(),
            Knowledge::Nothing | Knowledge::Written(_) => 0,
        }
    }
}

/// The line by which the finding of a block is known. `None` where the statement is deterministic.
fn line_of(
    alloc: Global,
    path: &str,
    judged: &Judged,
    block: &Block,
) -> Result<Option<String>, OutOfMemory> {
    let finding = match judged.kind {
        Kind::Deterministic => return Ok(None),
        Kind::Depends => Finding::Depends,
        Kind::MayTie => Finding::MayTie,
        Kind::NotRead => Finding::NotRead,
    };
    match &judged.judgement {
        Judgement::Found(_) => known_line(alloc, finding, path, block.words.as_str()),
        Judgement::Refused(error) => {
            let number = error.number().unwrap_or(0);
            let place = format!(in alloc; "{number}")?;
            known_line(alloc, finding, path, place.as_str())
        }
    }
}

/// The line by which a finding at a place is known.
fn known_line(
    alloc: Global,
    finding: Finding,
    path: &str,
    place: &str,
) -> Result<Option<String>, OutOfMemory> {
    let known = Known {
        finding,
        path,
        place,
    };
    Ok(Some(known.line(alloc)?))
}
