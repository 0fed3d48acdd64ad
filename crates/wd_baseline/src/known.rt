//! A finding, and its line in a baseline.

ghost use Rattle.std.specs.Prelude.{◌≡◌, ◌≢◌, IfOk, MatchOption, Some};
ghost use Rattle.std.specs.String.{string_bytes};
ghost use Rattle.serde_json.specs.Read.{read};
ghost use Rattle.serde_json.specs.View.{view};
ghost use Rattle.wd_baseline.specs.Findings.{finding_json, finding_text, said};
ghost use Rattle.wd_baseline.specs.Findings as spec;
ghost use Rattle.wd_baseline.specs.declared.known.Finding.{Finding as SpecFinding};

use serde_json::{Value, json};
use std::alloc::Global;
use wd_value::OutOfMemory;

/// What is found at a place.
#[derive(Clone, Copy)]
pub enum Finding {
    /// Two answers were found.
    Depends,
    /// No two answers were found, and no rule is known by which there is one answer.
    MayTie,
    /// The statement is refused.
    NotRead,
}

impl Finding {
    /// The word of a finding, as in a block's first line.
    pub fn word(self) -> &'static str
        ensures { result.now ≡ spec.word self }
    {
        match self {
            Finding::Depends => "depends",
            Finding::MayTie => "may tie",
            Finding::NotRead => "not read",
        }
    }

    /// The finding with this word, if any.
    pub(crate) fn of_word(word: &str) -> Option<Finding>
        ensures { MatchOption result ((f : SpecFinding) → word.now ≢ spec.word f) (λ f. word.now ≡ spec.word f) }
    {
        match word {
            "depends" => Some(Finding::Depends),
            "may tie" => Some(Finding::MayTie),
            "not read" => Some(Finding::NotRead),
            _ => None,
        }
    }
}

/// A finding, by words that stay the same when the statement moves to other lines of its file.
#[derive(Clone, Copy)]
pub struct Known<'p, 'w> {
    pub finding: Finding,
    /// The path of the query's file, as it is on the command line.
    pub path: &'p str,
    /// The words of the open place, with one blank for each white space, or the number of a refusal.
    pub place: &'w str,
}

impl Known<'_, '_> {
    /// The finding's JSON: an object of its word, its path and its place.
    fn value(&self, alloc: Global) -> Result<Value, OutOfMemory>
        ensures { IfOk result (λ v. view v ≡ finding_json (said self.now)) }
    {
        let finding = self.finding.word();
        let path = self.path;
        let place = self.place;
        Ok(json!(in alloc; {"finding": finding, "path": path, "place": place})?)
    }

    /// The line of the finding in a baseline, without its line feed: JSON without white space. Findings are the same where their
    /// lines are, since the line is read as the finding.
    pub fn line(&self, alloc: Global) -> Result<String, OutOfMemory>
        ensures text { IfOk result (λ s. string_bytes s ≡ finding_text (said self.now)) }
        ensures spells { IfOk result (λ s. read (string_bytes s) ≡ Some (finding_json (said self.now))) }
    {
        let value = self.value(alloc)?;
        Ok(value.to_string(alloc)?)
    }
}
