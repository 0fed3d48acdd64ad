//! How many queries have which verdict.

ghost use Rattle.std.specs.Prelude.{◌≡◌, ◌++◌, IfOk, OnErr, OnOk, string_bytes};
ghost use Rattle.wd_lines.specs.Counts as spec;

use std::alloc::Global;
use std::fmt::Write;
use wd_value::OutOfMemory;

/// What a query counts as.
#[derive(Clone, Copy, Debug, PartialEq, Eq)]
pub enum Kind {
    Deterministic,
    Depends,
    MayTie,
    NotRead,
}

/// How a finding counts.
#[derive(Clone, Copy, Debug, PartialEq, Eq)]
pub enum Standing {
    /// It is new, and counts against the queries.
    New,
    /// A comment above the query says that it may depend.
    Excused,
    /// The baseline has it.
    Known,
}

/// How many queries are of each kind, how many of them a key mends, how many are excused or known, and how many of each kind are neither.
#[derive(Clone, Copy, Debug, PartialEq, Eq)]
pub struct Counts {
    pub deterministic: u64,
    pub depend: u64,
    pub may_tie: u64,
    pub not_read: u64,
    pub mended: u64,
    pub excused: u64,
    pub known: u64,
    pub new_depend: u64,
    pub new_may_tie: u64,
    pub new_not_read: u64,
}

impl Counts {
    pub const NONE: Counts = Counts {
        deterministic: 0,
        depend: 0,
        may_tie: 0,
        not_read: 0,
        mended: 0,
        excused: 0,
        known: 0,
        new_depend: 0,
        new_may_tie: 0,
        new_not_read: 0,
    };

    /// Counts one more query. A query that is not read is not excused, since nothing is known of it, and one that is deterministic
    /// needs no excuse. A count stops at the largest number of 64 bits.
    pub fn add(&mut self, kind: Kind, standing: Standing, is_mended: bool)
        ensures { self.new ≡ spec.with_query kind standing is_mended self.old }
    {
        self.add_kind(kind, is_mended);
        match (kind, standing) {
            (Kind::Deterministic, _) => {}
            (_, Standing::Known) => self.known = self.known.saturating_add(1),
            (Kind::NotRead, _) => self.new_not_read = self.new_not_read.saturating_add(1),
            (_, Standing::Excused) => self.excused = self.excused.saturating_add(1),
            (Kind::Depends, Standing::New) => self.new_depend = self.new_depend.saturating_add(1),
            (Kind::MayTie, Standing::New) => self.new_may_tie = self.new_may_tie.saturating_add(1),
        }
    }

    /// Counts one more query of a kind.
    fn add_kind(&mut self, kind: Kind, is_mended: bool)
        ensures { self.new ≡ spec.with_mended is_mended (spec.with_kind kind self.old) }
    {
        match kind {
            Kind::Deterministic => self.deterministic = self.deterministic.saturating_add(1),
            Kind::Depends => self.depend = self.depend.saturating_add(1),
            Kind::MayTie => self.may_tie = self.may_tie.saturating_add(1),
            Kind::NotRead => self.not_read = self.not_read.saturating_add(1),
        }
        if is_mended {
            self.mended = self.mended.saturating_add(1);
        }
    }

    /// The exit status: 2 where a query is not read, else 1 where one depends or may tie, else 0. Queries that are excused or known do
    /// not count here, nor do those that may tie where that is allowed.
    pub fn status(&self, allows_unknown: bool) -> u8
        ensures { result ≡ spec.status allows_unknown self.now }
    {
        if self.new_not_read > 0 {
            2
        } else if self.new_depend > 0 || (self.new_may_tie > 0 && !allows_unknown) {
            1
        } else {
            0
        }
    }

    /// How many queries there are.
    fn all(&self) -> u64
        ensures { result ≡ spec.all_counted self.now }
    {
        self.deterministic
            .saturating_add(self.depend)
            .saturating_add(self.may_tie)
            .saturating_add(self.not_read)
    }

    /// Adds how many queries there are, and how many are deterministic and how many depend.
    fn add_decided(&self, text: &mut String) -> Result<(), OutOfMemory>
        ensures { IfOk result (λ _. string_bytes text.new ≡ string_bytes text.old ++ spec.decided_words self.now) }
    {
        let all = self.all();
        let noun = noun(all);
        let deterministic = self.deterministic;
        let depend = self.depend;
        Ok(write!(
            text,
            "{all} {noun}: {deterministic} deterministic, {depend} depend, "
        )?)
    }

    /// Adds how many may tie, and how many are not read.
    fn add_others(&self, text: &mut String) -> Result<(), OutOfMemory>
        ensures { IfOk result (λ _. string_bytes text.new ≡ string_bytes text.old ++ spec.other_words self.now) }
    {
        let may_tie = self.may_tie;
        let not_read = self.not_read;
        Ok(write!(text, "{may_tie} may tie, {not_read} not read; ")?)
    }

    /// Adds how many a key mends.
    fn add_mended(&self, text: &mut String) -> Result<(), OutOfMemory>
        ensures { IfOk result (λ _. string_bytes text.new ≡ string_bytes text.old ++ spec.mended_words self.now) }
    {
        let mended = self.mended;
        Ok(write!(text, "{mended} can be mended by a key")?)
    }

    /// Adds the line that counts the queries.
    pub fn add_line(&self, text: &mut String) -> Result<(), OutOfMemory>
        ensures written { OnOk result (string_bytes text.new ≡ string_bytes text.old ++ spec.count_line self.now) }
        ensures kept { OnErr result (string_bytes text.new ≡ string_bytes text.old) }
    {
        let line = self.line(*text.allocator())?;
        Ok(text.push_str(line.as_str())?)
    }

    /// The line that counts the queries.
    fn line(&self, alloc: Global) -> Result<String, OutOfMemory>
        ensures { IfOk result (λ line. string_bytes line ≡ spec.count_line self.now) }
    {
        let mut line = String::new(alloc);
        self.add_decided(&mut line)?;
        self.add_others(&mut line)?;
        self.add_mended(&mut line)?;
        add_some(&mut line, self.excused, "excused")?;
        add_some(&mut line, self.known, "known")?;
        line.push('\n')?;
        Ok(line)
    }
}

/// The noun for `count` queries.
fn noun(count: u64) -> &'static str
    ensures { result.now ≡ spec.noun count }
{
    if count == 1 { "query" } else { "queries" }
}

/// Adds `count` and the word for a kind, where there are any.
fn add_some(text: &mut String, count: u64, word: &str) -> Result<(), OutOfMemory>
    ensures { IfOk result (λ _. string_bytes text.new ≡ string_bytes text.old ++ spec.some_words count word.now) }
{
    if count == 0 {
        return Ok(());
    }
    Ok(write!(text, "; {count} {word}")?)
}
