//! The statements of one file.

ghost use Rattle.std.specs.Prelude.{◌≡◌, ◌<◌, ◌≤◌, length, map, option_map, IfOk, IfSome};
ghost use Rattle.wd_certificate.specs.Certificates.{certificate_of};
ghost use Rattle.wd_file.specs.Holds.{IsHold, locked_at};
ghost use Rattle.wd_fix.specs.Fixes.{IsFixed, span_of};
ghost use Rattle.wd_judged.specs.Judgements.{IsJudged, statement_of};
ghost use Rattle.wd_judged.specs.Mended.{AreMended, IsMended, IsMendedText};
ghost use Rattle.wd_source.specs.Statements.{StandInOrder};

use crate::hold::{Hold, Settled, settle};
use crate::shown::show;
use crate::tally::Tally;
use std::alloc::Global;
use wd_certificate::Certificate;
use wd_excuse::{Remark, remark_above};
use wd_fix::{Fix, fixed_text};
use wd_formats::Level;
use wd_judged::File;
use wd_lex::{LexError, Span, lex};
use wd_lines::{Kind, Standing};
use wd_lock::Lock;
use wd_output::{Report, Watch};
use wd_source::{position_at, statements};
use wd_value::OutOfMemory;

/// The lock of a file, and its path.
#[derive(Clone, Copy)]
pub struct Locked<'f> {
    pub path: &'f str,
    pub lock: &'f Lock,
}

/// A file whose statements are to be judged.
#[derive(Clone, Copy)]
pub struct Task<'f> {
    pub alloc: Global,
    pub schema: File<'f>,
    pub query: File<'f>,
    /// Its lock, if there is one beside it.
    pub locked: Option<Locked<'f>>,
}

/// Where the findings go.
#[derive(Drop)]
pub struct Findings<'t, W> {
    /// What is reported.
    pub report: &'t mut Report,
    /// The counts.
    pub tally: &'t mut Tally,
    /// The progress of the run.
    pub watch: &'t mut W,
}

/// What is found of a file.
#[derive(Drop)]
pub struct Reviewed {
    /// How many statements it has.
    pub statements: u64,
    /// How many of them are mended.
    pub mended: u64,
    /// Its text with the mended statements, if there are any.
    pub text: Option<Vec<u8>>,
    /// Whether its lock has as many lines as the file has statements.
    pub is_lock_read: bool,
}

/// Reports what is found of a file's statements, and counts them.
pub fn review_statements<W: Watch>(
    task: Task<'_>,
    findings: &mut Findings<'_, W>,
) -> Result<Reviewed, OutOfMemory>
    ensures { IfOk result (λ reviewed. IfSome reviewed.text (λ after. IsMendedText task.entry.schema.text.now task.entry.query.text.now after.items)) }
{
    let spans = statements(task.alloc, task.query.text)?;
    let statements = spans.len() as u64;
    findings.begin(task, statements)?;
    let locked = findings.fitting_lock(task, statements)?;
    let fixes = add_statements(Task { locked, ..task }, findings, &spans)?;
    findings.tell_after(task)?;
    Ok(Reviewed {
        statements,
        mended: fixes.len() as u64,
        text: mended_text(task.alloc, task.query.text, &fixes)?,
        is_lock_read: locked.is_some() == task.locked.is_some(),
    })
}

/// The text with its mended statements, if there are any.
fn mended_text(alloc: Global, text: &[u8], fixes: &[Fix]) -> Result<Option<Vec<u8>>, OutOfMemory>
    requires { StandInOrder 0 (map span_of fixes.now) (length text.now) }
    ensures { IfOk result (λ o. IfSome o (λ after. (0 < length fixes.now) × IsFixed text.now fixes.now after.items)) }
{
    if fixes.is_empty() {
        return Ok(None);
    }
    Ok(Some(fixed_text(alloc, text, fixes)?))
}

/// Reports what is found of statements, which come one after the other in a file, counts them, and returns those that are mended.
fn add_statements<W: Watch>(
    task: Task<'_>,
    findings: &mut Findings<'_, W>,
    spans: &[Span],
) -> Result<Vec<Fix>, OutOfMemory>
    requires { StandInOrder 0 spans.now (length task.query.text.now) }
    ensures { IfOk result (λ fixes. AreMended task.entry.schema.text.now task.entry.query.text.now fixes.items) }
{
    let mut fixes = Vec::new(task.alloc);
    for number in 0..spans.len() {
        if let Some(fix) = add_statement(task, findings, number, spans[number])? {
            fixes.push(fix)?;
        }
    }
    Ok(fixes)
}

/// Reports what is found of the statement with a number, counts it, and returns its mended text if there is one; a statement that is
/// excused stays as it is.
fn add_statement<W: Watch>(
    task: Task<'_>,
    findings: &mut Findings<'_, W>,
    number: usize,
    span: Span,
) -> Result<Option<Fix>, OutOfMemory>
    requires ordered { span.start ≤ span.end }
    requires within { span.end ≤ length task.query.text.now }
    ensures stands { IfOk result (λ found. IfSome found (λ fix. fix.span ≡ span)) }
    ensures mended { IfOk result (λ found. IfSome found (IsMended task.entry.schema.text.now task.entry.query.text.now)) }
{
    let settled = task.settle(number, span)?;
    let standing = findings.tell(task, &settled)?;
    findings.tally.add(&settled, standing);
    findings.watch.add_done();
    if standing == Standing::Excused || !settled.is_mended() {
        return Ok(None);
    }
    Ok(settled.judged.fix())
}

impl<'f> Task<'f> {
    /// Judges the statement with a number, which has this span, and says what becomes of its certificate in the lock.
    fn settle(self, number: usize, span: Span) -> Result<Settled<'f>, OutOfMemory>
        requires ordered { span.start ≤ span.end }
        requires within { span.end ≤ length self.query.text.now }
        ensures judged { IfOk result (λ s. IsJudged self.entry.schema.text.now self.entry.query.text.now span s.judged) }
        ensures hold { IfOk result (λ s. IsHold self.entry.schema.text.now (statement_of self.entry.query.text.now span) s.judged.kind (locked_at self.entry.locked number) s.hold) }
    {
        settle(
            self.alloc,
            self.schema,
            self.query,
            span,
            self.certificate(number),
        )
    }

    /// The certificate that the lock has of the statement with a number.
    fn certificate(self, number: usize) -> Option<&'f Certificate>
        ensures { option_map (λ c. certificate_of c.now) result ≡ locked_at self.entry.locked number }
    {
        match self.locked {
            Some(locked) => locked.lock.certificate(number),
            None => None,
        }
    }
}

impl<W: Watch> Findings<'_, W> {
    /// Adds a file's statements to the progress of the run. A file without any is reported, and counts as one query that is not read.
    fn begin(&mut self, task: Task<'_>, statements: u64) -> Result<(), OutOfMemory> {
        self.watch.add_queries(statements.max(1));
        if statements > 0 {
            return Ok(());
        }
        self.watch.add_done();
        self.tally.add_kind(Kind::NotRead, Standing::New, false);
        self.report.add_remark(
            task.alloc,
            task.query.path,
            "not read: there is no query in it",
        )
    }

    /// The lock of a file, if it has a line for each of the given number of statements. A lock of another length is reported.
    fn fitting_lock<'f>(
        &mut self,
        task: Task<'f>,
        statements: u64,
    ) -> Result<Option<Locked<'f>>, OutOfMemory> {
        let Some(locked) = task.locked else {
            return Ok(None);
        };
        let lines = locked.lock.entries.len() as u64;
        if lines == statements {
            return Ok(Some(locked));
        }
        let line = format!(in task.alloc;
            "the lock does not fit the file (lines: {lines}, queries: {statements}): wdreport lock writes it anew"
        )?;
        self.report.add_line(task.alloc, "lock", Level::Error, locked.path, line.as_str())?;
        Ok(None)
    }

    /// Reports what is found of one statement, and returns how the finding counts.
    fn tell(&mut self, task: Task<'_>, settled: &Settled<'_>) -> Result<Standing, OutOfMemory> {
        let excuse = self.excuse(task, settled.judged.span)?;
        let standing = match (settled.kind(), excuse) {
            (Kind::Deterministic, _) => Standing::New,
            (Kind::Depends | Kind::MayTie, Some(_)) => Standing::Excused,
            _ => self.tell_blocks(task, settled)?,
        };
        self.tell_hold(task, settled)?;
        if let Some(page) = &mut self.tally.page {
            show(task, page, settled, standing, excuse)?;
        }
        Ok(standing)
    }

    /// Reports what is found of one statement at each place that is not known, and returns how the finding counts.
    fn tell_blocks(
        &mut self,
        task: Task<'_>,
        settled: &Settled<'_>,
    ) -> Result<Standing, OutOfMemory> {
        let judged = &settled.judged;
        let mut standing = if judged.blocks.is_empty() {
            Standing::New
        } else {
            Standing::Known
        };
        for block in &judged.blocks {
            let knowledge = &mut self.tally.knowledge;
            if !knowledge.knows(task.alloc, task.query.path, judged, block)? {
                standing = Standing::New;
                self.report.add_block(
                    task.alloc,
                    task.schema.path,
                    task.query.path,
                    judged,
                    block,
                )?;
            }
        }
        Ok(standing)
    }

    /// Reports what becomes of the certificate that the lock has of a statement, if it is no longer accepted.
    fn tell_hold(&mut self, task: Task<'_>, settled: &Settled<'_>) -> Result<(), OutOfMemory> {
        let Some(locked) = task.locked else {
            return Ok(());
        };
        match settled.hold {
            Hold::Unlocked | Hold::Kept(_) => Ok(()),
            Hold::Lost => {
                let at = first_to_last(task, settled.judged.span)?;
                let File { path, text } = task.query;
                self.report
                    .add_lost(task.alloc, path, text, at, locked.path)
            }
            Hold::Stale => {
                let at = first_to_last(task, settled.judged.span)?;
                let text = task.query.text;
                let line = position_at(text, (at.start as usize).min(text.len())).line;
                let words = format!(in task.alloc;
                    "stale: the query on line {line} of the file has another certificate now: wdreport lock writes it"
                )?;
                self.report.add_line(
                    task.alloc,
                    "stale",
                    Level::Warning,
                    locked.path,
                    words.as_str(),
                )
            }
        }
    }

    /// The reason for which a comment above a statement excuses it, if any. A comment that begins as an excuse and is none is reported.
    fn excuse<'f>(&mut self, task: Task<'f>, span: Span) -> Result<Option<&'f [u8]>, OutOfMemory> {
        let text = task.query.text;
        let end = (span.end as usize).min(text.len());
        let start = (span.start as usize).min(end);
        match remark_above(&text[start..end], start == 0) {
            Some(Remark::Excused { reason, .. }) => Ok(Some(reason)),
            Some(Remark::Unread { comment }) => {
                self.tell_comment(task, start, comment)?;
                Ok(None)
            }
            None => Ok(None),
        }
    }

    /// Reports a comment after the last statement of a file that begins as an excuse: there it excuses nothing.
    fn tell_after(&mut self, task: Task<'_>) -> Result<(), OutOfMemory> {
        let text = task.query.text;
        let end = (tokens_in(task.alloc, text)?.end as usize).min(text.len());
        match remark_above(&text[end..], false) {
            Some(remark) => self.tell_comment(task, end, remark.comment()),
            None => Ok(()),
        }
    }

    /// Reports that a comment, given by its bytes after a place of the file, excuses nothing.
    fn tell_comment(
        &mut self,
        task: Task<'_>,
        place: usize,
        comment: Span,
    ) -> Result<(), OutOfMemory> {
        let comment = Span {
            start: comment.start.saturating_add(place as u64),
            end: comment.end.saturating_add(place as u64),
        };
        self.report
            .add_comment(task.alloc, task.query.path, task.query.text, comment)
    }
}

/// A statement of a file from its first token to its last.
fn first_to_last(task: Task<'_>, span: Span) -> Result<Span, OutOfMemory> {
    let text = task.query.text;
    let end = (span.end as usize).min(text.len());
    let start = (span.start as usize).min(end);
    let tokens = tokens_in(task.alloc, &text[start..end])?;
    Ok(Span {
        start: tokens.start.saturating_add(start as u64),
        end: tokens.end.saturating_add(start as u64),
    })
}

/// The range of a text from its first token to its last; all of it, where its tokens are refused.
fn tokens_in(alloc: Global, text: &[u8]) -> Result<Span, OutOfMemory> {
    match lex(alloc, text) {
        Ok(tokens) => match (tokens.as_slice().first(), tokens.as_slice().last()) {
            (Some(first), Some(last)) => Ok(Span {
                start: first.span.start,
                end: last.span.end,
            }),
            _ => Ok(Span { start: 0, end: 0 }),
        },
        Err(LexError::OutOfMemory) => Err(OutOfMemory),
        Err(_) => Ok(Span {
            start: 0,
            end: text.len() as u64,
        }),
    }
}
