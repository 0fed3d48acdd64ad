//! What the page shows of a statement.

use crate::file::Task;
use crate::hold::{Hold, Settled};
use std::alloc::Global;
use wd_block::{lack_words, place_words};
use wd_certificate::Certificate;
use wd_decide::{DecideError, Verdict};
use wd_finding::{Finding, OpenPlace, RefusedText};
use wd_judged::{Block, File, Judged, Judgement};
use wd_lex::Span;
use wd_lines::{Kind, Standing, refusal_words_at};
use wd_page::{Judged as Shown, Place, Query, Refusal, Report};
use wd_source::position_at;
use wd_value::OutOfMemory;

/// A statement's text without the white space around it.
#[derive(Clone, Copy)]
struct Trimmed<'a> {
    text: &'a [u8],
    /// How many bytes of white space come before it in the statement.
    lead: u64,
    /// The line of its file on which it begins.
    line: u64,
}

/// Adds a judged statement to a page.
pub(crate) fn show(
    task: Task<'_>,
    page: &mut Report,
    settled: &Settled<'_>,
    standing: Standing,
    excused: Option<&[u8]>,
) -> Result<(), OutOfMemory> {
    let judged = &settled.judged;
    let trimmed = without_blanks(task.query.text, judged.span);
    let query = Query {
        path: task.query.path,
        line: trimmed.line,
        text: trimmed.text,
        standing,
        excused,
    };
    match &judged.judgement {
        Judgement::Found(finding) => match settled.hold {
            Hold::Kept(certificate) => show_kept(page, query, finding, certificate),
            _ => show_finding(task.alloc, page, query, judged, finding, trimmed),
        },
        Judgement::Refused(error) => match judged.blocks.first() {
            Some(block) => page.add_refused(query, refusal(task.schema, task.query, error, block)),
            None => Ok(()),
        },
    }
}

/// Adds a statement whose certificate in the lock is accepted.
fn show_kept<'s>(
    page: &mut Report,
    query: Query<'_, '_, '_>,
    finding: &'s Finding,
    certificate: &'s Certificate,
) -> Result<(), OutOfMemory> {
    let shown = Shown {
        kind: Kind::Deterministic,
        schema: &finding.planned.schema,
        plan: &finding.planned.resolved.plan,
        is_simpler: false,
        names: &finding.planned.resolved.names,
        certificate: Some(certificate),
        tables: None,
        ties: &[],
        answers: None,
    };
    page.add_judged(query, shown, &[], None)
}

/// The text of the statement that has this span in its file, without the white space around it.
fn without_blanks(text: &[u8], span: Span) -> Trimmed<'_> {
    let end = (span.end as usize).min(text.len());
    let start = (span.start as usize).min(end);
    let statement = &text[start..end];
    let lead = statement
        .len()
        .saturating_sub(statement.trim_ascii_start().len());
    let first = start.saturating_add(lead).min(text.len());
    Trimmed {
        text: statement.trim_ascii(),
        lead: lead as u64,
        line: position_at(text, first).line,
    }
}

/// Adds what is found of a statement that is read.
fn show_finding(
    alloc: Global,
    page: &mut Report,
    query: Query<'_, '_, '_>,
    judged: &Judged,
    finding: &Finding,
    trimmed: Trimmed<'_>,
) -> Result<(), OutOfMemory> {
    let shown = Shown {
        kind: judged.kind,
        schema: &finding.planned.schema,
        plan: match &finding.certain {
            Some(certain) => &certain.plan,
            None => &finding.planned.resolved.plan,
        },
        is_simpler: finding.certain.is_some(),
        names: &finding.planned.resolved.names,
        certificate: match (&finding.verdict, &finding.certain) {
            (Verdict::Deterministic(certificate), _) => Some(certificate),
            (_, Some(certain)) => Some(&certain.certificate),
            _ => None,
        },
        tables: match finding.witness() {
            Some(witness) => Some(&witness.tables),
            None => None,
        },
        ties: &finding.ties,
        answers: match &finding.answers {
            Some(answers) => Some((&answers.first, &answers.second)),
            None => None,
        },
    };
    let mut places = Vec::new(alloc);
    for (place, block) in finding.places.iter().zip(&judged.blocks) {
        places.push(shown_place(judged.kind, *place, block.position.line, trimmed.lead))?;
    }
    let help = match &judged.help {
        Some(help) => Some(help.text.trim_ascii()),
        None => None,
    };
    page.add_judged(query, shown, &places, help)
}

/// An open place as the page shows it, of a statement after `lead` bytes of white space.
fn shown_place(kind: Kind, place: OpenPlace, line: u64, lead: u64) -> Place {
    let OpenPlace { reason, site } = place;
    let span = match site {
        Some(site) => Some(Span {
            start: site.span.start.saturating_sub(lead),
            end: site.span.end.saturating_sub(lead),
        }),
        None => None,
    };
    Place {
        span,
        line,
        node: reason.node,
        call: reason.call,
        words: place_words(kind, reason),
        lack: lack_words(reason.lack),
    }
}

/// Why a statement is not read.
fn refusal<'a>(
    schema: File<'a>,
    file: File<'a>,
    error: &DecideError,
    block: &Block,
) -> Refusal<'a, 'a> {
    let about = match block.about {
        RefusedText::Schema => schema,
        RefusedText::Query => file,
    };
    let number = error.number().unwrap_or(0);
    let (sentence, remedy) = refusal_words_at(number, about.text, block.span);
    Refusal {
        path: about.path,
        text: about.text,
        number,
        span: block.span,
        sentence,
        remedy,
    }
}
