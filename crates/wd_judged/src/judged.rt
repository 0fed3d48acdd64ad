//! The judgement of a statement of a file.

ghost use Rattle.std.specs.Prelude.{◌≡◌, ◌≤◌, length, option_map, IfOk, IfSome};
ghost use Rattle.wd_decide.specs.Verdicts.{HasCause};
ghost use Rattle.wd_finding.specs.Findings.{IsFinding};
ghost use Rattle.wd_help.specs.Helps.{IsHelp};
ghost use Rattle.wd_judged.specs.Heads.{BeginBlocks};
ghost use Rattle.wd_judged.specs.Judgements.{IsJudged, IsJudgedAs, fix_of};

use crate::block::{Block, open_blocks, refusal_block};
use std::alloc::Global;
use wd_block::{Statement, kind_of};
use wd_decide::DecideError;
use wd_finding::{Finding, judge};
use wd_fix::Fix;
use wd_help::{Help, alike_for, help_for};
use wd_keys::candidates;
use wd_lex::{Span, lex};
use wd_lines::Kind;
use wd_plan::Plan;
use wd_sites::{PlanSite, sites};
use wd_value::OutOfMemory;

/// A text and its path.
#[derive(Clone, Copy)]
pub struct File<'a> {
    pub path: &'a str,
    pub text: &'a [u8],
}

/// What is found of a statement, or why it or its schema is refused.
#[derive(Drop)]
pub enum Judgement {
    Found(Finding),
    Refused(DecideError),
}

/// The judgement of a statement of a file.
#[derive(Drop)]
pub struct Judged {
    /// Where the statement is in its file.
    pub span: Span,
    /// What the statement counts as.
    pub kind: Kind,
    pub judgement: Judgement,
    /// The sort keys with which it has one answer, where some are known, and the text with them.
    pub help: Option<Help>,
    /// RANK or WITH TIES, with which it has one answer too, where these help.
    pub alike: Option<Help>,
    /// What is reported about it: a block for each place that is open, or one for the refusal.
    pub blocks: Vec<Block>,
}

impl Judged {
    /// The statement as it is mended, where a help for it is known.
    pub fn fix(self) -> Option<Fix>
        ensures { result ≡ option_map (fix_of self.span) self.help }
    {
        let Judged { span, help, .. } = self;
        match help {
            Some(help) => Some(Fix {
                span,
                text: help.text,
            }),
            None => None,
        }
    }
}

/// Judges the statement of a file that has this span, over the schema of another file.
pub fn judge_statement(
    alloc: Global,
    schema: File<'_>,
    file: File<'_>,
    span: Span,
) -> Result<Judged, OutOfMemory>
    requires ordered { span.start ≤ span.end }
    requires within { span.end ≤ length file.text.now }
    ensures judged { IfOk result (IsJudged schema.entry.text.now file.entry.text.now span) }
    ensures heads { IfOk result (BeginBlocks file.entry.path.now file.entry.text.now) }
{
    let query = &file.text[span.start as usize..span.end as usize];
    match judge(alloc, schema.text, query) {
        Ok(finding) => of_finding(alloc, schema.text, query, file, span, finding),
        Err(DecideError::OutOfMemory) => Err(OutOfMemory),
        Err(error) => of_refusal(alloc, schema, query, file, span, error),
    }
}

/// The statement of a file that has this span.
fn statement_at<'a>(file: File<'a>, span: Span) -> Statement<'a>
    ensures path { result.path.now ≡ file.entry.path.now }
    ensures text { result.text.now ≡ file.entry.text.now }
    ensures start { result.start ≡ span.start }
{
    Statement {
        path: file.path,
        text: file.text,
        start: span.start,
        end: span.end,
    }
}

/// The judgement of a query that has this span in a file, by what is found of it.
fn of_finding(
    alloc: Global,
    schema: &[u8],
    query: &[u8],
    file: File<'_>,
    span: Span,
    finding: Finding,
) -> Result<Judged, OutOfMemory>
    requires { IsFinding schema.now query.now finding }
    ensures judged { IfOk result (IsJudgedAs schema.now query.now span) }
    ensures heads { IfOk result (BeginBlocks file.entry.path.now file.entry.text.now) }
{
    let help = help_where_open(alloc, schema, query, &finding)?;
    let alike = alike_where_open(alloc, schema, query, kind_of(&finding))?;
    let statement = statement_at(file, span);
    let blocks = open_blocks(alloc, statement, &finding, help.as_ref(), alike.as_ref())?;
    Ok(Judged {
        span,
        kind: kind_of(&finding),
        judgement: Judgement::Found(finding),
        help,
        alike,
        blocks,
    })
}

/// The help for a query, by what is found of it, where it may have several answers.
fn help_where_open(
    alloc: Global,
    schema: &[u8],
    query: &[u8],
    finding: &Finding,
) -> Result<Option<Help>, OutOfMemory>
    ensures { IfOk result (λ help. IfSome help (IsHelp schema.now query.now)) }
{
    match kind_of(finding) {
        Kind::Depends | Kind::MayTie => {
            let planned = &finding.planned;
            let plan = &planned.resolved.plan;
            let sites = sites_in(alloc, query, plan)?;
            let lists = candidates(alloc, &planned.schema, plan, query)?;
            help_for(alloc, schema, query, &sites, &lists)
        }
        _ => Ok(None),
    }
}

/// Where the window calls and the limits of a plan are in its query.
fn sites_in(alloc: Global, query: &[u8], plan: &Plan) -> Result<Vec<PlanSite>, OutOfMemory> {
    match lex(alloc, query) {
        Ok(tokens) => sites(alloc, &tokens, plan),
        Err(_) => Ok(Vec::new(alloc)),
    }
}

/// RANK or WITH TIES for a query of this kind, where it may have several answers.
fn alike_where_open(
    alloc: Global,
    schema: &[u8],
    query: &[u8],
    kind: Kind,
) -> Result<Option<Help>, OutOfMemory>
    ensures { IfOk result (λ alike. IfSome alike (IsHelp schema.now query.now)) }
{
    match kind {
        Kind::Depends | Kind::MayTie => alike_for(alloc, schema, query),
        _ => Ok(None),
    }
}

/// The judgement of a query that has this span in a file, where it or its schema is refused.
fn of_refusal(
    alloc: Global,
    schema: File<'_>,
    query: &[u8],
    file: File<'_>,
    span: Span,
    error: DecideError,
) -> Result<Judged, OutOfMemory>
    requires { HasCause schema.text.now query.now error }
    ensures judged { IfOk result (IsJudgedAs schema.entry.text.now query.now span) }
    ensures heads { IfOk result (BeginBlocks file.entry.path.now file.entry.text.now) }
{
    let mut blocks = Vec::new(alloc);
    let block = refusal_block(alloc, schema, query, statement_at(file, span), &error)?;
    blocks.push(block)?;
    Ok(Judged {
        span,
        kind: Kind::NotRead,
        judgement: Judgement::Refused(error),
        help: None,
        alike: None,
        blocks,
    })
}
