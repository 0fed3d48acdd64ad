//! The search for the part that is the cause of a refusal.

ghost use Rattle.std.specs.Prelude.{◌≡◌, true, false, Some, IfOk, IfSome};
ghost use Rattle.std.specs.List.{list_any};
ghost use Rattle.wd_lex.specs.Lexed.{IsLexed};
ghost use Rattle.wd_place.specs.Places.{IsCauseAt, IsQueryCause, IsSchemaCause, WithChanges};
ghost use Rattle.wd_parts.specs.Whole.{IsWhole};
ghost use Rattle.wd_place.specs.Places as spec;
ghost use Rattle.wd_schema.specs.Schemas.{schema_of};

use crate::asked::{Judge, OfQueries, OfSchemas};
use std::alloc::Global;
use wd_keys::{Change, apply_changes};
use wd_lex::{Span, Token, lex};
use wd_parse::parse;
use wd_parts::{Part, bytes_of, changes, query_parts, schema_parts};
use wd_read_statements::read_statements;
use wd_schema::{Schema, read_schema};
use wd_value::OutOfMemory;

/// The tokens of a text, the parts that may be the cause of its refusal, and what decides whether a changed text is refused so.
#[derive(Drop)]
struct Search<'a, J> {
    alloc: Global,
    judge: &'a J,
    text: &'a [u8],
    tokens: &'a [Token],
    parts: &'a [Part],
    /// The name of a table, as the replacement of one.
    table: &'a str,
}

/// The place of the cause for which a query's text over a schema's is refused by a number from 401 to 419. `None` where it is not refused
/// by that number, and where no part of the text is found to be the cause.
pub fn query_place(
    alloc: Global,
    schema: &[u8],
    query: &[u8],
    number: u32,
) -> Result<Option<Span>, OutOfMemory>
    ensures { IfOk result (λ found. IfSome found (IsQueryCause schema.now query.now number)) }
{
    match read_schema(alloc, schema) {
        Ok(schema) => place_over(alloc, &schema, query, number),
        Err(_) => Ok(None),
    }
}

/// The place of the cause in a query over a schema.
fn place_over(
    alloc: Global,
    schema: &Schema,
    query: &[u8],
    number: u32,
) -> Result<Option<Span>, OutOfMemory>
    ensures { IfOk result (λ found. IfSome found (IsCauseAt (spec.IsQueryRefused (schema_of schema.now) number) (spec.IsQueryPassed (schema_of schema.now) number) query.now)) }
{
    let Ok(tokens) = lex(alloc, query) else {
        return Ok(None);
    };
    let Ok(tree) = parse(alloc, &tokens) else {
        return Ok(None);
    };
    let mut parts = query_parts(alloc, &tree, number)?;
    let table = match schema.tables.get_index(0) {
        Some((name, _)) => name.as_str(),
        None => "",
    };
    if number == 401 && table.is_empty() {
        parts.truncate(1);
    }
    let search = Search {
        alloc,
        judge: &OfQueries { schema, number },
        text: query,
        tokens: &tokens,
        parts: &parts,
        table,
    };
    search.found()
}

/// The place of the cause for which a schema's text is refused by a number from 301 to 308. `None` where it is not refused by that
/// number, and where no part of the text is found to be the cause.
pub fn schema_place(alloc: Global, schema: &[u8], number: u32) -> Result<Option<Span>, OutOfMemory>
    ensures { IfOk result (λ found. IfSome found (IsSchemaCause schema.now number)) }
{
    let Ok(tokens) = lex(alloc, schema) else {
        return Ok(None);
    };
    let statements = read_statements(alloc, &tokens)?;
    let parts = schema_parts(alloc, &statements.tables, number)?;
    let search = Search {
        alloc,
        judge: &OfSchemas { number },
        text: schema,
        tokens: &tokens,
        parts: &parts,
        table: "",
    };
    search.found()
}

impl<J: Judge> Search<'_, J> {
    /// The place of a part with which the text is refused and without which it is not; the parts after it are replaced in both.
    fn found(&self) -> Result<Option<Span>, OutOfMemory>
        requires { IsLexed self.now.text.now self.now.tokens.now }
        ensures { IfOk result (λ found. IfSome found (IsCauseAt (J.Refused self.now.judge.now) (J.Passed self.now.judge.now) self.now.text.now)) }
    {
        let mut passing = 0;
        let mut refused = self.parts.len();
        for _ in 0..usize::BITS {
            if refused.saturating_sub(passing) <= 1 {
                break;
            }
            let middle = passing + (refused - passing) / 2;
            let changes = self.changes_from(middle)?;
            match self.refuses(&changes)? {
                Some(true) => refused = middle,
                _ => passing = middle,
            }
        }
        self.judged(passing)
    }

    /// The changes that replace the parts from this number on.
    fn changes_from(&self, number: usize) -> Result<Vec<Change>, OutOfMemory> {
        let first = number.min(self.parts.len());
        changes(
            self.alloc,
            self.text,
            self.tokens,
            &self.parts[first..],
            self.table,
        )
    }

    /// Whether the text with these changes is refused; `None` where they cannot be made.
    fn refuses(&self, changes: &[Change]) -> Result<Option<bool>, OutOfMemory>
        ensures refused { IfOk result (λ found. found ≡ Some true → WithChanges (J.Refused self.now.judge.now) self.now.text.now changes.now) }
        ensures passed { IfOk result (λ found. found ≡ Some false → WithChanges (J.Passed self.now.judge.now) self.now.text.now changes.now) }
    {
        match apply_changes(self.alloc, self.text, changes)? {
            Some(text) => Ok(Some(self.judge.refuses(self.alloc, &text)?)),
            None => Ok(None),
        }
    }

    /// The place of the part of this number, if the text is refused with it and not without it.
    fn judged(&self, number: usize) -> Result<Option<Span>, OutOfMemory>
        requires { IsLexed self.now.text.now self.now.tokens.now }
        ensures { IfOk result (λ found. IfSome found (IsCauseAt (J.Refused self.now.judge.now) (J.Passed self.now.judge.now) self.now.text.now)) }
    {
        let kept = self.changes_from(number.saturating_add(1))?;
        let gone = self.changes_from(number)?;
        let refused = self.refuses(&kept)?;
        let passed = self.refuses(&gone)?;
        match (self.taken_out(number, &kept, &gone), refused, passed) {
            (Some(span), Some(true), Some(false)) => Ok(Some(span)),
            _ => Ok(None),
        }
    }

    /// The shown place of the part of this number, if the latter changes remove it and the former don't.
    fn taken_out(&self, number: usize, kept: &[Change], gone: &[Change]) -> Option<Span>
        ensures whole { IfSome result (IsWhole self.now.tokens.now) }
        ensures stays { IfSome result (λ span. list_any (spec.takes span) kept.now ≡ false) }
        ensures goes { IfSome result (λ span. list_any (spec.takes span) gone.now ≡ true) }
    {
        let part = self.parts.get(number)?;
        let end = if part.shown_end > 0 {
            part.shown_end
        } else {
            part.end
        };
        let span = bytes_of(self.tokens, part.shown, end)?;
        if is_taken(kept, span) || !is_taken(gone, span) {
            return None;
        }
        Some(span)
    }
}

/// Whether one of the changes removes these bytes.
fn is_taken(changes: &[Change], span: Span) -> bool
    ensures { result ≡ list_any (spec.takes span) changes.now }
{
    for change in changes {
        if takes(span, change) {
            return true;
        }
    }
    false
}

fn takes(span: Span, change: &Change) -> bool
    ensures { result ≡ spec.takes span change.now }
{
    change.at <= span.start && span.end <= change.end
}
