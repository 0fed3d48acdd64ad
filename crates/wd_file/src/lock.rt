//! The lock of a file.

ghost use Rattle.std.specs.Prelude.{◌≡◌, ◌≤◌, length, IfOk};
ghost use Rattle.wd_source.specs.Statements.{StandInOrder};
ghost use Rattle.wd_file.specs.Locked.{AreEntriesOf, IsEntryOf, IsLockOf};
ghost use Rattle.wd_file.specs.Locked as spec;

use std::alloc::Global;
use wd_analyse::Analysis;
use wd_decide::{Examined, examine};
use wd_lex::Span;
use wd_lock::{Entry, Lock};
use wd_output::Watch;
use wd_source::statements;
use wd_value::OutOfMemory;

/// The lock of a file's text over a schema: for each statement the certificate that `decide` reports, and none where the verdict is
/// another one or the statement is refused. No witness is searched for.
pub fn lock_statements<W: Watch>(
    alloc: Global,
    schema: &[u8],
    text: &[u8],
    watch: &mut W,
) -> Result<Lock, OutOfMemory>
    ensures { IfOk result (IsLockOf schema.now text.now) }
{
    let spans = statements(alloc, text)?;
    watch.add_queries(spans.len() as u64);
    let entries = entries_for(alloc, schema, text, &spans, watch)?;
    Ok(Lock { entries })
}

/// What a lock has of statements, which come one after the other in a text.
fn entries_for<W: Watch>(
    alloc: Global,
    schema: &[u8],
    text: &[u8],
    spans: &[Span],
    watch: &mut W,
) -> Result<Vec<Entry>, OutOfMemory>
    requires { StandInOrder 0 spans.now (length text.now) }
    ensures { IfOk result (λ entries. AreEntriesOf schema.now text.now spans.now entries.items) }
{
    let mut entries = Vec::new(alloc);
    for span in spans {
        let entry = entry_for(alloc, schema, &text[span.start as usize..span.end as usize])?;
        entries.push(entry)?;
        watch.add_done();
    }
    Ok(entries)
}

/// What a lock has of a query.
fn entry_for(alloc: Global, schema: &[u8], query: &[u8]) -> Result<Entry, OutOfMemory>
    ensures { IfOk result (IsEntryOf schema.now query.now) }
{
    match examine(alloc, schema, query) {
        Ok(examined) => Ok(entry_of(examined)),
        Err(error) => match error.number() {
            Some(_) => Ok(Entry::Open),
            None => Err(OutOfMemory),
        },
    }
}

/// What a lock has of a query that is examined.
fn entry_of(examined: Examined) -> Entry
    ensures { result ≡ spec.entry_of examined.analysis }
{
    let Examined { analysis, .. } = examined;
    match analysis {
        Analysis::Certified(certificate) => Entry::Certified(certificate),
        Analysis::Open(_, _) => Entry::Open,
    }
}
