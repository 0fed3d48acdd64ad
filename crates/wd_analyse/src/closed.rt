//! What columns determine at a node, and the facts that show it.

ghost use Rattle.std.specs.Prelude.{◌≡◌, ◌++◌, true, map, nat_lt, IfOk};
ghost use Rattle.std.specs.List.{list_all};
ghost use Rattle.wd_certificate.specs.Certificates.{trace_of};
ghost use Rattle.wd_analyse.specs.Evidence.{IsClosing, closing_of, met_with, once as each_once, trace_by};

use std::alloc::Global;
use wd_certificate::Trace;
use wd_close::{Derived, Prepared};
use wd_plan::has_column;
use wd_sets::Set;
use wd_value::OutOfMemory;

/// Columns, what they determine, and the facts that show it, in the order in which they are used.
#[derive(Drop)]
pub(crate) struct Closed {
    pub(crate) from: Vec<u16>,
    pub(crate) set: Set,
    pub(crate) uses: Vec<u64>,
}

/// Closes columns under the facts of a node.
pub(crate) fn close(
    alloc: Global,
    facts: &Prepared<'_>,
    from: &[u16],
) -> Result<Closed, OutOfMemory>
    requires { list_all (λ c. nat_lt c facts.now.columns) from.now ≡ true }
    ensures from { IfOk result (λ c. c.from.items ≡ from.now) }
    ensures closing { IfOk result (λ c. IsClosing facts.now (closing_of c)) }
{
    let Derived { set, uses } = facts.derive(alloc, from)?;
    let from = Vec::from_slice(alloc, from)?;
    Ok(Closed { from, set, uses })
}

/// Appends a column unless it is there already.
fn meet(column: u16, met: &mut Vec<u16>) -> Result<(), OutOfMemory>
    ensures { IfOk result (λ _. met.new.items ≡ met_with met.old.items column) }
{
    if !has_column(met, column) {
        met.push(column)?;
    }
    Ok(())
}

/// The columns in the order in which they are met, each once.
#[tactic(auto, using(crate::proofs::Once::met_next))]
pub(crate) fn once(alloc: Global, columns: &[u16]) -> Result<Vec<u16>, OutOfMemory>
    ensures { IfOk result (λ v. v.items ≡ each_once columns.now) }
{
    let mut met = Vec::new(alloc);
    for column in columns {
        meet(*column, &mut met)?;
    }
    Ok(met)
}

/// The columns as the numbers of a trace.
fn numbers(alloc: Global, columns: &[u16]) -> Result<Vec<u64>, OutOfMemory>
    ensures { IfOk result (λ v. v.items ≡ columns.now) }
{
    let mut list = Vec::with_capacity(alloc, columns.len())?;
    for column in columns {
        list.push(u64::from(*column))?;
    }
    Ok(list)
}

/// The trace that shows what columns determine.
fn trace(alloc: Global, closed: &Closed) -> Result<Trace, OutOfMemory>
    ensures { IfOk result (λ t. trace_of t ≡ trace_by (closing_of closed.now)) }
{
    let from = once(alloc, &closed.from)?;
    let from = numbers(alloc, &from)?;
    let uses = Vec::from_slice(alloc, &closed.uses)?;
    Ok(Trace { from, uses })
}

/// Appends the traces that show what columns determine.
pub(crate) fn add_traces(
    alloc: Global,
    all: &[Closed],
    traces: &mut Vec<Trace>,
) -> Result<(), OutOfMemory>
    ensures { IfOk result (λ _. map trace_of traces.new.items ≡ map trace_of traces.old.items ++ map trace_by (map closing_of all.now)) }
{
    for closed in all {
        let one = trace(alloc, closed)?;
        traces.push(one)?;
    }
    Ok(())
}
