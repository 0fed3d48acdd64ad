//! What the checks of an entry read: the given facts, and of the traces, which were followed one after another, those that were kept.

ghost use Rattle.std.specs.Prelude.{◌≡◌, ◌≢◌, slice_get, None, Ok, Err, Some, IfOk, IfErr, IfSome};
ghost use Rattle.wd_certificate.specs.declared.error.CertError.TheVariants as error;
ghost use Rattle.wd_rules.specs.Rules as rules;
ghost use Rattle.wd_rules.specs.Traces as spec;
ghost use Rattle.wd_verify.specs.Lean.{lean_traces};
ghost use Rattle.wd_node_facts.specs.Seen.{seen_of};
ghost use Rattle.wd_traces.specs.Known.{AreKnown};
ghost use Rattle.wd_verify.specs.Named.{is_marked as is_marked_by};
ghost use Rattle.wd_verify.specs.Shown.{AreFollowed, IsAdded, kept_in, refusal_of, shown_by, traced_of};

use crate::named::is_marked;
use std::alloc::Global;
use wd_certificate::{CertError, Trace};
use wd_traces::{Followed, Known, follow};
use wd_value::OutOfMemory;

/// The number of a node, its given facts, and the traces of its entry by their numbers.
#[derive(Drop)]
pub(crate) struct Evidence {
    pub(crate) node: u64,
    pub(crate) known: Known,
    pub(crate) traces: Vec<Option<Box<Followed>>>,
    /// What stands in place of a trace that was not kept.
    pub(crate) unnamed: Followed,
}

impl Evidence {
    /// The trace with a number, or what stands in its place.
    pub(crate) fn trace(&self, number: u64) -> Result<&Followed, CertError>
        ensures found { IfOk result (λ t. slice_get (shown_by self.now) number ≡ Some (traced_of t.now)) }
        ensures missing { IfErr result (λ e. slice_get (shown_by self.now) number ≡ None) }
        ensures refusal { IfErr result (λ e. e ≡ error.OutOfRange self.now.node) }
    {
        match self.traces.get(number as usize) {
            Some(Some(trace)) => Ok(trace),
            Some(None) => Ok(&self.unnamed),
            None => Err(CertError::OutOfRange { node: self.node }),
        }
    }

    /// The trace with a number, if it is there and was kept.
    pub(crate) fn kept(&self, number: usize) -> Option<&Followed>
        ensures { IfSome result (λ t. kept_in (slice_get self.now.traces.items number) ≡ Some (traced_of t.now)) }
    {
        match self.traces.get(number) {
            Some(Some(trace)) => Some(trace),
            _ => None,
        }
    }
}

/// Refuses where the condition is false.
pub(crate) fn refuse_unless(holds: bool, refusal: CertError) -> Result<(), CertError>
    ensures { refusal_of result ≡ rules.refuse_unless holds refusal }
{
    if holds { Ok(()) } else { Err(refusal) }
}

/// Appends a trace, or nothing in its place.
fn add(
    alloc: Global,
    list: &mut Vec<Option<Box<Followed>>>,
    trace: Followed,
    is_kept: bool,
) -> Result<(), OutOfMemory>
    ensures { IfOk result (λ _. IsAdded is_kept trace list.old.items list.new.items) }
{
    let kept = if is_kept {
        Some(Box::new(alloc, trace)?)
    } else {
        None
    };
    list.push(kept)?;
    Ok(())
}

/// Follows each trace of an entry, and keeps those with a mark.
pub(crate) fn follow_each(
    alloc: Global,
    node: u64,
    known: &Known,
    traces: &[Trace],
    marks: &[bool],
) -> Result<Vec<Option<Box<Followed>>>, CertError>
    requires { AreKnown known.now }
    ensures followed { IfOk result (λ v. AreFollowed node (seen_of known.now.facts) (lean_traces traces.now) (is_marked_by marks.now) v.items) }
    ensures refused { IfErr result (λ e. e ≢ CertError.OutOfMemory → spec.each_traced node (seen_of known.now.facts) (lean_traces traces.now) ≡ Err e) }
{
    let mut list = Vec::new(alloc);
    for trace in traces {
        let one = follow(alloc, node, known, trace)?;
        let is_kept = is_marked(marks, list.len());
        add(alloc, &mut list, one, is_kept)?;
    }
    Ok(list)
}
