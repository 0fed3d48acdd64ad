//! Which traces the claims of an entry name. One that a single kept fact names is followed again when that fact is judged, so that nothing
//! is kept of it, and one that no claim names is judged alone.

ghost use Rattle.std.specs.Prelude.{◌≡◌, ◌||◌, ℕ, true, map, nat_eq, IfOk};
ghost use Rattle.wd_certificate.specs.Certificates.{kept_of};
ghost use Rattle.wd_certificate.specs.Json.{rule_trace};
ghost use Rattle.wd_verify.specs.Lean.{lean_of};
ghost use Rattle.wd_verify.specs.Named as spec;

use std::alloc::Global;
use wd_certificate::{Kept, Node, Rule};
use wd_value::OutOfMemory;

/// Whether a number is marked; one past the marks counts as marked.
pub(crate) fn is_marked(marks: &[bool], number: usize) -> bool
    ensures { result ≡ spec.is_marked marks.now number }
{
    match marks.get(number) {
        Some(mark) => *mark,
        None => true,
    }
}

/// Marks a number.
fn mark(marks: &mut [bool], number: u64)
    ensures { (n : ℕ) → spec.is_marked marks.new n ≡ (nat_eq n number || spec.is_marked marks.old n) }
{
    let number = number as usize;
    if number < marks.len() {
        marks[number] = true;
    }
}

/// Marks the number that a claim names, if it names one.
fn mark_named(marks: &mut [bool], number: Option<u64>)
    ensures { (n : ℕ) → spec.is_marked marks.new n ≡ (spec.is_it number n || spec.is_marked marks.old n) }
{
    if let Some(number) = number {
        mark(marks, number);
    }
}

/// Marks the traces that kept facts name.
#[tactic(auto, using(wd_traces::proofs::Members::one_more))]
fn mark_kept(marks: &mut [bool], keep: &[Kept])
    ensures { (n : ℕ) → spec.is_marked marks.new n ≡ (spec.is_marked marks.old n || spec.is_of_kept (map kept_of keep.now) n) }
{
    for kept in keep {
        mark(marks, kept.trace);
    }
}

/// The number of the trace that a rule names.
fn trace_of_rule(rule: Rule) -> Option<u64>
    ensures { result ≡ rule_trace rule }
{
    match rule {
        Rule::Peers => None,
        Rule::Unique(number) | Rule::Values(number) | Rule::Exchange(number) => Some(number),
    }
}

/// Marks the traces that the rules of calls name.
#[tactic(auto, using(wd_traces::proofs::Members::one_more))]
fn mark_calls(marks: &mut [bool], rules: &[Rule])
    ensures { (n : ℕ) → spec.is_marked marks.new n ≡ (spec.is_marked marks.old n || spec.is_of_calls rules.now n) }
{
    for rule in rules {
        mark_named(marks, trace_of_rule(*rule));
    }
}

/// Marks the traces that more than one kept fact names.
fn mark_shared(alloc: Global, marks: &mut [bool], keep: &[Kept]) -> Result<(), OutOfMemory> {
    let mut once = vec![in alloc; false; marks.len()]?;
    for kept in keep {
        if is_marked(&once, kept.trace as usize) {
            mark(marks, kept.trace);
        } else {
            mark(&mut once, kept.trace);
        }
    }
    Ok(())
}

/// A mark for each trace, set where a kept fact names it.
#[tactic(auto, using(crate::proofs::NamedTraces::lean_named))]
pub(crate) fn traces_of_kept(alloc: Global, entry: &Node) -> Result<Vec<bool>, OutOfMemory>
    ensures { IfOk result (λ v. (n : ℕ) → spec.is_of_kept (lean_of entry.now).keep n ≡ true → spec.is_marked v.items n ≡ true) }
{
    let mut marks = vec![in alloc; false; entry.traces.len()]?;
    mark_kept(&mut marks, &entry.keep);
    Ok(marks)
}

/// A mark for each trace that is kept once it was followed, since a call or the limit names it, or more than one kept fact.
#[tactic(auto, using(crate::proofs::NamedTraces::any_named))]
pub(crate) fn traces_to_keep(alloc: Global, entry: &Node) -> Result<Vec<bool>, OutOfMemory>
    ensures { IfOk result (λ v. (n : ℕ) → spec.is_of_rules (lean_of entry.now) n ≡ true → spec.is_marked v.items n ≡ true) }
{
    let mut marks = vec![in alloc; false; entry.traces.len()]?;
    mark_shared(alloc, &mut marks, &entry.keep)?;
    mark_calls(&mut marks, &entry.calls);
    mark_named(&mut marks, entry.limit);
    Ok(marks)
}
