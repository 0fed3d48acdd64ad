//! The facts that an entry keeps, by its traces.

ghost use Rattle.std.specs.Prelude.{◌≡◌, ◌≢◌, ◌++◌, List, [], ◌∷◌, Bool, true, map, IfOk, IfErr, None, Some, Ok, Err};
ghost use Rattle.std.specs.List.{list_all};
ghost use Rattle.wd_certificate.specs.Certificates.{kept_of, trace_of};
ghost use Rattle.wd_certificate.specs.declared.certificate.Target.{Target as ATarget};
ghost use Rattle.wd_facts.specs.Laws.{ArePlain};
ghost use Rattle.wd_step_facts.specs.declared.facts.Member.{Member as AMember};
ghost use Rattle.wd_sets.specs.Reaches.{reaches_each};
ghost use Rattle.wd_sets.specs.Sets.{has};
ghost use Rattle.wd_rules.specs.Rules as rules;
ghost use Rattle.wd_rules.specs.Traces.{traced};
ghost use Rattle.wd_verify.specs.Lean.{lean_kept, lean_of, lean_traces};
ghost use Rattle.wd_traces.specs.Once.{lean_trace, once, once_after};
ghost use Rattle.wd_node_facts.specs.Seen.{each_columns, fact_by, facts_kept, seen_of};
ghost use Rattle.wd_traces.specs.Known.{AreKnown};
ghost use Rattle.wd_verify.specs.Named.{is_marked as is_marked_by, is_of_kept};
ghost use Rattle.wd_verify.specs.Shown.{AreGood, HaveColumns, IsFollowed, IsKeptFact, claim_refusal, evidence_with, refusal_of, shown_from, traced_of};

use crate::evidence::Evidence;
use crate::named::{is_marked, traces_of_kept};
use std::alloc::Global;
use wd_certificate::{CertError, Kept, Node, PackedTarget, Target, Trace};
use wd_facts::Member;
use wd_node_facts::{Keeps, KeptFact, NodeFacts, are_columns};
use wd_sets::Set;
use wd_traces::{Followed, Known, follow, reaches, start};
use wd_value::OutOfMemory;

/// Whether a target is one of the first `columns` columns, or the row.
fn is_target(columns: u16, target: Target) -> bool
    ensures { result ≡ rules.is_target columns target }
{
    match target {
        Target::Column(column) => column < u64::from(columns),
        Target::Row => true,
    }
}

fn are_targets(columns: u16, targets: &[PackedTarget]) -> bool
    ensures { result ≡ list_all (rules.is_target columns) targets.now }
{
    for target in targets {
        if !is_target(columns, target.target()) {
            return false;
        }
    }
    true
}

/// The member that a target names.
fn member_of(columns: u16, target: Target) -> Member
    requires { rules.is_target columns target ≡ true }
    ensures { result ≡ rules.member_of target }
{
    match target {
        Target::Column(column) => Member::Column(column as u16),
        Target::Row => Member::Row,
    }
}

/// Whether each of the targets is reached with the members of the set.
fn reaches_targets(facts: &NodeFacts, set: &Set, columns: u16, targets: &[PackedTarget]) -> bool
    requires { list_all (rules.is_target columns) targets.now ≡ true }
    ensures { result ≡ reaches_each (seen_of facts.now) (has set.now) (map rules.member_of targets.now) }
{
    for target in targets {
        if !reaches(facts, set, member_of(columns, target.target())) {
            return false;
        }
    }
    true
}

/// Checks a kept fact of a node with `columns` columns, by its trace.
fn check_kept(
    node: u64,
    facts: &NodeFacts,
    columns: u16,
    targets: &[PackedTarget],
    trace: &Followed,
) -> Result<(), CertError>
    ensures { refusal_of result ≡ rules.kept_refusal node (seen_of facts.now) columns targets.now (Some (traced_of trace.now)) }
{
    if !are_targets(columns, targets) {
        return Err(CertError::OutOfRange { node });
    }
    if are_columns(columns, &trace.from) && reaches_targets(facts, &trace.set, columns, targets) {
        Ok(())
    } else {
        Err(CertError::UnreachedClaim { node })
    }
}

/// Checks a kept fact by its trace, which is followed for it.
fn check_again(
    alloc: Global,
    node: u64,
    known: &Known,
    columns: u16,
    targets: &[PackedTarget],
    trace: &Trace,
) -> Result<(), CertError>
    requires { AreKnown known.now }
    ensures passed { IfOk result (λ _. (h : AMember → Bool) → traced node (seen_of known.now.facts) (lean_trace (trace_of trace.now)) ≡ Ok h → rules.kept_refusal node (seen_of known.now.facts) columns targets.now (Some (shown_from (lean_trace (trace_of trace.now)) h)) ≡ None) }
    ensures refused { IfErr result (λ e. e ≢ CertError.OutOfMemory → (h : AMember → Bool) → traced node (seen_of known.now.facts) (lean_trace (trace_of trace.now)) ≡ Ok h → rules.kept_refusal node (seen_of known.now.facts) columns targets.now (Some (shown_from (lean_trace (trace_of trace.now)) h)) ≡ Some e) }
{
    let followed = follow(alloc, node, known, trace)?;
    check_kept(node, &known.facts, columns, targets, &followed)
}

/// Checks a kept fact, by the trace that it names.
fn check_claim(
    alloc: Global,
    evidence: &Evidence,
    columns: u16,
    traces: &[Trace],
    kept: &Kept,
) -> Result<(), CertError>
    requires known { AreKnown evidence.now.known }
    requires followed { IsFollowed evidence.now traces.now }
    ensures passed { IfOk result (λ _. claim_refusal (evidence_with evidence.now traces.now) columns (lean_kept (kept_of kept.now)) ≡ None) }
    ensures refused { IfErr result (λ e. e ≢ CertError.OutOfMemory → claim_refusal (evidence_with evidence.now traces.now) columns (lean_kept (kept_of kept.now)) ≡ Some e) }
{
    let number = kept.trace as usize;
    let node = evidence.node;
    match traces.get(number) {
        None => Err(CertError::OutOfRange { node }),
        Some(trace) => match evidence.kept(number) {
            Some(followed) => check_kept(node, &evidence.known.facts, columns, &kept.to, followed),
            None => check_again(alloc, node, &evidence.known, columns, &kept.to, trace),
        },
    }
}

/// Checks the facts that an entry keeps, in order.
pub(crate) fn check_keep(
    alloc: Global,
    evidence: &Evidence,
    columns: u16,
    traces: &[Trace],
    keep: &[Kept],
) -> Result<(), CertError>
    requires known { AreKnown evidence.now.known }
    requires followed { IsFollowed evidence.now traces.now }
    ensures passed { IfOk result (λ _. rules.keep_refusal (evidence_with evidence.now traces.now) columns (map lean_kept (map kept_of keep.now)) ≡ None) }
    ensures refused { IfErr result (λ e. e ≢ CertError.OutOfMemory → rules.keep_refusal (evidence_with evidence.now traces.now) columns (map lean_kept (map kept_of keep.now)) ≡ Some e) }
{
    for kept in keep {
        check_claim(alloc, evidence, columns, traces, kept)?;
    }
    Ok(())
}

/// Adds the member that a target names, unless it was added before.
#[tactic(auto, using(wd_traces::proofs::Once::once_met, wd_traces::proofs::Once::once_new))]
fn meet(
    columns: u16,
    met: &mut Set,
    list: &mut Vec<Member>,
    target: Target,
) -> Result<(), OutOfMemory>
    requires { rules.is_target columns target ≡ true }
    ensures { IfOk result (λ _. (rest : List ATarget) → list.new.items ++ map rules.member_of (once_after rules.member_of (has met.new) rest) ≡ list.old.items ++ map rules.member_of (once_after rules.member_of (has met.old) (target ∷ rest))) }
{
    let member = member_of(columns, target);
    if met.insert(member)? {
        list.push(member)?;
    }
    Ok(())
}

/// The members that the targets name, each once; each is one of the first `columns` columns, or the row.
#[tactic(auto, using(wd_traces::proofs::Once::once_first))]
fn targets_once(
    alloc: Global,
    columns: u16,
    targets: &[PackedTarget],
) -> Result<Vec<Member>, OutOfMemory>
    requires { list_all (rules.is_target columns) targets.now ≡ true }
    ensures { IfOk result (λ v. v.items ≡ map rules.member_of (once rules.member_of targets.now)) }
{
    let mut met = Set::new(alloc);
    let mut list = Vec::with_capacity(alloc, targets.len().min(usize::from(columns) + 1))?;
    for target in targets {
        meet(columns, &mut met, &mut list, target.target())?;
    }
    Ok(list)
}

/// A kept fact.
#[tactic(auto, using(crate::proofs::Claims::fact_is))]
fn kept_fact(alloc: Global, columns: u16, kept: &Kept) -> Result<KeptFact, OutOfMemory>
    requires { list_all (rules.is_target columns) (kept_of kept.now).to ≡ true }
    ensures { IfOk result (λ k. IsKeptFact (kept_of kept.now) k) }
{
    let to = targets_once(alloc, columns, &kept.to)?;
    Ok(KeptFact {
        trace: kept.trace as usize,
        to,
    })
}

/// Kept facts, in order.
fn kept_list(
    alloc: Global,
    columns: u16,
    entry: &Node,
    traces: &[Vec<u16>],
) -> Result<Vec<KeptFact>, OutOfMemory>
    requires plain { ArePlain columns (rules.kept_facts (lean_of entry.now)) }
    requires traces { HaveColumns (is_of_kept (lean_of entry.now).keep) (lean_of entry.now).traces (each_columns traces.now) }
    ensures { IfOk result (λ v. map (fact_by (each_columns traces.now)) v.items ≡ rules.kept_facts (lean_of entry.now)) }
{
    let mut list = Vec::with_capacity(alloc, entry.keep.len())?;
    for kept in &entry.keep {
        let fact = kept_fact(alloc, columns, kept)?;
        list.push(fact)?;
    }
    Ok(list)
}

/// The columns of a trace that was good, each once; none where they are not asked for.
fn columns_if(
    alloc: Global,
    node: u64,
    facts: &NodeFacts,
    trace: &Trace,
    is_asked: bool,
) -> Result<Vec<u16>, CertError>
    ensures columns { IfOk result (λ v. is_asked ≡ true → v.items ≡ (lean_trace (trace_of trace.now)).from) }
    ensures refused { IfErr result (λ e. e ≢ CertError.OutOfMemory → traced node (seen_of facts.now) (trace_of trace.now) ≡ Err e) }
{
    if is_asked {
        let Followed { from, .. } = start(alloc, node, facts, trace)?;
        Ok(from)
    } else {
        Ok(Vec::new(alloc))
    }
}

/// Appends the columns of a trace.
fn push_columns(list: &mut Vec<Vec<u16>>, columns: Vec<u16>) -> Result<(), OutOfMemory>
    ensures { IfOk result (λ _. list.new.items ≡ list.old.items ++ columns ∷ []) }
{
    list.push(columns)?;
    Ok(())
}

/// The columns of each trace that has a mark, where all traces are good.
fn columns_of_each(
    alloc: Global,
    node: u64,
    facts: &NodeFacts,
    traces: &[Trace],
    marks: &[bool],
) -> Result<Vec<Vec<u16>>, CertError>
    requires { AreGood node (seen_of facts.now) (lean_traces traces.now) }
    ensures columns { IfOk result (λ v. HaveColumns (is_marked_by marks.now) (lean_traces traces.now) (each_columns v.items)) }
    ensures refused { IfErr result (λ e. e ≢ CertError.OutOfMemory → ⊥) }
{
    let mut list = Vec::new(alloc);
    for trace in traces {
        let is_asked = is_marked(marks, list.len());
        let columns = columns_if(alloc, node, facts, trace, is_asked)?;
        push_columns(&mut list, columns)?;
    }
    Ok(list)
}

/// What an entry of a node with `columns` columns keeps, where its traces are good over the given facts.
pub(crate) fn keeps_of(
    alloc: Global,
    columns: u16,
    node: u64,
    facts: &NodeFacts,
    entry: &Node,
) -> Result<Keeps, CertError>
    requires plain { ArePlain columns (rules.kept_facts (lean_of entry.now)) }
    requires good { AreGood node (seen_of facts.now) (lean_of entry.now).traces }
    ensures kept { IfOk result (λ k. facts_kept k ≡ rules.kept_facts (lean_of entry.now)) }
    ensures refused { IfErr result (λ e. e ≢ CertError.OutOfMemory → ⊥) }
{
    let marks = traces_of_kept(alloc, entry)?;
    let traces = columns_of_each(alloc, node, facts, &entry.traces, &marks)?;
    let list = kept_list(alloc, columns, entry, &traces)?;
    Ok(Keeps { traces, list })
}
