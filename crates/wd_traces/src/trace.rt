//! What follows from the columns of a trace by the facts that it uses.

ghost use Rattle.std.specs.Prelude.{◌≡◌, ◌≢◌, ℕ, ◌+◌, ◌-◌, ◌||◌, ◌++◌, List, [], ◌∷◌, true, false, map, nat_lt, Ok, Err, Some, slice_get, IfOk, IfErr, IfSome, IsTrue};
ghost use Rattle.std.specs.List.{list_all};
ghost use Rattle.wd_certificate.specs.Certificates.{trace_of};
ghost use Rattle.wd_step_facts.specs.declared.facts.Member.{Member as AMember};
ghost use Rattle.wd_step_facts.specs.declared.facts.Member.TheVariants as member;
ghost use Rattle.wd_step_facts.specs.Facts.{columns_named, fact_of, is_plain_fact, moved_fact};
ghost use Rattle.wd_sets.specs.Sets.{has, same_member, stands_in};
ghost use Rattle.wd_rules.specs.Traces as spec;
ghost use Rattle.wd_traces.specs.Once.{columns_once, lean_trace, once_after};
ghost use Rattle.wd_node_facts.specs.Seen.{IsNarrow, each_columns, fact_by, seen_of, side_facts};
ghost use Rattle.wd_traces.specs.Known.{AreGivenSets, AreKnown, AreSideSets, IsSetOf};
ghost use Rattle.wd_traces.specs.Used.{AreUsed, Marks};

use crate::known::{
    Known, SideSets, insert_moved_side, insert_side, reaches_columns_side, reaches_side, set_at,
};
use std::alloc::Global;
use wd_certificate::{CertError, Trace};
use wd_facts::{Given, Member};
use wd_node_facts::{KeptFact, NodeFacts, Side, columns_of};
use wd_sets::Set;
use wd_value::OutOfMemory;

/// A trace's columns, each once, and the members after its uses; what follows from these is reached.
#[derive(Drop)]
pub struct Followed {
    pub from: Vec<u16>,
    pub set: Set,
}

impl Followed {
    /// A trace without columns and uses.
    pub fn new(alloc: Global) -> Followed
        ensures from { result.from.items ≡ [] }
        ensures set { (m : AMember) → has result.set m ≡ false }
    {
        Followed {
            from: Vec::new(alloc),
            set: Set::new(alloc),
        }
    }
}

/// Uses a fact.
#[tactic(auto, using(crate::proofs::Members::used_is))]
fn use_fact(
    node: u64,
    known: &Known,
    set: &mut Set,
    fact: &Given,
    from: Option<&Set>,
    to: Option<&Set>,
) -> Result<(), CertError>
    requires known { AreKnown known.now }
    requires from { IfSome from (λ s. IsSetOf s.now fact.now.from.items) }
    requires to { IfSome to (λ s. IsSetOf s.now fact.now.to.items) }
    ensures used { IfOk result (λ _. spec.with_use node (seen_of known.now.facts) (has set.old) (Some (fact_of fact.now)) ≡ Ok (has set.new)) }
    ensures refused { IfErr result (λ e. e ≢ CertError.OutOfMemory → spec.with_use node (seen_of known.now.facts) (has set.old) (Some (fact_of fact.now)) ≡ Err e) }
{
    if !reaches_side(known, set, from, &fact.from) {
        return Err(CertError::UnreachedUse { node });
    }
    insert_side(set, to, &fact.to)?;
    Ok(())
}

/// Uses the fact with this number among the given ones.
fn use_given(
    node: u64,
    known: &Known,
    set: &mut Set,
    list: &[Given],
    sets: &SideSets,
    number: usize,
) -> Result<(), CertError>
    requires known { AreKnown known.now }
    requires sets { AreGivenSets list.now sets.now }
    ensures used { IfOk result (λ _. spec.with_use node (seen_of known.now.facts) (has set.old) (slice_get (map fact_of list.now) number) ≡ Ok (has set.new)) }
    ensures refused { IfErr result (λ e. e ≢ CertError.OutOfMemory → spec.with_use node (seen_of known.now.facts) (has set.old) (slice_get (map fact_of list.now) number) ≡ Err e) }
{
    match list.get(number) {
        Some(fact) => {
            let (from, to) = (set_at(&sets.from, number), set_at(&sets.to, number));
            use_fact(node, known, set, fact, from, to)
        }
        None => Err(CertError::OutOfRange { node }),
    }
}

/// Uses a fact that a child keeps.
#[tactic(auto, using(crate::proofs::Members::used_is))]
fn use_kept(
    node: u64,
    known: &Known,
    set: &mut Set,
    side: &Side,
    sets: &SideSets,
    number: usize,
    kept: &KeptFact,
) -> Result<(), CertError>
    requires known { AreKnown known.now }
    requires sets { AreSideSets side.now sets.now }
    requires at { slice_get side.now.keeps.list.items number ≡ Some kept.now }
    requires plain { is_plain_fact (65536 - side.now.by) (fact_by (each_columns side.now.keeps.traces.items) kept.now) ≡ true }
    ensures used { IfOk result (λ _. spec.with_use node (seen_of known.now.facts) (has set.old) (Some (moved_fact (λ c. side.now.by + c) side.now.row (fact_by (each_columns side.now.keeps.traces.items) kept.now))) ≡ Ok (has set.new)) }
    ensures refused { IfErr result (λ e. e ≢ CertError.OutOfMemory → spec.with_use node (seen_of known.now.facts) (has set.old) (Some (moved_fact (λ c. side.now.by + c) side.now.row (fact_by (each_columns side.now.keeps.traces.items) kept.now))) ≡ Err e) }
{
    let columns = columns_of(&side.keeps.traces, kept.trace);
    let from = set_at(&sets.from, kept.trace);
    if !reaches_columns_side(known, set, from, side.by, side.row, columns) {
        return Err(CertError::UnreachedUse { node });
    }
    let to = set_at(&sets.to, number);
    insert_moved_side(set, to, side.by, side.row, &kept.to)?;
    Ok(())
}

/// Uses the fact with this number among those that a child keeps.
fn use_side(
    node: u64,
    known: &Known,
    set: &mut Set,
    side: &Side,
    sets: &SideSets,
    number: usize,
) -> Result<(), CertError>
    requires known { AreKnown known.now }
    requires narrow { IsNarrow side.now }
    requires sets { AreSideSets side.now sets.now }
    ensures used { IfOk result (λ _. spec.with_use node (seen_of known.now.facts) (has set.old) (slice_get (side_facts side.now) number) ≡ Ok (has set.new)) }
    ensures refused { IfErr result (λ e. e ≢ CertError.OutOfMemory → spec.with_use node (seen_of known.now.facts) (has set.old) (slice_get (side_facts side.now) number) ≡ Err e) }
{
    match side.keeps.list.get(number) {
        Some(kept) => use_kept(node, known, set, side, sets, number, kept),
        None => Err(CertError::OutOfRange { node }),
    }
}

/// Uses the fact with this number among those of the right child and the last ones.
#[tactic(auto, using(crate::proofs::Members::in_side, crate::proofs::Members::after_side))]
fn use_right(node: u64, known: &Known, set: &mut Set, number: usize) -> Result<(), CertError>
    requires { AreKnown known.now }
    ensures used { IfOk result (λ _. spec.with_use node (seen_of known.now.facts) (has set.old) (slice_get (side_facts known.now.facts.right ++ map fact_of known.now.facts.last.items) number) ≡ Ok (has set.new)) }
    ensures refused { IfErr result (λ e. e ≢ CertError.OutOfMemory → spec.with_use node (seen_of known.now.facts) (has set.old) (slice_get (side_facts known.now.facts.right ++ map fact_of known.now.facts.last.items) number) ≡ Err e) }
{
    let count = known.facts.right.keeps.list.len();
    if number < count {
        use_side(node, known, set, &known.facts.right, &known.right, number)
    } else {
        use_given(
            node,
            known,
            set,
            &known.facts.last,
            &known.last,
            number - count,
        )
    }
}

/// Uses the fact with this number among those of the children and the last ones.
#[tactic(auto, using(crate::proofs::Members::in_side, crate::proofs::Members::after_side))]
fn use_left(node: u64, known: &Known, set: &mut Set, number: usize) -> Result<(), CertError>
    requires { AreKnown known.now }
    ensures used { IfOk result (λ _. spec.with_use node (seen_of known.now.facts) (has set.old) (slice_get (side_facts known.now.facts.left ++ (side_facts known.now.facts.right ++ map fact_of known.now.facts.last.items)) number) ≡ Ok (has set.new)) }
    ensures refused { IfErr result (λ e. e ≢ CertError.OutOfMemory → spec.with_use node (seen_of known.now.facts) (has set.old) (slice_get (side_facts known.now.facts.left ++ (side_facts known.now.facts.right ++ map fact_of known.now.facts.last.items)) number) ≡ Err e) }
{
    let count = known.facts.left.keeps.list.len();
    if number < count {
        use_side(node, known, set, &known.facts.left, &known.left, number)
    } else {
        use_right(node, known, set, number - count)
    }
}

/// Uses the fact with this number.
#[tactic(auto, using(crate::proofs::Members::in_first, crate::proofs::Members::after_first))]
fn use_number(node: u64, known: &Known, set: &mut Set, number: u64) -> Result<(), CertError>
    requires { AreKnown known.now }
    ensures used { IfOk result (λ _. spec.with_use node (seen_of known.now.facts) (has set.old) (slice_get (seen_of known.now.facts).list number) ≡ Ok (has set.new)) }
    ensures refused { IfErr result (λ e. e ≢ CertError.OutOfMemory → spec.with_use node (seen_of known.now.facts) (has set.old) (slice_get (seen_of known.now.facts).list number) ≡ Err e) }
{
    let number = number as usize;
    let count = known.facts.first.len();
    if number < count {
        use_given(node, known, set, &known.facts.first, &known.first, number)
    } else {
        use_left(node, known, set, number - count)
    }
}

/// Adds one of a trace's columns, unless it was added before.
#[tactic(auto, using(crate::proofs::Once::once_met, crate::proofs::Once::once_new))]
fn meet(followed: &mut Followed, column: u16) -> Result<(), OutOfMemory>
    ensures set { IfOk result (λ _. (m : AMember) → has followed.new.set m ≡ (same_member m (member.Column column) || has followed.old.set m)) }
    ensures from { IfOk result (λ _. (rest : List ℕ) → followed.new.from.items ++ once_after (λ c. member.Column c) (has followed.new.set) rest ≡ followed.old.from.items ++ once_after (λ c. member.Column c) (has followed.old.set) (column ∷ rest)) }
{
    if followed.set.insert(Member::Column(column))? {
        followed.from.push(column)?;
    }
    Ok(())
}

/// The columns from which a trace starts, each once; each has to be a column of the facts.
///
/// # Errors
/// 510 at the first one that is none. Out of memory.
#[tactic(auto, using(crate::proofs::Members::one_more, crate::proofs::Members::not_started, crate::proofs::Once::once_first))]
pub fn start(
    alloc: Global,
    node: u64,
    facts: &NodeFacts,
    trace: &Trace,
) -> Result<Followed, CertError>
    ensures below { IfOk result (λ _. list_all (λ c. nat_lt c facts.now.columns) trace.now.from.items ≡ true) }
    ensures from { IfOk result (λ f. f.from.items ≡ columns_once trace.now.from.items) }
    ensures named { IfOk result (λ f. (m : AMember) → has f.set m ≡ stands_in (columns_named trace.now.from.items) m) }
    ensures refused { IfErr result (λ e. e ≢ CertError.OutOfMemory → spec.traced node (seen_of facts.now) (trace_of trace.now) ≡ Err e) }
{
    let mut followed = Followed::new(alloc);
    for column in &trace.from {
        if u64::from(facts.columns) <= *column {
            return Err(CertError::OutOfRange { node });
        }
        meet(&mut followed, *column as u16)?;
    }
    Ok(followed)
}

/// How many numbers of facts are remembered while a trace is followed.
const REMEMBERED: usize = 64;

/// The place where a fact's number is remembered.
fn place_of(number: u64) -> usize {
    (number % REMEMBERED as u64) as usize
}

/// Whether the number is remembered.
fn is_remembered(used: &[Option<u64>], number: u64) -> bool
    ensures { IsTrue result → (i : ℕ) × (slice_get used.now i ≡ Some (Some number)) }
{
    match used.get(place_of(number)) {
        Some(Some(other)) => *other == number,
        _ => false,
    }
}

/// Remembers the number, in place of another one with the same place.
fn remember(used: &mut [Option<u64>], number: u64)
    ensures { Marks number used.old used.new }
{
    let place = place_of(number);
    if place < used.len() {
        used[place] = Some(number);
    }
}

/// Uses the fact with this number unless it is remembered: a second use changes nothing.
fn use_once(
    node: u64,
    known: &Known,
    set: &mut Set,
    used: &mut [Option<u64>],
    number: u64,
) -> Result<(), CertError>
    requires known { AreKnown known.now }
    requires before { AreUsed node (seen_of known.now.facts) (has set.old) used.old }
    ensures used { IfOk result (λ _. spec.with_use node (seen_of known.now.facts) (has set.old) (slice_get (seen_of known.now.facts).list number) ≡ Ok (has set.new)) }
    ensures after { IfOk result (λ _. AreUsed node (seen_of known.now.facts) (has set.new) used.new) }
    ensures refused { IfErr result (λ e. e ≢ CertError.OutOfMemory → spec.with_use node (seen_of known.now.facts) (has set.old) (slice_get (seen_of known.now.facts).list number) ≡ Err e) }
{
    if is_remembered(used, number) {
        return Ok(());
    }
    use_number(node, known, set, number)?;
    remember(used, number);
    Ok(())
}

/// Uses facts, one after another.
fn use_each(
    node: u64,
    known: &Known,
    mut followed: Followed,
    uses: &[u64],
) -> Result<Followed, CertError>
    requires { AreKnown known.now }
    ensures from { IfOk result (λ f. f.from.items ≡ followed.from.items) }
    ensures used { IfOk result (λ f. spec.with_uses node (seen_of known.now.facts) (has followed.set) uses.now ≡ Ok (has f.set)) }
    ensures refused { IfErr result (λ e. e ≢ CertError.OutOfMemory → spec.with_uses node (seen_of known.now.facts) (has followed.set) uses.now ≡ Err e) }
{
    let mut used = [None; REMEMBERED];
    for number in uses {
        use_once(node, known, &mut followed.set, &mut used, *number)?;
    }
    Ok(followed)
}

/// A trace that was followed: its columns, and the members after its uses.
fn walk(alloc: Global, node: u64, known: &Known, trace: &Trace) -> Result<Followed, CertError>
    requires { AreKnown known.now }
    ensures from { IfOk result (λ f. f.from.items ≡ columns_once trace.now.from.items) }
    ensures traced { IfOk result (λ f. spec.traced node (seen_of known.now.facts) (trace_of trace.now) ≡ Ok (has f.set)) }
    ensures refused { IfErr result (λ e. e ≢ CertError.OutOfMemory → spec.traced node (seen_of known.now.facts) (trace_of trace.now) ≡ Err e) }
{
    let followed = start(alloc, node, &known.facts, trace)?;
    use_each(node, known, followed, &trace.uses)
}

/// A trace that was followed from its columns by the facts that it uses, in order. With each column once it reaches the same.
///
/// # Errors
/// The first of these: 510 for a number that is no column of the facts; then for each use 510 for the number of no fact, 505 where its left
/// side is not reached. Out of memory.
pub fn follow(alloc: Global, node: u64, known: &Known, trace: &Trace) -> Result<Followed, CertError>
    requires { AreKnown known.now }
    ensures from { IfOk result (λ f. f.from.items ≡ columns_once trace.now.from.items) }
    ensures traced { IfOk result (λ f. spec.traced node (seen_of known.now.facts) (lean_trace (trace_of trace.now)) ≡ Ok (has f.set)) }
    ensures refused { IfErr result (λ e. e ≢ CertError.OutOfMemory → spec.traced node (seen_of known.now.facts) (lean_trace (trace_of trace.now)) ≡ Err e) }
{
    walk(alloc, node, known, trace)
}
