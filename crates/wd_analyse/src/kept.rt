//! What a node keeps of what columns determine.

ghost use Rattle.std.specs.Prelude.{◌≡◌, ℕ, ◌++◌, map, filter, IfOk};
ghost use Rattle.wd_certificate.specs.Certificates.{kept_of};
ghost use Rattle.wd_step_facts.specs.Facts.{columns_named, fact_of};
ghost use Rattle.wd_step_facts.specs.Steps.{all_columns};
ghost use Rattle.wd_sets.specs.Sets.{has_column, is_in};
ghost use Rattle.wd_analyse.specs.Evidence.{closing_of};
ghost use Rattle.wd_analyse.specs.Kept as spec;

use crate::closed::{Closed, once};
use std::alloc::Global;
use wd_certificate::{Kept, PackedTarget, Target};
use wd_facts::{Given, Member};
use wd_sets::Set;
use wd_value::OutOfMemory;

/// Some columns as a set.
#[tactic(auto, using(crate::proofs::New::in_or_left))]
fn column_set(alloc: Global, columns: &[u16]) -> Result<Set, OutOfMemory>
    ensures { IfOk result (λ set. (c : ℕ) → has_column set c ≡ is_in columns.now c) }
{
    let mut set = Set::new(alloc);
    for column in columns {
        set.insert(Member::Column(*column))?;
    }
    Ok(set)
}

/// Whether a column is determined and is not among the columns that determine it, which `from` holds as a set.
fn is_new(closed: &Closed, from: &Set, column: u16) -> bool
    requires { has_column from.now column ≡ is_in closed.now.from.items column }
    ensures { result ≡ spec.is_new (closing_of closed.now) column }
{
    closed.set.contains(Member::Column(column)) && !from.contains(Member::Column(column))
}

/// Appends the column if it is new.
fn add_new(
    closed: &Closed,
    from: &Set,
    column: u16,
    list: &mut Vec<Member>,
) -> Result<(), OutOfMemory>
    requires { has_column from.now column ≡ is_in closed.now.from.items column }
    ensures { IfOk result (λ _. list.new.items ≡ list.old.items ++ columns_named (spec.new_one (closing_of closed.now) column)) }
{
    if is_new(closed, from, column) {
        list.push(Member::Column(column))?;
    }
    Ok(())
}

/// Those of the first `width` columns that are determined and are not among the columns that determine them.
#[tactic(auto, using(crate::proofs::New::new_step, crate::proofs::New::new_none))]
fn new_columns(alloc: Global, closed: &Closed, width: u16) -> Result<Vec<Member>, OutOfMemory>
    ensures { IfOk result (λ v. v.items ≡ columns_named (filter (spec.is_new (closing_of closed.now)) (all_columns width))) }
{
    let from = column_set(alloc, &closed.from)?;
    let mut list = Vec::new(alloc);
    for column in 0..width {
        add_new(closed, &from, column, &mut list)?;
    }
    Ok(list)
}

/// What a node with `width` columns keeps of what columns determine.
pub(crate) fn kept_members(
    alloc: Global,
    closed: &Closed,
    width: u16,
) -> Result<Vec<Member>, OutOfMemory>
    ensures { IfOk result (λ v. v.items ≡ spec.kept_members width (closing_of closed.now)) }
{
    if closed.set.contains(Member::Row) {
        Ok(Vec::from_slice(alloc, &[Member::Row])?)
    } else {
        new_columns(alloc, closed, width)
    }
}

fn target_of(member: Member) -> Target
    ensures { result ≡ spec.target_of member }
{
    match member {
        Member::Column(column) => Target::Column(u64::from(column)),
        Member::Left | Member::Right | Member::Row => Target::Row,
    }
}

fn targets(alloc: Global, members: &[Member]) -> Result<Vec<PackedTarget>, OutOfMemory>
    ensures { IfOk result (λ v. v.items ≡ map spec.target_of members.now) }
{
    let mut list = Vec::with_capacity(alloc, members.len())?;
    for member in members {
        list.push(PackedTarget::new(target_of(*member)))?;
    }
    Ok(list)
}

/// What a node keeps of what columns determine, shown by the trace with this number.
fn kept_record(alloc: Global, claim: &Closed, width: u16, trace: u64) -> Result<Kept, OutOfMemory>
    ensures { IfOk result (λ k. kept_of k ≡ record { to = map spec.target_of (spec.kept_members width (closing_of claim.now)); trace = trace }) }
{
    let members = kept_members(alloc, claim, width)?;
    let to = targets(alloc, &members)?;
    Ok(Kept { to, trace })
}

/// What a node with `width` columns keeps, for its entry; each claim is shown by the trace with the claim's number.
pub(crate) fn keep(alloc: Global, claims: &[Closed], width: u16) -> Result<Vec<Kept>, OutOfMemory>
    ensures { IfOk result (λ v. map kept_of v.items ≡ spec.keep_by width 0 (map closing_of claims.now)) }
{
    let mut list = Vec::with_capacity(alloc, claims.len())?;
    for claim in claims {
        let one = kept_record(alloc, claim, width, list.len() as u64)?;
        list.push(one)?;
    }
    Ok(list)
}

fn columns_as_members(alloc: Global, columns: &[u16]) -> Result<Vec<Member>, OutOfMemory>
    ensures { IfOk result (λ v. v.items ≡ columns_named columns.now) }
{
    let mut list = Vec::with_capacity(alloc, columns.len())?;
    for column in columns {
        list.push(Member::Column(*column))?;
    }
    Ok(list)
}

/// What a node keeps of what columns determine, as a fact.
fn kept_fact(alloc: Global, claim: &Closed, width: u16) -> Result<Given, OutOfMemory>
    ensures { IfOk result (λ g. fact_of g ≡ spec.kept_fact width (closing_of claim.now)) }
{
    let from = once(alloc, &claim.from)?;
    let from = columns_as_members(alloc, &from)?;
    let to = kept_members(alloc, claim, width)?;
    Ok(Given { from, to })
}

/// What a node keeps, as facts.
pub(crate) fn kept_facts(
    alloc: Global,
    claims: &[Closed],
    width: u16,
) -> Result<Vec<Given>, OutOfMemory>
    ensures { IfOk result (λ v. map fact_of v.items ≡ map (spec.kept_fact width) (map closing_of claims.now)) }
{
    let mut list = Vec::with_capacity(alloc, claims.len())?;
    for claim in claims {
        let fact = kept_fact(alloc, claim, width)?;
        list.push(fact)?;
    }
    Ok(list)
}
