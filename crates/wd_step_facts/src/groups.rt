//! The facts of a Group.

ghost use Rattle.std.specs.Prelude.{◌≡◌, ◌+◌, ◌++◌, ◌<◌, length, map, filter, IfOk};
ghost use Rattle.std.specs.List.{list_all, list_any};
ghost use Rattle.wd_plan.specs.Plans.{group_call_of, grouping_of, sets_of};
ghost use Rattle.wd_step_facts.specs.Facts as facts_spec;
ghost use Rattle.wd_step_facts.specs.Facts.{fact_of};
ghost use Rattle.wd_step_facts.specs.Steps as spec;

use crate::apart::are_told_apart;
use crate::facts::{Given, Member};
use crate::members::{add_key, first_columns};
use std::alloc::Global;
use wd_plan::{Group, GroupCall};
use wd_value::OutOfMemory;

/// Appends the columns of the GROUPING calls, where the first call has this column.
#[tactic(auto, using(crate::proofs::GroupsAdded::grouping_next))]
fn add_grouping_columns(
    first: u16,
    calls: &[GroupCall],
    list: &mut Vec<u16>,
) -> Result<(), OutOfMemory>
    requires { first + length calls.now < 65536 }
    ensures { IfOk result (λ _. list.new.items ≡ list.old.items ++ spec.grouping_columns first (map group_call_of calls.now)) }
{
    let mut column = first;
    for call in calls {
        if let GroupCall::Grouping(_) = call {
            list.push(column)?;
        }
        column += 1;
    }
    Ok(())
}

/// The grouping columns, and with several sets also the GROUPING columns.
fn group_key(alloc: Global, group: &Group) -> Result<Vec<u16>, OutOfMemory>
    requires { group.now.columns + length group.now.calls.items < 65536 }
    ensures { IfOk result (λ v. v.items ≡ spec.group_key (grouping_of group.now)) }
{
    let mut key = first_columns(alloc, group.columns)?;
    if 1 < group.sets.len() {
        add_grouping_columns(group.columns, &group.calls, &mut key)?;
    }
    Ok(key)
}

/// Appends that these columns determine the row, where GROUPING distinguishes the sets.
fn add_group_key(alloc: Global, group: &Group, list: &mut Vec<Given>) -> Result<(), OutOfMemory>
    requires { group.now.columns + length group.now.calls.items < 65536 }
    ensures { IfOk result (λ _. map fact_of list.new.items ≡ map fact_of list.old.items ++ spec.group_key_facts (grouping_of group.now)) }
{
    if are_told_apart(alloc, &group.calls, &group.sets)? {
        let key = group_key(alloc, group)?;
        add_key(alloc, Member::Row, &key, list)?;
    }
    Ok(())
}

/// Whether a member is one of the first `columns` columns.
fn is_column(columns: u16, member: Member) -> bool
    ensures { result ≡ facts_spec.is_column columns member }
{
    match member {
        Member::Column(column) => column < columns,
        Member::Left | Member::Right | Member::Row => false,
    }
}

/// Whether a member is one of the first `columns` columns or the row.
fn is_plain(columns: u16, member: Member) -> bool
    ensures { result ≡ facts_spec.is_plain columns member }
{
    match member {
        Member::Column(column) => column < columns,
        Member::Left | Member::Right => false,
        Member::Row => true,
    }
}

fn are_columns(columns: u16, list: &[Member]) -> bool
    ensures { result ≡ list_all (facts_spec.is_column columns) list.now }
{
    for member in list {
        if !is_column(columns, *member) {
            return false;
        }
    }
    true
}

/// The members that are one of the first `columns` columns or the row.
pub fn restrict_members(
    alloc: Global,
    columns: u16,
    list: &[Member],
) -> Result<Vec<Member>, OutOfMemory>
    ensures { IfOk result (λ v. v.items ≡ filter (facts_spec.is_plain columns) list.now) }
{
    let mut cut = Vec::new(alloc);
    for member in list {
        if is_plain(columns, *member) {
            cut.push(*member)?;
        }
    }
    Ok(cut)
}

/// Appends a fact over the first `columns` columns, with the targets that are such columns or the row.
fn add_cut_fact(
    alloc: Global,
    columns: u16,
    fact: &Given,
    list: &mut Vec<Given>,
) -> Result<(), OutOfMemory>
    ensures { IfOk result (λ _. map fact_of list.new.items ≡ map fact_of list.old.items ++ spec.restrict_fact columns (fact_of fact.now)) }
{
    if are_columns(columns, &fact.from) {
        let from = Vec::from_slice(alloc, &fact.from)?;
        let to = restrict_members(alloc, columns, &fact.to)?;
        list.push(Given { from, to })?;
    }
    Ok(())
}

/// Appends what a Group with one set keeps of the input's facts.
#[tactic(auto, using(crate::proofs::GroupsAdded::cut_next))]
fn add_facts_of_group(
    alloc: Global,
    group: &Group,
    kept: &[Given],
    list: &mut Vec<Given>,
) -> Result<(), OutOfMemory>
    ensures { IfOk result (λ _. map fact_of list.new.items ≡ map fact_of list.old.items ++ spec.facts_of_group (grouping_of group.now) (map fact_of kept.now)) }
{
    if group.sets.len() == 1 {
        for fact in kept {
            add_cut_fact(alloc, group.columns, fact, list)?;
        }
    }
    Ok(())
}

/// The facts of a Group: what determines its rows, and with one set what it keeps of the input's facts.
pub fn group_facts(alloc: Global, group: &Group, kept: &[Given]) -> Result<Vec<Given>, OutOfMemory>
    requires { group.now.columns + length group.now.calls.items < 65536 }
    ensures { IfOk result (λ v. map fact_of v.items ≡ spec.group_key_facts (grouping_of group.now) ++ spec.facts_of_group (grouping_of group.now) (map fact_of kept.now)) }
{
    let mut list = Vec::new(alloc);
    add_group_key(alloc, group, &mut list)?;
    add_facts_of_group(alloc, group, kept, &mut list)?;
    Ok(list)
}
