//! Facts renumbered.

ghost use Rattle.std.specs.Prelude.{◌≡◌, ◌+◌, ◌-◌, ◌++◌, true, map, IfOk, OnErr, OnOk};
ghost use Rattle.std.specs.List.{list_all};
ghost use Rattle.wd_step_facts.specs.Facts as spec;
ghost use Rattle.wd_step_facts.specs.Facts.{fact_of, is_plain, is_plain_fact, moved};

use crate::facts::{Given, Member};
use crate::members::add_all;
use std::alloc::Global;
use wd_value::OutOfMemory;

/// A member with its column renumbered, and the given member in place of the row.
pub fn moved_member(by: u16, row: Member, member: Member) -> Member
    requires { is_plain (65536 - by) member ≡ true }
    ensures { result ≡ moved (λ c. by + c) row member }
{
    match member {
        Member::Column(column) => Member::Column(by + column),
        Member::Left => Member::Left,
        Member::Right => Member::Right,
        Member::Row => row,
    }
}

fn moved_members(
    alloc: Global,
    by: u16,
    row: Member,
    list: &[Member],
) -> Result<Vec<Member>, OutOfMemory>
    requires { list_all (is_plain (65536 - by)) list.now ≡ true }
    ensures { IfOk result (λ v. v.items ≡ map (moved (λ c. by + c) row) list.now) }
{
    let mut moved = Vec::with_capacity(alloc, list.len())?;
    for member in list {
        moved.push(moved_member(by, row, *member))?;
    }
    Ok(moved)
}

fn moved_fact(alloc: Global, by: u16, row: Member, fact: &Given) -> Result<Given, OutOfMemory>
    requires { is_plain_fact (65536 - by) (fact_of fact.now) ≡ true }
    ensures { IfOk result (λ g. fact_of g ≡ spec.moved_fact (λ c. by + c) row (fact_of fact.now)) }
{
    let from = moved_members(alloc, by, row, &fact.from)?;
    let to = moved_members(alloc, by, row, &fact.to)?;
    Ok(Given { from, to })
}

/// The facts, renumbered.
fn moved_facts(
    alloc: Global,
    by: u16,
    row: Member,
    facts: &[Given],
) -> Result<Vec<Given>, OutOfMemory>
    requires { list_all (is_plain_fact (65536 - by)) (map fact_of facts.now) ≡ true }
    ensures { IfOk result (λ v. map fact_of v.items ≡ spec.moved_facts (λ c. by + c) row (map fact_of facts.now)) }
{
    let mut list = Vec::with_capacity(alloc, facts.len())?;
    for fact in facts {
        list.push(moved_fact(alloc, by, row, fact)?)?;
    }
    Ok(list)
}

/// Appends the facts, renumbered.
///
/// # Errors
/// Where memory runs out; the list is then unchanged.
pub fn add_moved_facts(
    alloc: Global,
    by: u16,
    row: Member,
    facts: &[Given],
    list: &mut Vec<Given>,
) -> Result<(), OutOfMemory>
    requires { list_all (is_plain_fact (65536 - by)) (map fact_of facts.now) ≡ true }
    ensures added { OnOk result (map fact_of list.new.items ≡ map fact_of list.old.items ++ spec.moved_facts (λ c. by + c) row (map fact_of facts.now)) }
    ensures kept { OnErr result (list.new.items ≡ list.old.items) }
{
    let more = moved_facts(alloc, by, row, facts)?;
    add_all(more, list)
}
