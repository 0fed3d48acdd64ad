//! What columns give by facts.

ghost use Rattle.std.specs.Prelude.{◌≡◌, true, nat_lt};
ghost use Rattle.std.specs.List.{list_all};
ghost use Rattle.wd_close.specs.Closure as spec;
ghost use Rattle.wd_step_facts.specs.Facts.{facts_of};

use crate::followed::follow;
use crate::named::{are_below, are_named, is_split_within};
use crate::notation::{columns_of, facts_over};
use crate::shown::push_members;
use std::alloc::Global;
use wd_analyse::{closure, closure_counted};
use wd_cases::Failure;
use wd_cert::{Facts, Member, Set};
use wd_close::{Derived, closure_derived};

/// `closure COLUMNS ? NUMBER FACTS`: what columns give by facts over so many columns, at a Join `NUMBER/LEFT FACTS`; the same with the
/// number of steps; the same with what the facts of its derivation reach, as far as each is reached and reaches something new.
pub fn close_case(alloc: Global, text: &str) -> Result<String, Failure> {
    let (columns, facts) = text.split_once('?').ok_or(Failure::NoCase)?;
    let columns = columns_of(alloc, columns)?;
    let facts = facts_over(alloc, facts.trim())?;
    if is_split_within(&facts) && are_named(&facts) && are_below(&columns, facts.columns) {
        close(alloc, &facts, &columns)
    } else {
        Err(Failure::NoCase)
    }
}

fn close(alloc: Global, facts: &Facts, columns: &[u16]) -> Result<String, Failure>
    requires split { spec.is_split_within facts.now.split facts.now.columns ≡ true }
    requires facts { spec.are_named (facts_of facts.now) ≡ true }
    requires columns { list_all (λ c. nat_lt c facts.now.columns) columns.now ≡ true }
{
    let given = show_closure(alloc, facts, columns)?;
    let counted = show_counted(alloc, facts, columns)?;
    let derived = show_derived(alloc, facts, columns)?;
    Ok(format!(in alloc; "{given}; {counted}; {derived}")?)
}

fn show_closure(alloc: Global, facts: &Facts, columns: &[u16]) -> Result<String, Failure>
    requires split { spec.is_split_within facts.now.split facts.now.columns ≡ true }
    requires facts { spec.are_named (facts_of facts.now) ≡ true }
    requires columns { list_all (λ c. nat_lt c facts.now.columns) columns.now ≡ true }
{
    let set = closure(alloc, facts, columns)?;
    show_set(alloc, facts, &set)
}

/// What is given, by the closure that counts, and the steps.
fn show_counted(alloc: Global, facts: &Facts, columns: &[u16]) -> Result<String, Failure>
    requires split { spec.is_split_within facts.now.split facts.now.columns ≡ true }
    requires facts { spec.are_named (facts_of facts.now) ≡ true }
    requires columns { list_all (λ c. nat_lt c facts.now.columns) columns.now ≡ true }
{
    let (set, steps) = closure_counted(alloc, facts, columns)?;
    let shown = show_set(alloc, facts, &set)?;
    Ok(format!(in alloc; "{shown} in {steps} steps")?)
}

/// What is given, by the closure with a derivation, and what the facts that it uses reach.
fn show_derived(alloc: Global, facts: &Facts, columns: &[u16]) -> Result<String, Failure>
    requires split { spec.is_split_within facts.now.split facts.now.columns ≡ true }
    requires facts { spec.are_named (facts_of facts.now) ≡ true }
    requires columns { list_all (λ c. nat_lt c facts.now.columns) columns.now ≡ true }
{
    let Derived { set, uses } = closure_derived(alloc, facts, columns)?;
    let set = show_set(alloc, facts, &set)?;
    let reached = follow(alloc, facts, columns, &uses)?;
    let reached = show_set(alloc, facts, &reached)?;
    Ok(format!(in alloc; "{set} by facts that reach {reached}")?)
}

/// A set's members: the columns in their order, the sides, the row.
fn show_set(alloc: Global, facts: &Facts, set: &Set) -> Result<String, Failure> {
    let mut members = Vec::new(alloc);
    for column in 0..facts.columns {
        push_if_in(set, Member::Column(column), &mut members)?;
    }
    for member in [Member::Left, Member::Right, Member::Row] {
        push_if_in(set, member, &mut members)?;
    }
    let mut out = String::new(alloc);
    if members.is_empty() {
        out.push_str("nothing")?;
    }
    push_members(&mut out, &members)?;
    Ok(out)
}

fn push_if_in(set: &Set, member: Member, members: &mut Vec<Member>) -> Result<(), Failure> {
    if set.contains(member) {
        members.push(member)?;
    }
    Ok(())
}
