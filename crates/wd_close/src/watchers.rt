//! For each member, the facts whose left sides have it.

ghost use Rattle.std.specs.Prelude.{◌≡◌, [], map, get_or, replicate, vec_items, IfOk};
ghost use Rattle.wd_step_facts.specs.Facts.{fact_of};
ghost use Rattle.wd_sets.specs.Sets.{place as place_of};
ghost use Rattle.wd_close.specs.Reached as spec;

use std::alloc::Global;
use wd_facts::{Given, Member};
use wd_sets::place;
use wd_value::OutOfMemory;

/// The facts that watch a member.
pub(crate) fn watchers_of(watchers: &[Vec<usize>], member: Member) -> &[usize]
    ensures { result.now ≡ get_or (map vec_items watchers.now) (place_of member) [] }
{
    match watchers.get(place(member)) {
        Some(list) => list,
        None => &[],
    }
}

/// Whether a fact is the last of a list.
fn is_last(list: &[usize], fact: usize) -> bool
    ensures { result ≡ spec.is_last list.now fact }
{
    match list.last() {
        Some(last) => *last == fact,
        None => false,
    }
}

/// Makes a fact watch a member.
#[tactic(auto, using(std::proofs::lemmas::List::set_past))]
fn watch(watchers: &mut Vec<Vec<usize>>, fact: usize, member: Member) -> Result<(), OutOfMemory>
    ensures { IfOk result (λ _. map vec_items watchers.new.items ≡ spec.watched_one (map vec_items watchers.old.items) fact member) }
{
    let at = place(member);
    if at < watchers.len() {
        watchers[at].push(fact)?;
    }
    Ok(())
}

/// Makes a fact watch each of these members, once. Returns how many it did not watch yet.
fn watch_each(
    watchers: &mut Vec<Vec<usize>>,
    fact: usize,
    members: &[Member],
) -> Result<usize, OutOfMemory>
    ensures watchers { IfOk result (λ _. map vec_items watchers.new.items ≡ spec.watched_each (map vec_items watchers.old.items) fact members.now) }
    ensures count { IfOk result (λ n. n ≡ spec.count_new (map vec_items watchers.old.items) fact members.now) }
{
    let mut count = 0;
    for member in members {
        if !is_last(watchers_of(watchers, *member), fact) {
            watch(watchers, fact, *member)?;
            count += 1;
        }
    }
    Ok(count)
}

/// Lists that are all empty.
pub(crate) fn empties(alloc: Global, count: usize) -> Result<Vec<Vec<usize>>, OutOfMemory>
    ensures { IfOk result (λ v. map vec_items v.items ≡ replicate count []) }
{
    let mut list = Vec::with_capacity(alloc, count)?;
    for _ in 0..count {
        list.push(Vec::new(alloc))?;
    }
    Ok(list)
}

/// Makes each fact watch the members of its left side. Returns how many members each watches.
pub(crate) fn watch_all(
    alloc: Global,
    list: &[Given],
    watchers: &mut Vec<Vec<usize>>,
) -> Result<Vec<usize>, OutOfMemory>
    ensures watchers { IfOk result (λ _. map vec_items watchers.new.items ≡ spec.watched (map vec_items watchers.old.items) 0 (map fact_of list.now)) }
    ensures counters { IfOk result (λ v. v.items ≡ spec.counted (map vec_items watchers.old.items) 0 (map fact_of list.now)) }
{
    let mut counters = Vec::with_capacity(alloc, list.len())?;
    for fact in list {
        let count = watch_each(watchers, counters.len(), &fact.from)?;
        counters.push(count)?;
    }
    Ok(counters)
}
