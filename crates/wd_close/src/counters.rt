//! For each fact, how many members of its left side are not reached yet.

ghost use Rattle.std.specs.Prelude.{◌≡◌, filter, map, length, IfOk, option_map};
ghost use Rattle.std.specs.List.{range_with_len};
ghost use Rattle.wd_step_facts.specs.Facts.{fact_of};
ghost use Rattle.wd_close.specs.Reached.{Mirrors};
ghost use Rattle.wd_close.specs.Reached as spec;

use crate::reached::add_all;
use std::alloc::Global;
use wd_facts::{Given, Member};
use wd_sets::Set;
use wd_value::OutOfMemory;

/// Decrements the counters of these facts.
#[tactic(auto, using(std::proofs::lemmas::List::set_past))]
pub(crate) fn fall(counters: &mut [usize], watchers: &[usize])
    ensures { counters.new ≡ spec.fallen counters.old watchers.now }
{
    for fact in watchers {
        if *fact < counters.len() {
            counters[*fact] = counters[*fact].saturating_sub(1);
        }
    }
}

/// Whether all of a fact's left side is reached.
fn is_done(counters: &[usize], fact: usize) -> bool
    ensures { result ≡ spec.is_done counters.now fact }
{
    fact < counters.len() && counters[fact] == 0
}

/// Reaches a fact's right side.
fn add_fact(fact: Option<&Given>, set: &mut Set, queue: &mut Vec<Member>) -> Result<(), OutOfMemory>
    requires mirrors { Mirrors set.old queue.old.items }
    ensures mirrors { IfOk result (λ _. Mirrors set.new queue.new.items) }
    ensures queue { IfOk result (λ _. queue.new.items ≡ spec.with_fact queue.old.items (option_map (λ g. fact_of g.now) fact.entry)) }
{
    match fact {
        None => Ok(()),
        Some(fact) => add_all(set, queue, &fact.to),
    }
}

/// Reaches a fact's right side where its counter is at 0.
fn fire_one(
    list: &[Given],
    counters: &[usize],
    set: &mut Set,
    queue: &mut Vec<Member>,
    fact: usize,
) -> Result<(), OutOfMemory>
    requires mirrors { Mirrors set.old queue.old.items }
    ensures mirrors { IfOk result (λ _. Mirrors set.new queue.new.items) }
    ensures queue { IfOk result (λ _. queue.new.items ≡ spec.fired_one (map fact_of list.now) counters.now queue.old.items fact) }
{
    if is_done(counters, fact) {
        add_fact(list.get(fact), set, queue)?;
    }
    Ok(())
}

/// Reaches a fact's right side where its counter is at 0, and notes the fact where that reaches what was not reached yet.
fn use_one(
    list: &[Given],
    counters: &[usize],
    set: &mut Set,
    queue: &mut Vec<Member>,
    uses: &mut Vec<u64>,
    fact: usize,
) -> Result<(), OutOfMemory>
    requires mirrors { Mirrors set.old queue.old.items }
    ensures mirrors { IfOk result (λ _. Mirrors set.new queue.new.items) }
    ensures queue { IfOk result (λ _. queue.new.items ≡ spec.fired_one (map fact_of list.now) counters.now queue.old.items fact) }
    ensures uses { IfOk result (λ _. uses.new.items ≡ spec.used_one (map fact_of list.now) counters.now queue.old.items uses.old.items fact) }
{
    let before = queue.len();
    fire_one(list, counters, set, queue, fact)?;
    if before < queue.len() {
        uses.push(fact as u64)?;
    }
    Ok(())
}

/// Uses those of these facts whose counters are at 0: their right sides are reached.
pub(crate) fn fire(
    list: &[Given],
    counters: &[usize],
    set: &mut Set,
    queue: &mut Vec<Member>,
    uses: &mut Vec<u64>,
    watchers: &[usize],
) -> Result<(), OutOfMemory>
    requires mirrors { Mirrors set.old queue.old.items }
    ensures mirrors { IfOk result (λ _. Mirrors set.new queue.new.items) }
    ensures queue { IfOk result (λ _. queue.new.items ≡ spec.fired (map fact_of list.now) counters.now queue.old.items watchers.now) }
    ensures uses { IfOk result (λ _. uses.new.items ≡ spec.used (map fact_of list.now) counters.now queue.old.items uses.old.items watchers.now) }
{
    for fact in watchers {
        use_one(list, counters, set, queue, uses, *fact)?;
    }
    Ok(())
}

/// The facts whose counters are at 0.
#[tactic(auto, using(crate::proofs::Ranges::filter_none))]
pub(crate) fn done_facts(alloc: Global, counters: &[usize]) -> Result<Vec<usize>, OutOfMemory>
    ensures { IfOk result (λ v. v.items ≡ filter (spec.is_done counters.now) (range_with_len 0 (length counters.now))) }
{
    let mut done = Vec::new(alloc);
    for fact in 0..counters.len() {
        if is_done(counters, fact) {
            done.push(fact)?;
        }
    }
    Ok(done)
}
