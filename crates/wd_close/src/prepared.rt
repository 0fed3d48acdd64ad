//! Facts made ready for closing many sets of columns.

ghost use Rattle.std.specs.Prelude.{◌≡◌, ◌<◌, ◌^◌, true, map, length, get_or, nat_lt, vec_items, IfOk};
ghost use Rattle.std.specs.List.{list_all};
ghost use Rattle.wd_step_facts.specs.declared.facts.Member.TheVariants as member;
ghost use Rattle.wd_step_facts.specs.Facts.{FactList, columns_named, fact_of, facts_of};
ghost use Rattle.wd_sets.specs.Sets.{has, stands_in};
ghost use Rattle.wd_close.specs.Closure.{Derives, IsClosure, are_named, is_split_within, steps_of};
ghost use Rattle.wd_close.specs.Reached.{AreReady, Mirrors};
ghost use Rattle.wd_close.specs.Reached as spec;

use crate::closing::Derived;
use crate::counters::{done_facts, fall, fire};
use crate::reached::{add_named, bring};
use crate::watchers::{empties, watch_all, watchers_of};
use std::alloc::Global;
use std::marker::Model;
use wd_facts::{Facts, Member};
use wd_sets::Set;
use wd_value::OutOfMemory;

/// What columns determine, the facts that show it, and how many steps it took.
#[derive(Drop)]
pub(crate) struct Closing {
    pub(crate) set: Set,
    pub(crate) uses: Vec<u64>,
    pub(crate) steps: u128,
}

/// Takes a member from the queue. Returns how many counters were decremented.
fn take_one(
    facts: &Facts,
    watchers: &[Vec<usize>],
    counters: &mut [usize],
    set: &mut Set,
    queue: &mut Vec<Member>,
    uses: &mut Vec<u64>,
    at: usize,
) -> Result<usize, OutOfMemory>
    requires mirrors { Mirrors set.old queue.old.items }
    requires within { at < length queue.old.items }
    ensures mirrors { IfOk result (λ _. Mirrors set.new queue.new.items) }
    ensures counters { IfOk result (λ _. counters.new ≡ spec.fallen counters.old (spec.watching (map vec_items watchers.now) queue.old.items at)) }
    ensures queue { IfOk result (λ _. queue.new.items ≡ spec.fired (map fact_of facts.now.list.items) counters.new (spec.brought (facts_of facts.now) queue.old.items (get_or queue.old.items at member.Row)) (spec.watching (map vec_items watchers.now) queue.old.items at)) }
    ensures uses { IfOk result (λ _. uses.new.items ≡ spec.used (map fact_of facts.now.list.items) counters.new (spec.brought (facts_of facts.now) queue.old.items (get_or queue.old.items at member.Row)) uses.old.items (spec.watching (map vec_items watchers.now) queue.old.items at)) }
    ensures small { IfOk result (λ n. n < 2 ^ 64) }
    ensures fell { IfOk result (λ n. n ≡ length (spec.watching (map vec_items watchers.now) queue.old.items at)) }
{
    let member = queue[at];
    let fell = watchers_of(watchers, member);
    fall(counters, fell);
    bring(facts, set, queue, member)?;
    fire(&facts.list, counters, set, queue, uses, fell)?;
    Ok(fell.len())
}

/// Facts made ready for closing many sets of columns. Contracts see the facts.
#[derive(Drop)]
pub struct Prepared<'a> {
    facts: &'a Facts,
    /// For each member, the facts whose left sides have it.
    watchers: Vec<Vec<usize>>,
    /// For each fact, how many members its left side has.
    counters: Vec<usize>,
    /// The facts whose left sides are empty.
    ready: Vec<usize>,
}

impl<'a> Model for Prepared<'a> {
    ghost Value = { FactList };

    ghost view = { λ p. facts_of p.facts.now };

    ghost invariant = { λ p. AreReady (facts_of p.facts.now) (map vec_items p.watchers.items) p.counters.items p.ready.items };
}

impl<'a> Prepared<'a> {
    /// Makes facts ready. They name only what `closure` allows.
    ///
    /// # Errors
    /// Where memory runs out.
    pub fn new(alloc: Global, facts: &'a Facts) -> Result<Prepared<'a>, OutOfMemory>
        requires split { is_split_within facts.now.split facts.now.columns ≡ true }
        requires facts { are_named (facts_of facts.now) ≡ true }
        ensures { IfOk result (λ p. p ≡ facts_of facts.now) }
    {
        let mut watchers = empties(alloc, facts.columns as usize + 3)?;
        let counters = watch_all(alloc, &facts.list, &mut watchers)?;
        let ready = done_facts(alloc, &counters)?;
        Ok(Prepared {
            facts,
            watchers,
            counters,
            ready,
        })
    }

    /// What the columns determine, and the facts that show it, as `closure_derived` says.
    ///
    /// # Errors
    /// Where memory runs out.
    pub fn derive(&self, alloc: Global, columns: &[u16]) -> Result<Derived, OutOfMemory>
        requires { list_all (λ c. nat_lt c self.now.columns) columns.now ≡ true }
        ensures members { IfOk result (λ r. IsClosure self.now columns.now (has r.set)) }
        ensures uses { IfOk result (λ r. Derives self.now r.uses.items (stands_in (columns_named columns.now)) (has r.set)) }
    {
        let Closing { set, uses, .. } = self.close(alloc, columns)?;
        Ok(Derived { set, uses })
    }

    /// Closes the columns under the facts.
    pub(crate) fn close(&self, alloc: Global, columns: &[u16]) -> Result<Closing, OutOfMemory>
        requires { list_all (λ c. nat_lt c self.now.columns) columns.now ≡ true }
        ensures members { IfOk result (λ r. IsClosure self.now columns.now (has r.set)) }
        ensures uses { IfOk result (λ r. Derives self.now r.uses.items (stands_in (columns_named columns.now)) (has r.set)) }
        ensures steps { IfOk result (λ r. r.steps ≡ steps_of self.now (has r.set)) }
    {
        let facts = self.facts;
        let mut counters = Vec::from_slice(alloc, &self.counters)?;
        let mut set = Set::new(alloc);
        let mut queue = Vec::new(alloc);
        let mut uses = Vec::new(alloc);
        add_named(&mut set, &mut queue, columns)?;
        fire(
            &facts.list,
            &counters,
            &mut set,
            &mut queue,
            &mut uses,
            &self.ready,
        )?;
        let mut steps = 0u128;
        let mut at = 0usize;
        while at < queue.len() {
            let fell = take_one(
                facts,
                &self.watchers,
                &mut counters,
                &mut set,
                &mut queue,
                &mut uses,
                at,
            )?;
            steps += 1 + fell as u128;
            at += 1;
        }
        Ok(Closing { set, uses, steps })
    }
}
