//! The closure of columns under facts, in time linear in their sizes.

ghost use Rattle.std.specs.Prelude.{◌≡◌, true, nat_lt, IfOk};
ghost use Rattle.std.specs.List.{list_all};
ghost use Rattle.wd_step_facts.specs.Facts.{columns_named, facts_of};
ghost use Rattle.wd_sets.specs.Sets.{has, stands_in};
ghost use Rattle.wd_close.specs.Closure.{Derives, IsClosure, are_named, is_split_within, steps_of};

use crate::prepared::{Closing, Prepared};
use std::alloc::Global;
use wd_facts::Facts;
use wd_sets::Set;
use wd_value::OutOfMemory;

/// What columns determine, and the facts that show it.
#[derive(Drop)]
pub struct Derived {
    /// What the columns determine.
    pub set: Set,
    /// The numbers of the facts, in the order in which they are used: when a fact is used its left side is reached, and its right side
    /// is reached by the use.
    pub uses: Vec<u64>,
}

/// What columns determine by facts, as `closure` says, and the number of steps. A step is one decrement of a fact's counter, which
/// counts the different members of its left side that are not reached yet, or the taking of one reached member from the queue.
///
/// # Errors
/// Where memory runs out.
pub fn closure_counted(
    alloc: Global,
    facts: &Facts,
    columns: &[u16],
) -> Result<(Set, u128), OutOfMemory>
    requires split { is_split_within facts.now.split facts.now.columns ≡ true }
    requires facts { are_named (facts_of facts.now) ≡ true }
    requires columns { list_all (λ c. nat_lt c facts.now.columns) columns.now ≡ true }
    ensures members { IfOk result (λ r. IsClosure (facts_of facts.now) columns.now (has r.0)) }
    ensures steps { IfOk result (λ r. r.1 ≡ steps_of (facts_of facts.now) (has r.0)) }
{
    let prepared = Prepared::new(alloc, facts)?;
    let Closing { set, steps, .. } = prepared.close(alloc, columns)?;
    Ok((set, steps))
}

/// What columns determine by facts, as `closure` says, and the facts that show it. No fact is named that reaches nothing new.
///
/// # Errors
/// Where memory runs out.
pub fn closure_derived(
    alloc: Global,
    facts: &Facts,
    columns: &[u16],
) -> Result<Derived, OutOfMemory>
    requires split { is_split_within facts.now.split facts.now.columns ≡ true }
    requires facts { are_named (facts_of facts.now) ≡ true }
    requires columns { list_all (λ c. nat_lt c facts.now.columns) columns.now ≡ true }
    ensures members { IfOk result (λ r. IsClosure (facts_of facts.now) columns.now (has r.set)) }
    ensures uses { IfOk result (λ r. Derives (facts_of facts.now) r.uses.items (stands_in (columns_named columns.now)) (has r.set)) }
{
    let prepared = Prepared::new(alloc, facts)?;
    let derived = prepared.derive(alloc, columns)?;
    Ok(derived)
}

/// What columns determine by facts: each column, each side of a Join and the row that they determine in all rows in which the facts
/// hold. The facts name columns below their number of columns, the sides only where they have a split, which is at most that number,
/// and the row; the columns passed in are below it too.
///
/// # Errors
/// Where memory runs out.
pub fn closure(alloc: Global, facts: &Facts, columns: &[u16]) -> Result<Set, OutOfMemory>
    requires split { is_split_within facts.now.split facts.now.columns ≡ true }
    requires facts { are_named (facts_of facts.now) ≡ true }
    requires columns { list_all (λ c. nat_lt c facts.now.columns) columns.now ≡ true }
    ensures { IfOk result (λ set. IsClosure (facts_of facts.now) columns.now (has set)) }
{
    let prepared = Prepared::new(alloc, facts)?;
    let closing = prepared.close(alloc, columns)?;
    Ok(closing.set)
}
