//! The columns that were tried at a node.

ghost use Rattle.std.specs.Prelude.{◌≡◌, ℕ, List, [], true, IfOk};
ghost use Rattle.wd_sets.specs.Sets.{is_in};
ghost use Rattle.wd_analyse.specs.Steps.{HasTried, IsNextTried};
ghost use Rattle.wd_analyse.specs.Steps as spec;

use indexmap::IndexSet;
use std::alloc::Global;
use wd_value::OutOfMemory;

/// An index of the columns that were tried: each list in ascending order, each column once.
#[derive(Drop)]
pub(crate) struct Tried {
    lists: IndexSet<Vec<u16>>,
}

/// Columns in ascending order, each once.
fn in_order(alloc: Global, columns: &[u16]) -> Result<Vec<u16>, OutOfMemory>
    ensures rises { IfOk result (λ v. spec.rises v.items ≡ true) }
    ensures same { IfOk result (λ v. (c : ℕ) → is_in v.items c ≡ is_in columns.now c) }
{
    let mut list = Vec::from_slice(alloc, columns)?;
    list.sort_unstable();
    list.dedup();
    Ok(list)
}

impl Tried {
    /// Nothing was tried.
    pub(crate) fn new(alloc: Global) -> Tried
        ensures { HasTried [] result }
    {
        Tried {
            lists: IndexSet::new(alloc),
        }
    }

    /// Notes that columns are tried. Returns whether they were not tried before, in any order and with any repetitions.
    pub(crate) fn insert(&mut self, alloc: Global, columns: &[u16]) -> Result<bool, OutOfMemory>
        ensures { IfOk result (λ fresh. (Xs : List (List ℕ)) → HasTried Xs self.old → IsNextTried Xs columns.now fresh self.new) }
    {
        let list = in_order(alloc, columns)?;
        let fresh = self.lists.insert(list)?;
        Ok(fresh)
    }
}
