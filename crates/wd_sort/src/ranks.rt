//! The ranks of values.

ghost use Rattle.std.specs.Prelude.{◌≡◌, ◌<◌, ◌≤◌, IfOk, length, map};
ghost use Rattle.wd_sort.specs.Ranks as spec;
ghost use Rattle.wd_sort.specs.Ranks.{AreRanks, AreSortedEntries};

use std::alloc::Global;
use wd_value::{OutOfMemory, SortKey, Value, compare};

/// A value and its place in a list.
#[derive(Clone, Copy)]
struct Entry<'a> {
    value: &'a Value,
    place: usize,
}

/// For each value how many distinct values are less than it; equal values have one rank.
pub fn ranks_of(alloc: Global, values: &[&Value], key: SortKey) -> Result<Vec<u64>, OutOfMemory>
    ensures { IfOk result (λ v. AreRanks key values.now v.items) }
{
    let entries = sorted_entries(alloc, values, key)?;
    let mut ranks = vec![in alloc; 0u64; values.len()]?;
    let mut rank = 0;
    for i in 0..entries.len() {
        rank += step_to(&entries, key, i);
        ranks[entries[i].place] = rank;
    }
    Ok(ranks)
}

/// 1 where the entry at a place is greater than the entry before, else 0.
fn step_to(entries: &[Entry], key: SortKey, i: usize) -> u64
    requires { i < length entries.now }
    ensures is { result ≡ spec.step_to key (map (λ e. e.value.now) entries.now) i }
    ensures small { result ≤ 1 }
{
    (i > 0 && compare(entries[i - 1].value, entries[i].value, key).is_lt()) as u64
}

fn sorted_entries<'a>(
    alloc: Global,
    values: &[&'a Value],
    key: SortKey,
) -> Result<Vec<Entry<'a>>, OutOfMemory>
    ensures { IfOk result (λ v. AreSortedEntries key values.now v.items) }
{
    let mut entries = Vec::with_capacity(alloc, values.len())?;
    for place in 0..values.len() {
        let value = values[place];
        entries.push(Entry { value, place })?;
    }
    entries.sort_by(|a, b| compare(a.value, b.value, key))?;
    Ok(entries)
}
