//! Members that are put into a set.
use crate::tally::Tally;
use std::alloc::Global;
use wd_sets::Set;
use wd_step_facts::Member;
use wd_value::OutOfMemory;

/// In each round a column far after those that are there. The members are asked for one by one, as a set has no copy.
pub fn members_inserted(alloc: Global, rounds: u16) -> Result<Tally, OutOfMemory> {
    let mut tally = Tally::NONE;
    let mut set = Set::new(alloc);
    let mut before = Vec::with_capacity(alloc, usize::from(rounds))?;
    for round in 0..rounds {
        let column = round.saturating_mul(64);
        let inserted = set.insert(Member::Column(column));
        if inserted.is_ok() {
            before.push(column)?;
        }
        tally.count(inserted, has_just(&set, &before, rounds));
    }
    Ok(tally)
}

/// Whether of the columns of so many rounds the set has just these.
fn has_just(set: &Set, columns: &[u16], rounds: u16) -> bool {
    (0..rounds).all(|round| {
        let column = round.saturating_mul(64);
        set.contains(Member::Column(column)) == columns.contains(&column)
    })
}
