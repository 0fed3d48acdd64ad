//! What facts reach that are used one after another.
use std::alloc::Global;
use wd_cases::Failure;
use wd_facts::{Facts, Given, Member};
use wd_sets::Set;

/// What columns reach by the facts with these numbers. It ends at a use whose left side is not reached, or that reaches nothing new.
pub fn follow(alloc: Global, facts: &Facts, columns: &[u16], uses: &[u64]) -> Result<Set, Failure> {
    let mut set = Set::new(alloc);
    for column in columns {
        set.insert(Member::Column(*column))?;
    }
    spread(facts, &mut set)?;
    for number in uses {
        match facts.list.get(*number as usize) {
            Some(fact) if is_of_use(&set, fact) => use_fact(facts, fact, &mut set)?,
            _ => break,
        }
    }
    Ok(set)
}

fn is_of_use(set: &Set, fact: &Given) -> bool {
    has_all(set, &fact.from) && !has_all(set, &fact.to)
}

fn has_all(set: &Set, members: &[Member]) -> bool {
    members.iter().all(|member| set.contains(*member))
}

fn use_fact(facts: &Facts, fact: &Given, set: &mut Set) -> Result<(), Failure> {
    for member in &fact.to {
        set.insert(*member)?;
    }
    spread(facts, set)
}

/// Both sides are the row, the row has both sides and all columns, and a side has its columns.
fn spread(facts: &Facts, set: &mut Set) -> Result<(), Failure> {
    let split = facts.split.unwrap_or(facts.columns);
    if has_all(set, &[Member::Left, Member::Right]) {
        set.insert(Member::Row)?;
    }
    if set.contains(Member::Row) {
        add_columns(0, facts.columns, set)?;
        add_sides(facts, set)?;
    }
    if set.contains(Member::Left) {
        add_columns(0, split, set)?;
    }
    if set.contains(Member::Right) {
        add_columns(split, facts.columns, set)?;
    }
    Ok(())
}

fn add_columns(from: u16, to: u16, set: &mut Set) -> Result<(), Failure> {
    for column in from..to {
        set.insert(Member::Column(column))?;
    }
    Ok(())
}

fn add_sides(facts: &Facts, set: &mut Set) -> Result<(), Failure> {
    if facts.split.is_some() {
        set.insert(Member::Left)?;
        set.insert(Member::Right)?;
    }
    Ok(())
}
