//! Facts that are appended to a list.
use crate::tally::Tally;
use std::alloc::Global;
use wd_plan::{ComparisonOp, Expr};
use wd_step_facts::{Given, Member, add_conjuncts, add_join_conjuncts, add_key, copied_facts};
use wd_value::OutOfMemory;

/// In each round a key, and the conjuncts of `c0 = c1 AND c2 IS NULL`, as a condition and as a Join's.
pub fn facts_added(alloc: Global, rounds: u16) -> Result<Tally, OutOfMemory> {
    let mut tally = Tally::NONE;
    let condition = Some(condition_of(alloc)?);
    let mut list = Vec::new(alloc);
    for round in 0..rounds {
        let before = copied_facts(alloc, &list)?;
        let added = add_key(alloc, Member::Row, &[0, round], &mut list);
        tally.count(added, are_same(&list, &before));
        if let Some(condition) = &condition {
            let before = copied_facts(alloc, &list)?;
            let added = add_conjuncts(alloc, condition, &mut list);
            tally.count(added, are_same(&list, &before));
        }
        let before = copied_facts(alloc, &list)?;
        let added = add_join_conjuncts(alloc, &condition, &mut list);
        tally.count(added, are_same(&list, &before));
    }
    Ok(tally)
}

fn condition_of(alloc: Global) -> Result<Expr, OutOfMemory> {
    let (first, second) = (column(alloc, 0)?, column(alloc, 1)?);
    let equal = Box::new(alloc, Expr::Compare(ComparisonOp::Equal, first, second))?;
    let null = Box::new(alloc, Expr::IsNull(column(alloc, 2)?))?;
    Ok(Expr::And(equal, null))
}

fn column(alloc: Global, number: u16) -> Result<Box<Expr>, OutOfMemory> {
    Ok(Box::new(alloc, Expr::Column(number))?)
}

fn are_same(list: &[Given], others: &[Given]) -> bool {
    list.len() == others.len() && list.iter().zip(others).all(|(a, b)| is_same(a, b))
}

fn is_same(fact: &Given, other: &Given) -> bool {
    fact.from.as_slice() == other.from.as_slice() && fact.to.as_slice() == other.to.as_slice()
}
