//! Whether facts and columns are such that a closure takes them.

ghost use Rattle.std.specs.Prelude.{◌≡◌, ◌&&◌, nat_lt};
ghost use Rattle.std.specs.List.{list_all};
ghost use Rattle.wd_close.specs.Closure as spec;
ghost use Rattle.wd_step_facts.specs.Facts.{facts_of};

use wd_facts::{Facts, Given, Member};

fn is_named(facts: &Facts, member: Member) -> bool
    ensures { result ≡ spec.is_named (facts_of facts.now) member }
{
    match member {
        Member::Column(column) => column < facts.columns,
        Member::Left | Member::Right => facts.split.is_some(),
        Member::Row => true,
    }
}

fn are_all_named(facts: &Facts, members: &[Member]) -> bool
    ensures { result ≡ list_all (spec.is_named (facts_of facts.now)) members.now }
{
    for member in members {
        if !is_named(facts, *member) {
            return false;
        }
    }
    true
}

fn is_named_fact(facts: &Facts, fact: &Given) -> bool
    ensures { result ≡ (list_all (spec.is_named (facts_of facts.now)) fact.now.from.items && list_all (spec.is_named (facts_of facts.now)) fact.now.to.items) }
{
    are_all_named(facts, &fact.from) && are_all_named(facts, &fact.to)
}

/// Whether facts name no more than their columns, sides and the row.
pub fn are_named(facts: &Facts) -> bool
    ensures { result ≡ spec.are_named (facts_of facts.now) }
{
    for fact in &facts.list {
        if !is_named_fact(facts, fact) {
            return false;
        }
    }
    true
}

/// Whether the left side's columns are among all.
pub fn is_split_within(facts: &Facts) -> bool
    ensures { result ≡ spec.is_split_within facts.now.split facts.now.columns }
{
    match facts.split {
        None => true,
        Some(split) => split <= facts.columns,
    }
}

/// Whether columns are below a number.
pub fn are_below(columns: &[u16], number: u16) -> bool
    ensures { result ≡ list_all (λ c. nat_lt c number) columns.now }
{
    for column in columns {
        if *column >= number {
            return false;
        }
    }
    true
}
