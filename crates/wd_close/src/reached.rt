//! The queue of reached members, each of which is in it once; a set tells which are.

ghost use Rattle.std.specs.Prelude.{◌≡◌, IfOk};
ghost use Rattle.wd_step_facts.specs.Facts.{facts_of, columns_named};
ghost use Rattle.wd_close.specs.Closure.{columns_between};
ghost use Rattle.wd_close.specs.Reached.{Mirrors};
ghost use Rattle.wd_close.specs.Reached as spec;

use wd_facts::{Facts, Member};
use wd_sets::Set;
use wd_value::OutOfMemory;

/// Reaches a member.
pub(crate) fn add(set: &mut Set, queue: &mut Vec<Member>, member: Member) -> Result<(), OutOfMemory>
    requires mirrors { Mirrors set.old queue.old.items }
    ensures mirrors { IfOk result (λ _. Mirrors set.new queue.new.items) }
    ensures queue { IfOk result (λ _. queue.new.items ≡ spec.added queue.old.items member) }
{
    if set.insert(member)? {
        queue.push(member)?;
    }
    Ok(())
}

pub(crate) fn add_all(
    set: &mut Set,
    queue: &mut Vec<Member>,
    members: &[Member],
) -> Result<(), OutOfMemory>
    requires mirrors { Mirrors set.old queue.old.items }
    ensures mirrors { IfOk result (λ _. Mirrors set.new queue.new.items) }
    ensures queue { IfOk result (λ _. queue.new.items ≡ spec.all_added queue.old.items members.now) }
{
    for member in members {
        add(set, queue, *member)?;
    }
    Ok(())
}

/// Reaches columns.
pub(crate) fn add_named(
    set: &mut Set,
    queue: &mut Vec<Member>,
    columns: &[u16],
) -> Result<(), OutOfMemory>
    requires mirrors { Mirrors set.old queue.old.items }
    ensures mirrors { IfOk result (λ _. Mirrors set.new queue.new.items) }
    ensures queue { IfOk result (λ _. queue.new.items ≡ spec.all_added queue.old.items (columns_named columns.now)) }
{
    for column in columns {
        add(set, queue, Member::Column(*column))?;
    }
    Ok(())
}

/// Reaches the columns from one number up to another.
#[tactic(auto, using(crate::proofs::Ranges::columns_more, crate::proofs::Ranges::columns_none))]
fn add_columns(
    set: &mut Set,
    queue: &mut Vec<Member>,
    from: u16,
    to: u16,
) -> Result<(), OutOfMemory>
    requires mirrors { Mirrors set.old queue.old.items }
    ensures mirrors { IfOk result (λ _. Mirrors set.new queue.new.items) }
    ensures queue { IfOk result (λ _. queue.new.items ≡ spec.all_added queue.old.items (columns_between from to)) }
{
    for column in from..to {
        add(set, queue, Member::Column(column))?;
    }
    Ok(())
}

/// Reaches the row where a side is reached too.
fn add_row_with(set: &mut Set, queue: &mut Vec<Member>, other: Member) -> Result<(), OutOfMemory>
    requires mirrors { Mirrors set.old queue.old.items }
    ensures mirrors { IfOk result (λ _. Mirrors set.new queue.new.items) }
    ensures queue { IfOk result (λ _. queue.new.items ≡ spec.row_if other queue.old.items) }
{
    if set.contains(other) {
        add(set, queue, Member::Row)?;
    }
    Ok(())
}

/// Reaches what the left side determines.
fn add_left(split: Option<u16>, set: &mut Set, queue: &mut Vec<Member>) -> Result<(), OutOfMemory>
    requires mirrors { Mirrors set.old queue.old.items }
    ensures mirrors { IfOk result (λ _. Mirrors set.new queue.new.items) }
    ensures queue { IfOk result (λ _. queue.new.items ≡ spec.with_left split queue.old.items) }
{
    match split {
        None => Ok(()),
        Some(split) => {
            add_columns(set, queue, 0, split)?;
            add_row_with(set, queue, Member::Right)
        }
    }
}

/// Reaches what the right side determines.
fn add_right(
    split: Option<u16>,
    columns: u16,
    set: &mut Set,
    queue: &mut Vec<Member>,
) -> Result<(), OutOfMemory>
    requires mirrors { Mirrors set.old queue.old.items }
    ensures mirrors { IfOk result (λ _. Mirrors set.new queue.new.items) }
    ensures queue { IfOk result (λ _. queue.new.items ≡ spec.with_right split columns queue.old.items) }
{
    match split {
        None => Ok(()),
        Some(split) => {
            add_columns(set, queue, split, columns)?;
            add_row_with(set, queue, Member::Left)
        }
    }
}

/// Reaches both sides, where there are sides.
fn add_sides(split: Option<u16>, set: &mut Set, queue: &mut Vec<Member>) -> Result<(), OutOfMemory>
    requires mirrors { Mirrors set.old queue.old.items }
    ensures mirrors { IfOk result (λ _. Mirrors set.new queue.new.items) }
    ensures queue { IfOk result (λ _. queue.new.items ≡ spec.with_sides split queue.old.items) }
{
    match split {
        None => Ok(()),
        Some(_) => {
            add(set, queue, Member::Left)?;
            add(set, queue, Member::Right)
        }
    }
}

/// Reaches what a reached member determines without any fact.
pub(crate) fn bring(
    facts: &Facts,
    set: &mut Set,
    queue: &mut Vec<Member>,
    member: Member,
) -> Result<(), OutOfMemory>
    requires mirrors { Mirrors set.old queue.old.items }
    ensures mirrors { IfOk result (λ _. Mirrors set.new queue.new.items) }
    ensures queue { IfOk result (λ _. queue.new.items ≡ spec.brought (facts_of facts.now) queue.old.items member) }
{
    match member {
        Member::Column(_) => Ok(()),
        Member::Left => add_left(facts.split, set, queue),
        Member::Right => add_right(facts.split, facts.columns, set, queue),
        Member::Row => {
            add_columns(set, queue, 0, facts.columns)?;
            add_sides(facts.split, set, queue)
        }
    }
}
