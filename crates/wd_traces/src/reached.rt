//! What is reached with the members of a set, and sets with more members.

ghost use Rattle.std.specs.Prelude.{◌≡◌, ◌+◌, ◌-◌, true, map, IfOk};
ghost use Rattle.std.specs.List.{list_all};
ghost use Rattle.wd_step_facts.specs.declared.facts.Member.{Member as AMember};
ghost use Rattle.wd_step_facts.specs.Facts.{columns_named, is_plain, moved};
ghost use Rattle.wd_sets.specs.Reaches as reaching;
ghost use Rattle.wd_sets.specs.Sets.{has};
ghost use Rattle.wd_node_facts.specs.Seen.{seen_of};

use wd_facts::Member;
use wd_node_facts::NodeFacts;
use wd_sets::Set;
use wd_step_facts::moved_member;
use wd_value::OutOfMemory;

/// Whether the row is reached with these members.
pub(crate) fn has_row(split: Option<u16>, set: &Set) -> bool
    ensures { result ≡ reaching.has_row split (has set.now) }
{
    match split {
        None => set.contains(Member::Row),
        Some(_) => {
            set.contains(Member::Row) || (set.contains(Member::Left) && set.contains(Member::Right))
        }
    }
}

/// Whether a side of a Join reaches the column.
fn by_side(split: Option<u16>, columns: u16, set: &Set, column: u16) -> bool
    ensures { result ≡ reaching.by_side split columns (has set.now) column }
{
    match split {
        None => false,
        Some(split) => {
            (set.contains(Member::Left) && column < split)
                || (set.contains(Member::Right) && split <= column && column < columns)
        }
    }
}

/// Whether a member is reached with these members.
pub fn reaches(facts: &NodeFacts, set: &Set, member: Member) -> bool
    ensures { result ≡ reaching.reaches (seen_of facts.now) (has set.now) member }
{
    match member {
        Member::Column(column) => {
            set.contains(member)
                || by_side(facts.split, facts.columns, set, column)
                || has_row(facts.split, set)
        }
        Member::Left | Member::Right => set.contains(member) || has_row(facts.split, set),
        Member::Row => has_row(facts.split, set),
    }
}

/// Whether each of the members is reached with those of the set.
pub fn reaches_each(facts: &NodeFacts, set: &Set, members: &[Member]) -> bool
    ensures { result ≡ reaching.reaches_each (seen_of facts.now) (has set.now) members.now }
{
    for member in members {
        if !reaches(facts, set, *member) {
            return false;
        }
    }
    true
}

/// Adds members to a set.
#[tactic(auto, using(crate::proofs::Members::one_more))]
pub(crate) fn insert_each(set: &mut Set, members: &[Member]) -> Result<(), OutOfMemory>
    ensures { IfOk result (λ _. (m : AMember) → has set.new m ≡ reaching.also (has set.old) members.now m) }
{
    for member in members {
        set.insert(*member)?;
    }
    Ok(())
}

/// Whether each of a child's columns is reached with the members of the set.
pub(crate) fn reaches_columns(
    facts: &NodeFacts,
    set: &Set,
    by: u16,
    row: Member,
    columns: &[u16],
) -> bool
    requires { list_all (is_plain (65536 - by)) (columns_named columns.now) ≡ true }
    ensures { result ≡ reaching.reaches_each (seen_of facts.now) (has set.now) (map (moved (λ c. by + c) row) (columns_named columns.now)) }
{
    for column in columns {
        let member = moved_member(by, row, Member::Column(*column));
        if !reaches(facts, set, member) {
            return false;
        }
    }
    true
}

/// Adds a child's members, as they are numbered at the node above.
#[tactic(auto, using(crate::proofs::Members::one_more))]
pub(crate) fn insert_moved(
    set: &mut Set,
    by: u16,
    row: Member,
    members: &[Member],
) -> Result<(), OutOfMemory>
    requires { list_all (is_plain (65536 - by)) members.now ≡ true }
    ensures { IfOk result (λ _. (m : AMember) → has set.new m ≡ reaching.also (has set.old) (map (moved (λ c. by + c) row) members.now) m) }
{
    for member in members {
        set.insert(moved_member(by, row, *member))?;
    }
    Ok(())
}
