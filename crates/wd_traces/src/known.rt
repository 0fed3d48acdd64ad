//! The given facts of a node, and sets of the members on their long sides, with which a use takes a step for each word of 64 members.

ghost use Rattle.std.specs.Prelude.{◌≡◌, ◌+◌, ◌-◌, ◌<◌, ℕ, List, true, map, slice_get, IfOk, IfSome, IsTrue};
ghost use Rattle.std.specs.List.{list_all};
ghost use Rattle.wd_step_facts.specs.declared.facts.Member.{Member as AMember};
ghost use Rattle.wd_step_facts.specs.declared.facts.Member.TheVariants as member;
ghost use Rattle.wd_step_facts.specs.Facts.{columns_named, is_plain, moved};
ghost use Rattle.wd_sets.specs.Reaches as reaching;
ghost use Rattle.wd_sets.specs.Sets.{has};
ghost use Rattle.wd_node_facts.specs.Seen.{AreNarrow, IsNarrow, seen_of};
ghost use Rattle.wd_traces.specs.Known.{AreGivenSets, AreKnown, AreSets, AreSideSets, IsBetween, IsHalf, IsPut, IsSetOf, set_in};

use crate::reached::{has_row, insert_each, insert_moved, reaches_columns, reaches_each};
use std::alloc::Global;
use wd_facts::{Given, Member};
use wd_node_facts::{NodeFacts, Side, columns_of};
use wd_sets::Set;
use wd_step_facts::moved_member;
use wd_value::OutOfMemory;

/// The most members of a side of which no set is made.
const SHORT: usize = 32;

/// The same of the first facts: their numbers take few bytes, so that a text may use them often, and sets of so few take little memory.
const SHORT_OF_FIRST: usize = 8;

/// How many facts are the first ones.
const FIRST_FACTS: usize = 1 << 18;

/// Whether a set is made of so many members of a side of the fact with this number.
fn is_long(members: usize, number: usize) -> bool {
    members > SHORT || (members > SHORT_OF_FIRST && number < FIRST_FACTS)
}

/// The sets of the long sides of facts, by the numbers of the facts. (What a kept fact starts from goes by the number of its trace.)
#[derive(Drop)]
pub struct SideSets {
    pub from: Vec<Option<Box<Set>>>,
    pub to: Vec<Option<Box<Set>>>,
}

/// The given facts of a node with the sets of their long sides.
#[derive(Drop)]
pub struct Known {
    pub facts: NodeFacts,
    pub first: SideSets,
    pub left: SideSets,
    pub right: SideSets,
    pub last: SideSets,
    /// At a Join the columns of its left side; empty elsewhere.
    pub on_left: Set,
    /// The same of the right side.
    pub on_right: Set,
}

/// The set with a number, if there is one.
pub(crate) fn set_at(sets: &[Option<Box<Set>>], number: usize) -> Option<&Set>
    ensures { IfSome result (λ s. set_in (slice_get sets.now number) ≡ Some s.now) }
{
    match sets.get(number) {
        Some(Some(set)) => Some(set),
        _ => None,
    }
}

/// Puts a set at a number.
fn put(
    alloc: Global,
    sets: &mut Vec<Option<Box<Set>>>,
    number: usize,
    set: Set,
) -> Result<(), OutOfMemory>
    ensures { IfOk result (λ _. IsPut number set sets.old.items sets.new.items) }
{
    while sets.len() <= number {
        sets.push(None)?;
    }
    let boxed = Box::new(alloc, set)?;
    sets[number] = Some(boxed);
    Ok(())
}

/// Makes a set of a side of a fact with this number, where it is long.
#[tactic(auto, using(crate::proofs::Wide::put_sets, crate::proofs::Wide::set_made))]
fn add_side(
    alloc: Global,
    sets: &mut Vec<Option<Box<Set>>>,
    number: usize,
    members: &[Member],
) -> Result<(), OutOfMemory>
    ensures { IfOk result (λ _. (sides : ℕ → List AMember) → sides number ≡ members.now → AreSets sides sets.old.items → AreSets sides sets.new.items) }
{
    if is_long(members.len(), number) {
        let mut set = Set::new(alloc);
        insert_each(&mut set, members)?;
        put(alloc, sets, number, set)?;
    }
    Ok(())
}

/// Makes a set of a child's members, as they are numbered at the node above, where there are many.
#[tactic(auto, using(crate::proofs::Wide::put_sets, crate::proofs::Wide::set_made))]
fn add_moved(
    alloc: Global,
    sets: &mut Vec<Option<Box<Set>>>,
    number: usize,
    by: u16,
    row: Member,
    members: &[Member],
) -> Result<(), OutOfMemory>
    requires { list_all (is_plain (65536 - by)) members.now ≡ true }
    ensures { IfOk result (λ _. (sides : ℕ → List AMember) → sides number ≡ map (moved (λ c. by + c) row) members.now → AreSets sides sets.old.items → AreSets sides sets.new.items) }
{
    if is_long(members.len(), number) {
        let mut set = Set::new(alloc);
        insert_moved(&mut set, by, row, members)?;
        put(alloc, sets, number, set)?;
    }
    Ok(())
}

/// Adds a child's columns, as they are numbered at the node above.
#[tactic(auto, using(crate::proofs::Members::one_more))]
fn insert_columns(set: &mut Set, by: u16, row: Member, columns: &[u16]) -> Result<(), OutOfMemory>
    requires { list_all (is_plain (65536 - by)) (columns_named columns.now) ≡ true }
    ensures { IfOk result (λ _. (m : AMember) → has set.new m ≡ reaching.also (has set.old) (map (moved (λ c. by + c) row) (columns_named columns.now)) m) }
{
    for column in columns {
        set.insert(moved_member(by, row, Member::Column(*column)))?;
    }
    Ok(())
}

/// Makes a set of a child's columns, where there are many and there is none yet.
#[tactic(auto, using(crate::proofs::Wide::put_sets, crate::proofs::Wide::set_made))]
fn add_columns(
    alloc: Global,
    sets: &mut Vec<Option<Box<Set>>>,
    number: usize,
    by: u16,
    row: Member,
    columns: &[u16],
) -> Result<(), OutOfMemory>
    requires { list_all (is_plain (65536 - by)) (columns_named columns.now) ≡ true }
    ensures { IfOk result (λ _. (sides : ℕ → List AMember) → sides number ≡ map (moved (λ c. by + c) row) (columns_named columns.now) → AreSets sides sets.old.items → AreSets sides sets.new.items) }
{
    if is_long(columns.len(), number) && set_at(sets, number).is_none() {
        let mut set = Set::new(alloc);
        insert_columns(&mut set, by, row, columns)?;
        put(alloc, sets, number, set)?;
    }
    Ok(())
}

/// The sets of the long sides of facts that a node gives itself.
fn given_sets(alloc: Global, list: &[Given]) -> Result<SideSets, OutOfMemory>
    ensures { IfOk result (λ s. AreGivenSets list.now s) }
{
    let mut from = Vec::new(alloc);
    let mut to = Vec::new(alloc);
    for (number, fact) in list.iter().enumerate() {
        add_side(alloc, &mut from, number, &fact.from)?;
        add_side(alloc, &mut to, number, &fact.to)?;
    }
    Ok(SideSets { from, to })
}

/// The sets of the long sides of the facts that a child keeps.
fn side_sets(alloc: Global, side: &Side) -> Result<SideSets, OutOfMemory>
    requires { IsNarrow side.now }
    ensures { IfOk result (λ s. AreSideSets side.now s) }
{
    let mut from = Vec::new(alloc);
    let mut to = Vec::new(alloc);
    for (number, kept) in side.keeps.list.iter().enumerate() {
        let columns = columns_of(&side.keeps.traces, kept.trace);
        add_columns(alloc, &mut from, kept.trace, side.by, side.row, columns)?;
        add_moved(alloc, &mut to, number, side.by, side.row, &kept.to)?;
    }
    Ok(SideSets { from, to })
}

/// The columns between two numbers.
fn columns_between(alloc: Global, from: u16, to: u16) -> Result<Set, OutOfMemory>
    ensures { IfOk result (λ s. IsBetween from to s) }
{
    let mut set = Set::new(alloc);
    for column in from..to {
        set.insert(Member::Column(column))?;
    }
    Ok(set)
}

/// The columns of the left side of a Join; none elsewhere.
#[tactic(auto, using(crate::proofs::Wide::no_half, crate::proofs::Wide::left_half))]
fn columns_on_left(alloc: Global, facts: &NodeFacts) -> Result<Set, OutOfMemory>
    ensures { IfOk result (λ s. IsHalf member.Left facts.now.split facts.now.columns s) }
{
    match facts.split {
        None => Ok(Set::new(alloc)),
        Some(split) => columns_between(alloc, 0, split),
    }
}

/// The columns of the right side of a Join; none elsewhere.
#[tactic(auto, using(crate::proofs::Wide::no_half, crate::proofs::Wide::right_half))]
fn columns_on_right(alloc: Global, facts: &NodeFacts) -> Result<Set, OutOfMemory>
    ensures { IfOk result (λ s. IsHalf member.Right facts.now.split facts.now.columns s) }
{
    match facts.split {
        None => Ok(Set::new(alloc)),
        Some(split) => columns_between(alloc, split, facts.columns),
    }
}

/// The given facts of a node with the sets of their long sides.
///
/// # Errors
/// Out of memory.
pub fn with_sets(alloc: Global, facts: NodeFacts) -> Result<Known, OutOfMemory>
    requires { AreNarrow facts }
    ensures facts { IfOk result (λ k. k.facts ≡ facts) }
    ensures known { IfOk result AreKnown }
{
    let first = given_sets(alloc, &facts.first)?;
    let left = side_sets(alloc, &facts.left)?;
    let right = side_sets(alloc, &facts.right)?;
    let last = given_sets(alloc, &facts.last)?;
    let on_left = columns_on_left(alloc, &facts)?;
    let on_right = columns_on_right(alloc, &facts)?;
    Ok(Known {
        facts,
        first,
        left,
        right,
        last,
        on_left,
        on_right,
    })
}

/// Whether a set of members is reached, by a look at whole words: true only where each of them is.
fn is_covered(known: &Known, set: &Set, wide: &Set) -> bool
    requires { AreKnown known.now }
    ensures { IsTrue result → (m : AMember) → has wide.now m ≡ true → reaching.reaches (seen_of known.now.facts) (has set.now) m ≡ true }
{
    if has_row(known.facts.split, set) {
        return true;
    }
    if set.contains(Member::Left) {
        wide.is_within(set, &known.on_left)
    } else if set.contains(Member::Right) {
        wide.is_within(set, &known.on_right)
    } else {
        wide.is_within(set, set)
    }
}

/// Whether each member of a side is reached, which the set has if there is one.
#[tactic(auto, using(crate::proofs::Wide::all_covered))]
pub(crate) fn reaches_side(known: &Known, set: &Set, wide: Option<&Set>, members: &[Member]) -> bool
    requires known { AreKnown known.now }
    requires wide { IfSome wide (λ s. IsSetOf s.now members.now) }
    ensures { result ≡ reaching.reaches_each (seen_of known.now.facts) (has set.now) members.now }
{
    match wide {
        Some(wide) if is_covered(known, set, wide) => true,
        _ => reaches_each(&known.facts, set, members),
    }
}

/// The same of a child's columns, as they are numbered at the node above.
#[tactic(auto, using(crate::proofs::Wide::all_covered))]
pub(crate) fn reaches_columns_side(
    known: &Known,
    set: &Set,
    wide: Option<&Set>,
    by: u16,
    row: Member,
    columns: &[u16],
) -> bool
    requires known { AreKnown known.now }
    requires plain { list_all (is_plain (65536 - by)) (columns_named columns.now) ≡ true }
    requires wide { IfSome wide (λ s. IsSetOf s.now (map (moved (λ c. by + c) row) (columns_named columns.now))) }
    ensures { result ≡ reaching.reaches_each (seen_of known.now.facts) (has set.now) (map (moved (λ c. by + c) row) (columns_named columns.now)) }
{
    match wide {
        Some(wide) if is_covered(known, set, wide) => true,
        _ => reaches_columns(&known.facts, set, by, row, columns),
    }
}

/// Adds the members of a side, which the set has if there is one.
pub(crate) fn insert_side(
    set: &mut Set,
    wide: Option<&Set>,
    members: &[Member],
) -> Result<(), OutOfMemory>
    requires { IfSome wide (λ s. IsSetOf s.now members.now) }
    ensures { IfOk result (λ _. (m : AMember) → has set.new m ≡ reaching.also (has set.old) members.now m) }
{
    match wide {
        Some(wide) => set.insert_all(wide),
        None => insert_each(set, members),
    }
}

/// The same of a child's members, as they are numbered at the node above.
pub(crate) fn insert_moved_side(
    set: &mut Set,
    wide: Option<&Set>,
    by: u16,
    row: Member,
    members: &[Member],
) -> Result<(), OutOfMemory>
    requires plain { list_all (is_plain (65536 - by)) members.now ≡ true }
    requires wide { IfSome wide (λ s. IsSetOf s.now (map (moved (λ c. by + c) row) members.now)) }
    ensures { IfOk result (λ _. (m : AMember) → has set.new m ≡ reaching.also (has set.old) (map (moved (λ c. by + c) row) members.now) m) }
{
    match wide {
        Some(wide) => set.insert_all(wide),
        None => insert_moved(set, by, row, members),
    }
}
