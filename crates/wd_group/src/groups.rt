//! The groups of rows: those with the same number.

ghost use Rattle.std.specs.Prelude.{◌≡◌, ℕ, ◌<◌, ◌++◌, [], ◌∷◌, All, IfOk, OnOk, get_or, length, set, slice_index};
ghost use Rattle.wd_group.specs.Groups as spec;
ghost use Rattle.wd_group.specs.Groups.{AreLists, lists_of};

use std::alloc::Global;
use wd_sort::Coding;
use wd_value::OutOfMemory;

/// For each row its number, and for each number the positions of the rows that have it.
#[derive(Drop)]
pub(crate) struct Groups {
    numbers: Vec<u64>,
    lists: Vec<Vec<u64>>,
}

impl Groups {
    /// The positions of the rows of the group of the row at a position.
    pub(crate) fn own(&self, position: usize) -> &[u64]
        ensures { result.now ≡ spec.own_list self.now position }
    {
        list_at(&self.lists, number_at(&self.numbers, position))
    }
}

fn number_at(numbers: &[u64], position: usize) -> u64
    ensures { result ≡ slice_index numbers.now position }
{
    match numbers.get(position) {
        Some(number) => *number,
        None => 0,
    }
}

fn list_at(lists: &[Vec<u64>], number: u64) -> &[u64]
    ensures { result.now ≡ spec.list_at (lists_of lists.now) number }
{
    match lists.get(number as usize) {
        Some(list) => list,
        None => &[],
    }
}

/// The groups of rows with these numbers. Goes over the rows once.
pub(crate) fn groups_by(alloc: Global, numbers: Coding) -> Result<Groups, OutOfMemory>
    requires { (p : ℕ) → p < length numbers.codes.items → get_or numbers.codes.items p 0 < numbers.bound }
    ensures numbers { IfOk result (λ g. g.numbers.items ≡ numbers.codes.items) }
    ensures lists { IfOk result (λ g. AreLists numbers.codes.items numbers.bound (lists_of g.lists.items)) }
{
    let Coding { codes, bound } = numbers;
    let lists = lists_by(alloc, &codes, bound)?;
    Ok(Groups {
        numbers: codes,
        lists,
    })
}

/// For each number below the bound the positions that have it, in order.
fn lists_by(alloc: Global, numbers: &[u64], bound: u64) -> Result<Vec<Vec<u64>>, OutOfMemory>
    requires { (p : ℕ) → p < length numbers.now → get_or numbers.now p 0 < bound }
    ensures { IfOk result (λ v. AreLists numbers.now bound (lists_of v.items)) }
{
    let mut lists = empty_lists(alloc, bound)?;
    for position in 0..numbers.len() {
        push_to(&mut lists, numbers[position], position as u64)?;
    }
    Ok(lists)
}

/// `count` lists without elements.
fn empty_lists(alloc: Global, count: u64) -> Result<Vec<Vec<u64>>, OutOfMemory>
    ensures long { IfOk result (λ v. length (lists_of v.items) ≡ count) }
    ensures empty { IfOk result (λ v. All (λ l. length l ≡ 0) (lists_of v.items)) }
{
    let mut lists = Vec::with_capacity(alloc, count as usize)?;
    for _ in 0..count {
        lists.push(Vec::new(alloc))?;
    }
    Ok(lists)
}

/// Appends a position to the list of a number.
fn push_to(lists: &mut Vec<Vec<u64>>, number: u64, position: u64) -> Result<(), OutOfMemory>
    requires { number < length (lists_of lists.old.items) }
    ensures { OnOk result (lists_of lists.new.items ≡ set (lists_of lists.old.items) number (spec.list_at (lists_of lists.old.items) number ++ position ∷ [])) }
{
    push_position(&mut lists[number as usize], position)?;
    Ok(())
}

fn push_position(list: &mut Vec<u64>, position: u64) -> Result<(), OutOfMemory>
    ensures { OnOk result (list.new.items ≡ list.old.items ++ position ∷ []) }
{
    list.push(position)?;
    Ok(())
}
