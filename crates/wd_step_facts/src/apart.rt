//! Whether the calls of GROUPING distinguish the sets of a Group. Each column is looked up once in each set; then the sets are compared
//! by the marks of their columns.

ghost use Rattle.std.specs.Prelude.{◌≡◌, [], map, IfOk};
ghost use Rattle.std.specs.List.{list_all};
ghost use Rattle.wd_plan.specs.Plans.{group_call_of, has, sets_of};
ghost use Rattle.wd_step_facts.specs.Apart.{are_marked_apart, differ, marked_sets, marks, with_new};
ghost use Rattle.wd_step_facts.specs.Steps as spec;

use std::alloc::Global;
use wd_plan::{GroupCall, has_column};
use wd_value::OutOfMemory;

/// Whether every two of the sets differ in an argument of a call of GROUPING.
#[tactic(auto, using(crate::proofs::ToldApart::by_distinct, crate::proofs::ToldApart::by_marks))]
pub fn are_told_apart(
    alloc: Global,
    calls: &[GroupCall],
    sets: &[Vec<u16>],
) -> Result<bool, OutOfMemory>
    ensures { IfOk result (λ apart. apart ≡ spec.are_told_apart (spec.grouping_arguments (map group_call_of calls.now)) (sets_of sets.now)) }
{
    let columns = arguments(alloc, calls)?;
    let marked = all_marks(alloc, sets, &columns)?;
    Ok(are_apart(&marked))
}

/// The columns that are arguments of GROUPING, each once.
fn arguments(alloc: Global, calls: &[GroupCall]) -> Result<Vec<u16>, OutOfMemory>
    ensures { IfOk result (λ v. v.items ≡ with_new (spec.grouping_arguments (map group_call_of calls.now)) []) }
{
    let mut list = Vec::new(alloc);
    for call in calls {
        add_arguments(call, &mut list)?;
    }
    Ok(list)
}

/// Appends the arguments of a call that the list does not have.
fn add_arguments(call: &GroupCall, list: &mut Vec<u16>) -> Result<(), OutOfMemory>
    ensures { IfOk result (λ _. list.new.items ≡ with_new (spec.grouping_arguments_of (group_call_of call.now)) list.old.items) }
{
    match call {
        GroupCall::OfRows(_) => Ok(()),
        GroupCall::Grouping(arguments) => add_new(arguments, list),
    }
}

/// Appends the columns that the list does not have.
fn add_new(columns: &[u16], list: &mut Vec<u16>) -> Result<(), OutOfMemory>
    ensures { IfOk result (λ _. list.new.items ≡ with_new columns.now list.old.items) }
{
    for column in columns {
        if !has_column(list, *column) {
            list.push(*column)?;
        }
    }
    Ok(())
}

/// The marks of each set.
fn all_marks(
    alloc: Global,
    sets: &[Vec<u16>],
    columns: &[u16],
) -> Result<Vec<Vec<bool>>, OutOfMemory>
    ensures { IfOk result (λ v. marked_sets v.items ≡ map (marks columns.now) (sets_of sets.now)) }
{
    let mut marked = Vec::with_capacity(alloc, sets.len())?;
    for set in sets {
        marked.push(marks_of(alloc, set, columns)?)?;
    }
    Ok(marked)
}

/// For each of the columns, whether the set has it.
fn marks_of(alloc: Global, set: &[u16], columns: &[u16]) -> Result<Vec<bool>, OutOfMemory>
    ensures { IfOk result (λ v. v.items ≡ marks columns.now set.now) }
{
    let mut marks = Vec::with_capacity(alloc, columns.len())?;
    for column in columns {
        marks.push(has_column(set, *column))?;
    }
    Ok(marks)
}

/// Whether every two rows of marks differ.
fn are_apart(marked: &[Vec<bool>]) -> bool
    ensures { result ≡ are_marked_apart (marked_sets marked.now) }
{
    for number in 0..marked.len() {
        if !differs_from_each(&marked[number], &marked[number + 1..]) {
            return false;
        }
    }
    true
}

/// Whether a row of marks differs from each of the others.
fn differs_from_each(marks: &[bool], others: &[Vec<bool>]) -> bool
    ensures { result ≡ list_all (differ marks.now) (marked_sets others.now) }
{
    for other in others {
        if !are_unlike(marks, other) {
            return false;
        }
    }
    true
}

/// Whether two rows of marks differ at a place that both have.
#[tactic(auto, using(crate::proofs::ToldApart::differ_past))]
fn are_unlike(marks: &[bool], others: &[bool]) -> bool
    ensures { result ≡ differ marks.now others.now }
{
    for place in 0..marks.len().min(others.len()) {
        if marks[place] != others[place] {
            return true;
        }
    }
    false
}
