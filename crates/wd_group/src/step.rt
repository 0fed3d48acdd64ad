//! The rows of all sets.

ghost use Rattle.std.specs.Prelude.{◌≡◌, ◌^◌, ◌<◌, Err, IfOk, OnOk, false, length, true};
ghost use Rattle.wd_group.specs.Gathered.{AreAdded};
ghost use Rattle.wd_group.specs.Numbered.{AreNumbersOfEach};
ghost use Rattle.wd_group.specs.Sets as sets;
ghost use Rattle.wd_group.specs.Sets.{AreGroups, set_class};
ghost use Rattle.wd_join.specs.Joins.{has_more_rows};
ghost use Rattle.wd_join.specs.declared.error.StepError.TheVariants as error;
ghost use Rattle.wd_plan.specs.Outcomes as spec;
ghost use Rattle.wd_plan.specs.Plans.{HaveMasks, grouping_of};

use crate::gathered::{Gathered, add, nothing, rows_within};
use crate::groups::{Groups, groups_by};
use crate::numbered::{column_numbers, row_numbers};
use crate::row::group_row;
use std::alloc::Global;
use wd_columns::{Columns, RowSource, all_positions};
use wd_join::StepError;
use wd_plan::{Group, has_column};
use wd_sort::Coding;
use wd_value::{Fault, OutOfMemory};

/// For each set in order the rows of its groups, in the order of their first rows, or the least fault of the calls; or the error that
/// there are more than `most` rows (SQL, group by clause). Takes time linear in the rows, for each set: each value is looked up once
/// for all sets, and no two texts are compared in order. Rows past the most are not kept.
pub fn group_rows(
    alloc: Global,
    group: &Group,
    rows: &RowSource,
    most: u64,
) -> Result<Result<Columns, Fault>, StepError>
    requires few { length rows.now < 2 ^ 32 }
    requires masks { HaveMasks (grouping_of group.now) }
    ensures outcome { IfOk result (λ o. o ≡ spec.group_outcome (grouping_of group.now) rows.now) }
    ensures within { IfOk result (λ o. has_more_rows most o ≡ false) }
    ensures too_many { result ≡ Err error.TooManyRows → has_more_rows most (spec.group_outcome (grouping_of group.now) rows.now) ≡ true }
{
    let numbers = column_numbers(alloc, rows, group.columns)?;
    let mut gathered = nothing(alloc, row_width(group)?)?;
    for set in &group.sets {
        add_set(alloc, group, set, rows, &numbers, most, &mut gathered)?;
    }
    rows_within(gathered, most)
}

/// How many values the row of a group has.
fn row_width(group: &Group) -> Result<usize, OutOfMemory>
    ensures { IfOk result (λ n. n ≡ sets.row_width (grouping_of group.now)) }
{
    (group.columns as usize)
        .checked_add(group.calls.len())
        .ok_or(OutOfMemory)
}

/// The rows of a set's groups. The empty set has one group of all rows, also where there are none.
fn add_set(
    alloc: Global,
    group: &Group,
    set: &[u16],
    rows: &RowSource,
    numbers: &[Coding],
    most: u64,
    gathered: &mut Gathered,
) -> Result<(), OutOfMemory>
    requires masks { HaveMasks (grouping_of group.now) }
    requires numbers { AreNumbersOfEach group.now.columns rows.now numbers.now }
    ensures { OnOk result (AreAdded (sets.row_width (grouping_of group.now)) most (spec.set_rows (grouping_of group.now) rows.now set.now) gathered.old gathered.new) }
{
    if set.is_empty() {
        let all = all_positions(alloc, rows.len())?;
        let row = group_row(alloc, group, set, rows, 0, &all)?;
        return add(gathered, row, most);
    }
    let found = set_groups(alloc, group.columns, set, rows, numbers)?;
    add_groups(alloc, group, set, rows, &found, most, gathered)
}

/// The groups of the rows under a set.
fn set_groups(
    alloc: Global,
    columns: u16,
    set: &[u16],
    rows: &RowSource,
    numbers: &[Coding],
) -> Result<Groups, OutOfMemory>
    requires numbers { AreNumbersOfEach columns rows.now numbers.now }
    ensures { IfOk result (λ g. AreGroups (set_class columns set.now) rows.now g) }
{
    let own = set_columns(alloc, columns, set)?;
    let joined = row_numbers(alloc, rows, numbers, &own)?;
    let groups = groups_by(alloc, joined)?;
    Ok(groups)
}

/// The columns of a set among the first `columns`.
fn set_columns(alloc: Global, columns: u16, set: &[u16]) -> Result<Vec<u16>, OutOfMemory>
    ensures { IfOk result (λ v. v.items ≡ sets.set_columns columns set.now) }
{
    let mut found = Vec::new(alloc);
    for column in 0..columns {
        if has_column(set, column) {
            found.push(column)?;
        }
    }
    Ok(found)
}

/// The rows of a set's groups.
fn add_groups(
    alloc: Global,
    group: &Group,
    set: &[u16],
    rows: &RowSource,
    found: &Groups,
    most: u64,
    gathered: &mut Gathered,
) -> Result<(), OutOfMemory>
    requires masks { HaveMasks (grouping_of group.now) }
    requires found { AreGroups (set_class group.now.columns set.now) rows.now found.now }
    ensures { OnOk result (AreAdded (sets.row_width (grouping_of group.now)) most (sets.rows_from (grouping_of group.now) set.now rows.now (length rows.now)) gathered.old gathered.new) }
{
    for position in 0..rows.len() {
        add_group(alloc, group, set, rows, found, position, most, gathered)?;
    }
    Ok(())
}

/// The row of the group whose first row is at a position, where there is one.
fn add_group(
    alloc: Global,
    group: &Group,
    set: &[u16],
    rows: &RowSource,
    found: &Groups,
    position: usize,
    most: u64,
    gathered: &mut Gathered,
) -> Result<(), OutOfMemory>
    requires masks { HaveMasks (grouping_of group.now) }
    requires found { AreGroups (set_class group.now.columns set.now) rows.now found.now }
    requires within { position < length rows.now }
    ensures { OnOk result (AreAdded (sets.row_width (grouping_of group.now)) most (sets.row_from (grouping_of group.now) set.now rows.now position) gathered.old gathered.new) }
{
    let own = found.own(position);
    if !begins_at(own, position) {
        return Ok(());
    }
    let row = group_row(alloc, group, set, rows, position as u64, own)?;
    add(gathered, row, most)
}

/// Whether a position is the first of a list.
fn begins_at(positions: &[u64], position: usize) -> bool
    ensures { result ≡ sets.begins_at positions.now position }
{
    match positions.first() {
        Some(first) => *first == position as u64,
        None => false,
    }
}
