//! How a select is grouped, and what is below its windows.

ghost use Rattle.std.specs.Prelude.{◌≡◌, ◌*◌, ◌++◌, ◌∷◌, [], map, flat_map, min, nat_eq, nat_lt, option_map, IfOk};
ghost use Rattle.wd_plan.specs.Plans.{sets_of};
ghost use Rattle.wd_syntax.specs.View.{view_group_item, view_option, view_parts, view_set};
ghost use Rattle.wd_resolve_operand.specs.Causes.{Gives};
ghost use Rattle.wd_resolve_scope.specs.Grouped.{grouped_of};
ghost use Rattle.wd_resolve_call.specs.Rows.{row_expression_of};
ghost use Rattle.wd_resolve_scope.specs.Scopes.{scope_of};
ghost use Rattle.wd_resolve_list.specs.Grouping.{below_of};
ghost use Rattle.wd_resolve_list.specs.Grouping as spec;
ghost use Rattle.wd_resolve_list.specs.SelectLists.{grouped_by_of, with_new};

use crate::below::Below;
use crate::groups::add_having;
use crate::projected::is_group_wide;
use std::alloc::Global;
use std::cmp::max;
use wd_plan::has_column;
use wd_resolve_operand::{BoundExpression, Cause, ResolveError};
use wd_resolve_scope::{Grouped, RowReference, Scope, group_condition, is_grouped};
use wd_syntax as written;
use wd_syntax::{GroupColumn, GroupItem, GroupingSet, GroupingWord, Select};
use wd_value::OutOfMemory;

/// The most grouping sets of a select.
const MOST_SETS: usize = 64;

/// The columns that a select is grouped by, as numbers in FROM in order of first mention, and its sets of these.
#[derive(Drop)]
pub struct GroupedBy {
    pub columns: Vec<u16>,
    pub sets: Vec<Vec<u16>>,
}

impl Below {
    /// The columns that may appear in a grouped select.
    pub fn groups(&self) -> Option<Grouped<'_>>
        ensures { option_map grouped_of result ≡ option_map spec.grouped_rule (below_of self.now).grouped }
    {
        rule_of(&self.grouped)
    }
}

/// The columns that may appear in a grouped select.
fn rule_of(grouped: &Option<GroupedBy>) -> Option<Grouped<'_>>
    ensures { option_map grouped_of result ≡ option_map spec.grouped_rule (option_map grouped_by_of grouped.now) }
{
    match grouped {
        None => None,
        Some(grouped) => Some(Grouped {
            columns: &grouped.columns,
            other: Cause::NotGrouped,
        }),
    }
}

fn group_column(scope: &Scope, column: &GroupColumn) -> Result<u16, ResolveError>
    ensures { Gives (λ n. n) result (spec.group_column (scope_of scope.now) column.now) }
{
    let table = match &column.table {
        None => None,
        Some(table) => Some(&table.text),
    };
    let (number, _) = scope.column(table, &column.name.text)?;
    Ok(number)
}

fn group_columns(
    alloc: Global,
    scope: &Scope,
    columns: &[GroupColumn],
) -> Result<Vec<u16>, ResolveError>
    ensures { Gives (λ v. v.items) result (spec.group_columns (scope_of scope.now) columns.now) }
{
    let mut numbers = Vec::new(alloc);
    for column in columns {
        numbers.push(group_column(scope, column)?)?;
    }
    Ok(numbers)
}

fn resolve_set(alloc: Global, scope: &Scope, set: &GroupingSet) -> Result<Vec<u16>, ResolveError>
    ensures { Gives (λ v. v.items) result (spec.set_meant (scope_of scope.now) (view_set set.now)) }
{
    match set {
        GroupingSet::Column(column) => {
            let mut numbers = Vec::with_capacity(alloc, 1)?;
            numbers.push(group_column(scope, column)?)?;
            Ok(numbers)
        }
        GroupingSet::Columns(columns) => group_columns(alloc, scope, columns),
    }
}

fn resolve_sets(
    alloc: Global,
    scope: &Scope,
    sets: &[GroupingSet],
) -> Result<Vec<Vec<u16>>, ResolveError>
    ensures { Gives (λ v. sets_of v.items) result (spec.sets_meant (scope_of scope.now) (map view_set sets.now)) }
{
    let mut meant = Vec::new(alloc);
    for set in sets {
        meant.push(resolve_set(alloc, scope, set)?)?;
    }
    Ok(meant)
}

/// How many sets the word makes of `count` sets, at most 65.
fn number_of_sets(word: GroupingWord, count: usize) -> usize
    ensures { result ≡ min 65 (spec.count_made word count) }
{
    match word {
        GroupingWord::Rollup if count < MOST_SETS => count + 1,
        GroupingWord::Cube if count < 7 => 1 << count,
        GroupingWord::Sets if count <= MOST_SETS => max(count, 1),
        _ => MOST_SETS + 1,
    }
}

/// Whether `sets` sets, each with `others` others, are more than 64.
fn are_too_many(sets: usize, others: usize) -> bool
    ensures { result ≡ nat_lt 64 (sets * others) }
{
    others > 0 && sets > MOST_SETS / others
}

/// Adds the numbers that the list does not have.
fn add_columns(columns: &mut Vec<u16>, more: &[u16]) -> Result<(), OutOfMemory>
    ensures { IfOk result (λ u. columns.new.items ≡ with_new nat_eq columns.old.items more.now) }
{
    for number in more {
        if !has_column(columns, *number) {
            columns.push(*number)?;
        }
    }
    Ok(())
}

/// Adds the numbers of each set that the list does not have.
fn add_sets(columns: &mut Vec<u16>, sets: &[Vec<u16>]) -> Result<(), OutOfMemory>
    ensures { IfOk result (λ u. columns.new.items ≡ with_new nat_eq columns.old.items (flat_map (λ s. s) (sets_of sets.now))) }
{
    for set in sets {
        add_columns(columns, set)?;
    }
    Ok(())
}

/// The members of one set, followed by those of another.
fn unite(alloc: Global, set: &[u16], other: &[u16]) -> Result<Vec<u16>, OutOfMemory>
    ensures { IfOk result (λ v. v.items ≡ set.now ++ other.now) }
{
    let mut all = Vec::new(alloc);
    all.extend_from_slice(set)?;
    all.extend_from_slice(other)?;
    Ok(all)
}

/// A set with each of the others.
fn with_each(alloc: Global, set: &[u16], others: &[Vec<u16>]) -> Result<Vec<Vec<u16>>, OutOfMemory>
    ensures { IfOk result (λ v. sets_of v.items ≡ map (λ t. set.now ++ t) (sets_of others.now)) }
{
    let mut all = Vec::with_capacity(alloc, others.len())?;
    for other in others {
        all.push(unite(alloc, set, other)?)?;
    }
    Ok(all)
}

/// The list of the empty set alone.
fn empty_set(alloc: Global) -> Result<Vec<Vec<u16>>, OutOfMemory>
    ensures { IfOk result (λ v. sets_of v.items ≡ [] ∷ []) }
{
    let mut sets = Vec::with_capacity(alloc, 1)?;
    sets.push(Vec::new(alloc))?;
    Ok(sets)
}

/// All prefixes, the longest first.
fn roll_up(alloc: Global, sets: &[Vec<u16>]) -> Result<Vec<Vec<u16>>, OutOfMemory>
    ensures { IfOk result (λ v. sets_of v.items ≡ spec.roll_up (sets_of sets.now)) }
{
    let [set, others @ ..] = sets else {
        return empty_set(alloc);
    };
    let shorter = roll_up(alloc, others)?;
    let mut made = with_each(alloc, set, &shorter)?;
    let mut last = empty_set(alloc)?;
    made.append(&mut last)?;
    Ok(made)
}

/// All subsets: those with the first member before those without it.
fn all_subsets(alloc: Global, sets: &[Vec<u16>]) -> Result<Vec<Vec<u16>>, OutOfMemory>
    ensures { IfOk result (λ v. sets_of v.items ≡ spec.cubed (sets_of sets.now)) }
{
    let [set, others @ ..] = sets else {
        return empty_set(alloc);
    };
    let mut without = all_subsets(alloc, others)?;
    let mut made = with_each(alloc, set, &without)?;
    made.append(&mut without)?;
    Ok(made)
}

/// These sets; the empty set where there are none.
fn some_of(alloc: Global, sets: Vec<Vec<u16>>) -> Result<Vec<Vec<u16>>, OutOfMemory>
    ensures { IfOk result (λ v. sets_of v.items ≡ spec.some_of (sets_of sets.items)) }
{
    if sets.is_empty() {
        empty_set(alloc)
    } else {
        Ok(sets)
    }
}

/// The sets that a word makes of others: all prefixes, all subsets, or the sets themselves.
fn made_of(
    alloc: Global,
    word: GroupingWord,
    sets: Vec<Vec<u16>>,
) -> Result<Vec<Vec<u16>>, OutOfMemory>
    ensures { IfOk result (λ v. sets_of v.items ≡ spec.made_of word (sets_of sets.items)) }
{
    match word {
        GroupingWord::Rollup => roll_up(alloc, &sets),
        GroupingWord::Cube => all_subsets(alloc, &sets),
        GroupingWord::Sets => some_of(alloc, sets),
    }
}

/// Every set of one list with every set of another, those of the first list outermost.
fn cross_sets(
    alloc: Global,
    sets: &[Vec<u16>],
    others: &[Vec<u16>],
) -> Result<Vec<Vec<u16>>, OutOfMemory>
    ensures { IfOk result (λ v. sets_of v.items ≡ spec.cross_sets (sets_of sets.now) (sets_of others.now)) }
{
    let mut all = Vec::new(alloc);
    for set in sets {
        let mut more = with_each(alloc, set, others)?;
        all.append(&mut more)?;
    }
    Ok(all)
}

/// GROUP BY with a further member that has these sets; 419 where there are then more than 64 sets.
fn with_sets(
    alloc: Global,
    so_far: GroupedBy,
    word: GroupingWord,
    sets: Vec<Vec<u16>>,
) -> Result<GroupedBy, ResolveError>
    ensures { Gives grouped_by_of result (spec.with_sets (grouped_by_of so_far) word (sets_of sets.items)) }
{
    if are_too_many(so_far.sets.len(), number_of_sets(word, sets.len())) {
        return Err(ResolveError::Refused(Cause::TooManySets));
    }
    Ok(join_sets(alloc, so_far, word, sets)?)
}

/// GROUP BY with a further member that has these sets.
fn join_sets(
    alloc: Global,
    so_far: GroupedBy,
    word: GroupingWord,
    sets: Vec<Vec<u16>>,
) -> Result<GroupedBy, OutOfMemory>
    ensures { IfOk result (λ g. grouped_by_of g ≡ spec.join_sets (grouped_by_of so_far) word (sets_of sets.items)) }
{
    let GroupedBy {
        mut columns,
        sets: before,
    } = so_far;
    add_sets(&mut columns, &sets)?;
    let made = made_of(alloc, word, sets)?;
    let sets = cross_sets(alloc, &before, &made)?;
    Ok(GroupedBy { columns, sets })
}

fn add_group_item(
    alloc: Global,
    scope: &Scope,
    so_far: GroupedBy,
    item: &GroupItem,
) -> Result<GroupedBy, ResolveError>
    ensures { Gives grouped_by_of result (spec.item_grouped (scope_of scope.now) (grouped_by_of so_far) (view_group_item item.now)) }
{
    match item {
        GroupItem::Set(set) => {
            let mut sets = Vec::with_capacity(alloc, 1)?;
            sets.push(resolve_set(alloc, scope, set)?)?;
            with_sets(alloc, so_far, GroupingWord::Sets, sets)
        }
        GroupItem::Sets(word, members) => {
            let sets = resolve_sets(alloc, scope, members)?;
            with_sets(alloc, so_far, *word, sets)
        }
    }
}

/// How a select is grouped, if it is; without GROUP BY it has one set, which is empty.
pub fn resolve_group_by(
    alloc: Global,
    scope: &Scope,
    select: &Select,
) -> Result<Option<GroupedBy>, ResolveError>
    ensures { Gives (λ g. option_map grouped_by_of g) result (spec.grouped_meant (scope_of scope.now) (view_parts select.now)) }
{
    if !is_grouped(select) {
        return Ok(None);
    }
    Ok(Some(resolve_group_items(alloc, scope, &select.grouping.items)?))
}

/// The columns and sets of the members of GROUP BY; without members the empty set alone.
fn resolve_group_items(
    alloc: Global,
    scope: &Scope,
    items: &[GroupItem],
) -> Result<GroupedBy, ResolveError>
    ensures { Gives grouped_by_of result (spec.all_grouped (scope_of scope.now) spec.no_groups (map view_group_item items.now)) }
{
    let mut grouped = GroupedBy {
        columns: Vec::new(alloc),
        sets: empty_set(alloc)?,
    };
    for item in items {
        grouped = add_group_item(alloc, scope, grouped, item)?;
    }
    Ok(grouped)
}

/// What is below the windows of a select; 415 where HAVING makes a node too wide.
pub fn resolve_below(
    alloc: Global,
    scope: &Scope,
    grouped: Option<GroupedBy>,
    having: &Option<written::Expr>,
) -> Result<Below, ResolveError>
    ensures { Gives below_of result (spec.below_meant (scope_of scope.now) (option_map grouped_by_of grouped) (view_option having.now)) }
{
    let having = resolve_having(alloc, scope, &grouped, having)?;
    narrow_below(alloc, grouped, having)
}

/// The condition of HAVING, if there is one.
fn resolve_having(
    alloc: Global,
    scope: &Scope,
    grouped: &Option<GroupedBy>,
    having: &Option<written::Expr>,
) -> Result<Option<BoundExpression<RowReference>>, ResolveError>
    ensures { Gives (λ f. option_map row_expression_of f) result (spec.having_meant (scope_of scope.now) (option_map grouped_by_of grouped.now) (view_option having.now)) }
{
    match having {
        None => Ok(None),
        Some(tree) => {
            let condition = group_condition(alloc, scope, rule_of(grouped), tree)?;
            Ok(Some(condition))
        }
    }
}

fn narrow_below(
    alloc: Global,
    grouped: Option<GroupedBy>,
    having: Option<BoundExpression<RowReference>>,
) -> Result<Below, ResolveError>
    ensures { Gives below_of result (spec.narrow_below (record { grouped = option_map grouped_by_of grouped; having = option_map row_expression_of having })) }
{
    let mut calls = Vec::new(alloc);
    add_having(&mut calls, &having)?;
    if is_group_wide(&grouped, &calls) {
        Err(ResolveError::Refused(Cause::TooMany))
    } else {
        Ok(Below { grouped, having })
    }
}
