//! The parts of a query.

use crate::expression::{add_expression, add_window, pass_direction};
use crate::part::{Neutral, Part, Walk};
use std::alloc::Global;
use wd_syntax::{
    Alias, Count, GroupColumn, GroupItem, Grouping, GroupingSet, GroupingWord, Item, Joined,
    Limits, Name, NamedWindow, Offset, Query, Select, SortKey, Table,
};
use wd_value::OutOfMemory;

/// The parts of a query that may be the cause of a refusal of this number.
pub fn query_parts(alloc: Global, query: &Query, number: u32) -> Result<Vec<Part>, OutOfMemory> {
    let mut walk = Walk::new(alloc, number);
    add_select(alloc, &mut walk, &query.select)?;
    Ok(walk.parts)
}

/// Adds the parts of a select: those of its list come after those of its FROM and of all up to its WINDOW.
#[cycle(select)]
fn add_select(alloc: Global, walk: &mut Walk, select: &Select) -> Result<(), OutOfMemory> {
    walk.pass(if select.quantifier.is_some() { 2 } else { 1 });
    let items = walk.parts.len();
    add_items(walk, &select.items)?;
    let from = walk.parts.len();
    walk.pass(1);
    add_table(alloc, walk, &select.from.first)?;
    add_joins(alloc, walk, &select.from.joined)?;
    add_after_from(walk, select)?;
    walk.put_after(alloc, items, from)?;
    add_order(walk, &select.order)?;
    add_limits(walk, select.limits)
}

/// Adds the parts of WHERE, GROUP BY, HAVING and WINDOW.
fn add_after_from(walk: &mut Walk, select: &Select) -> Result<(), OutOfMemory> {
    if let Some(filter) = &select.filter {
        walk.pass(1);
        add_expression(walk, filter)?;
    }
    add_grouping(walk, &select.grouping)?;
    add_windows(walk, &select.windows)
}

/// Adds the parts of a select list.
fn add_items(walk: &mut Walk, items: &[Item]) -> Result<(), OutOfMemory> {
    for (number, item) in items.iter().enumerate() {
        let first = walk.at;
        let neutral = if number > 0 {
            walk.pass(1);
            Neutral::Nothing
        } else {
            Neutral::Null
        };
        let opened = walk.open(walk.number == 415, first, neutral)?;
        add_item(walk, item)?;
        walk.close(opened);
    }
    Ok(())
}

/// Adds the parts of a member of a select list.
fn add_item(walk: &mut Walk, item: &Item) -> Result<(), OutOfMemory> {
    match item {
        Item::All => walk.add(walk.number == 417, 1, Neutral::Null),
        Item::AllOf(_) => walk.add(walk.number == 401 || walk.number == 417, 3, Neutral::Null),
        Item::Expr(tree, alias) => {
            add_expression(walk, tree)?;
            if let Some(alias) = alias {
                walk.pass(if alias.with_as { 2 } else { 1 });
            }
            Ok(())
        }
    }
}

/// Adds the parts of a table of FROM.
#[cycle(select)]
fn add_table(alloc: Global, walk: &mut Walk, table: &Table) -> Result<(), OutOfMemory> {
    match table {
        Table::Named(_, Some(alias)) => {
            walk.add(walk.number == 401, 1, Neutral::Table)?;
            add_alias(walk, alias)
        }
        Table::Named(_, None) => {
            let neutral = if walk.number == 401 {
                Neutral::Table
            } else {
                Neutral::Called
            };
            walk.add(walk.number == 401 || walk.number == 403, 1, neutral)
        }
        Table::Derived(select, alias) => {
            walk.pass(1);
            add_select(alloc, walk, select)?;
            walk.pass(1);
            add_alias(walk, alias)
        }
    }
}

/// Adds the name that FROM gives to a table.
fn add_alias(walk: &mut Walk, alias: &Alias) -> Result<(), OutOfMemory> {
    if alias.with_as {
        walk.pass(1);
    }
    walk.add(walk.number == 403, 1, Neutral::Name)
}

/// Adds the parts of the tables that are joined to the first one.
#[cycle(select)]
fn add_joins(alloc: Global, walk: &mut Walk, joins: &[Joined]) -> Result<(), OutOfMemory> {
    for join in joins {
        let first = walk.at;
        let (words, table, on) = match join {
            Joined::Comma(table) => (1, table, None),
            Joined::Cross(table) => (2, table, None),
            Joined::Inner(true, table, on) => (2, table, Some(on)),
            Joined::Inner(false, table, on) => (1, table, Some(on)),
        };
        walk.pass(words);
        let opened = walk.open(walk.number == 415, first, Neutral::Nothing)?;
        add_table(alloc, walk, table)?;
        walk.show(opened);
        if let Some(on) = on {
            walk.pass(1);
            add_expression(walk, on)?;
        }
        walk.close(opened);
    }
    Ok(())
}

/// Adds the parts of GROUP BY and HAVING.
fn add_grouping(walk: &mut Walk, grouping: &Grouping) -> Result<(), OutOfMemory> {
    for (number, item) in grouping.items.iter().enumerate() {
        let first = walk.at;
        walk.pass(if number > 0 { 1 } else { 2 });
        let opened = walk.open(
            walk.number == 415 || walk.number == 419,
            first,
            Neutral::Nothing,
        )?;
        add_group_item(walk, item)?;
        walk.close(opened);
    }
    if let Some(having) = &grouping.having {
        walk.pass(1);
        let opened = walk.open(walk.number == 415, walk.at, Neutral::Null)?;
        add_expression(walk, having)?;
        walk.close(opened);
    }
    Ok(())
}

/// Adds the parts of a member of GROUP BY.
fn add_group_item(walk: &mut Walk, item: &GroupItem) -> Result<(), OutOfMemory> {
    match item {
        GroupItem::Set(set) => add_set(walk, set),
        GroupItem::Sets(word, sets) => {
            walk.pass(match word {
                GroupingWord::Rollup | GroupingWord::Cube => 2,
                GroupingWord::Sets => 3,
            });
            for (number, set) in sets.iter().enumerate() {
                if number > 0 {
                    walk.pass(1);
                }
                add_set(walk, set)?;
            }
            walk.pass(1);
            Ok(())
        }
    }
}

/// Adds the parts of columns that are grouped by together.
fn add_set(walk: &mut Walk, set: &GroupingSet) -> Result<(), OutOfMemory> {
    match set {
        GroupingSet::Column(column) => add_column(walk, walk.at, column, Neutral::Brackets),
        GroupingSet::Columns(columns) => {
            walk.pass(1);
            for (number, column) in columns.iter().enumerate() {
                let first = walk.at;
                if number > 0 {
                    walk.pass(1);
                }
                add_column(walk, first, column, Neutral::Nothing)?;
            }
            walk.pass(1);
            Ok(())
        }
    }
}

/// Adds a column that is grouped by.
fn add_column(
    walk: &mut Walk,
    first: usize,
    column: &GroupColumn,
    neutral: Neutral,
) -> Result<(), OutOfMemory> {
    let opened = walk.open(walk.number == 402 || walk.number == 403, first, neutral)?;
    walk.pass(if column.table.is_some() { 3 } else { 1 });
    walk.close(opened);
    Ok(())
}

/// Adds the parts of WINDOW.
fn add_windows(walk: &mut Walk, windows: &[NamedWindow]) -> Result<(), OutOfMemory> {
    for named in windows {
        walk.pass(1);
        walk.add(walk.number == 407, 1, Neutral::Name)?;
        walk.pass(1);
        add_window(walk, &named.window)?;
    }
    Ok(())
}

/// Whether a final sort key may be the cause of a refusal of this number.
fn is_of_sort_key(number: u32) -> bool {
    matches!(number, 412 | 414 | 415)
}

/// Adds the parts of the final ORDER BY.
fn add_order(walk: &mut Walk, keys: &[SortKey]) -> Result<(), OutOfMemory> {
    for (number, key) in keys.iter().enumerate() {
        let first = walk.at;
        walk.pass(if number > 0 { 1 } else { 2 });
        let opened = walk.open(is_of_sort_key(walk.number), first, Neutral::Nothing)?;
        add_expression(walk, &key.expr)?;
        walk.show(opened);
        pass_direction(walk, key);
        walk.close(opened);
    }
    Ok(())
}

/// Adds the parts of an offset and a count, in the order in which they are written.
fn add_limits(walk: &mut Walk, limits: Option<Limits>) -> Result<(), OutOfMemory> {
    match limits {
        None => Ok(()),
        Some(Limits::OffsetFirst(offset, count)) => {
            add_offset(walk, Some(offset))?;
            add_count(walk, count)
        }
        Some(Limits::CountFirst(count, offset)) => {
            add_count(walk, Some(count))?;
            add_offset(walk, offset)
        }
    }
}

fn add_offset(walk: &mut Walk, offset: Option<Offset>) -> Result<(), OutOfMemory> {
    let Some(offset) = offset else {
        return Ok(());
    };
    walk.pass(1);
    walk.add(walk.number == 404, 1, Neutral::One)?;
    if offset.word.is_some() {
        walk.pass(1);
    }
    Ok(())
}

fn add_count(walk: &mut Walk, count: Option<Count>) -> Result<(), OutOfMemory> {
    match count {
        None => Ok(()),
        Some(Count::Limit(_)) => {
            walk.pass(1);
            walk.add(walk.number == 404, 1, Neutral::One)
        }
        Some(
            Count::Fetch {
                number,
                with_ties,
                ..
            },
        ) => {
            walk.pass(2);
            if number.is_some() {
                walk.add(walk.number == 404, 1, Neutral::One)?;
            }
            walk.pass(1);
            let tokens = if with_ties { 2 } else { 1 };
            walk.add(walk.number == 413, tokens, Neutral::Only)
        }
    }
}
