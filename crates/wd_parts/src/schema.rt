//! The parts of a schema.

use crate::part::{Neutral, Part, Walk};
use std::alloc::Global;
use wd_read_statements::{
    ColumnRule, Element, KeyWords, Nulls, Rule, WrittenColumn, WrittenKey, WrittenTable,
};
use wd_value::OutOfMemory;

/// The parts of a schema's tables that may be the cause of a refusal of this number.
pub fn schema_parts(
    alloc: Global,
    tables: &[WrittenTable],
    number: u32,
) -> Result<Vec<Part>, OutOfMemory> {
    let mut walk = Walk::new(alloc, number);
    for table in tables {
        add_table(&mut walk, table)?;
    }
    Ok(walk.parts)
}

/// Adds the parts of a table's declaration, and passes the semicolon after it.
fn add_table(walk: &mut Walk, table: &WrittenTable) -> Result<(), OutOfMemory> {
    let first = walk.at;
    walk.pass(2);
    let opened = walk.open(
        walk.number == 301 || walk.number == 306,
        first,
        Neutral::Nothing,
    )?;
    walk.pass(1);
    walk.show(opened);
    walk.pass(1);
    for (number, element) in table.elements.iter().enumerate() {
        let first = walk.at;
        if number > 0 {
            walk.pass(1);
        }
        add_element(walk, first, element)?;
    }
    walk.pass(2);
    walk.close(opened);
    Ok(())
}

/// Adds the parts of a member of a table; its tokens from `first` on, which begin with a comma, are replaced.
fn add_element(walk: &mut Walk, first: usize, element: &Element) -> Result<(), OutOfMemory> {
    match element {
        Element::Column(column) => add_column(walk, first, column),
        Element::Key(key) => add_key(walk, key),
    }
}

fn add_column(walk: &mut Walk, first: usize, column: &WrittenColumn) -> Result<(), OutOfMemory> {
    let neutral = if first < walk.at {
        Neutral::Nothing
    } else {
        Neutral::Column
    };
    let opened = walk.open(walk.number == 302 || walk.number == 306, first, neutral)?;
    walk.pass(1);
    walk.show(opened);
    walk.add(walk.number == 307, 1, Neutral::Type)?;
    for rule in &column.rules {
        add_rule(walk, rule)?;
    }
    walk.close(opened);
    Ok(())
}

/// Adds a rule of a column.
fn add_rule(walk: &mut Walk, rule: &ColumnRule) -> Result<(), OutOfMemory> {
    let first = walk.at;
    if rule.constraint.is_some() {
        walk.pass(2);
    }
    let (is_wanted, tokens) = match rule.rule {
        Rule::NotNull => (false, 2),
        Rule::Null => (walk.number == 308, 1),
        Rule::Key(words) => (is_of_key(walk.number, words), key_tokens(words)),
    };
    let opened = walk.open(is_wanted, first, Neutral::Nothing)?;
    walk.pass(tokens);
    walk.close(opened);
    Ok(())
}

/// Whether the words of a key may be the cause of a refusal of this number.
fn is_of_key(number: u32, words: KeyWords) -> bool {
    match words {
        KeyWords::Primary => number == 304 || number == 306,
        KeyWords::Unique(_) => number == 306,
    }
}

/// How many tokens the words of a key have.
fn key_tokens(words: KeyWords) -> usize {
    match words {
        KeyWords::Primary => 2,
        KeyWords::Unique(Nulls::Unsaid) => 1,
        KeyWords::Unique(Nulls::Distinct) => 3,
        KeyWords::Unique(Nulls::NotDistinct) => 4,
    }
}

/// Adds the parts of a key that is an element of its own.
fn add_key(walk: &mut Walk, key: &WrittenKey) -> Result<(), OutOfMemory> {
    let first = walk.at;
    if key.constraint.is_some() {
        walk.pass(2);
    }
    let whole = walk.open(is_of_key(walk.number, key.words), first, Neutral::Column)?;
    walk.pass(key_tokens(key.words));
    walk.show(whole);
    walk.pass(1);
    let mut one = None;
    for number in 0..key.columns.len() {
        let comma = walk.at;
        if number > 0 {
            walk.pass(1);
        }
        let is_wanted = walk.number == 303 || walk.number == 305;
        let opened = if number > 0 {
            walk.open(is_wanted, comma, Neutral::Nothing)?
        } else {
            walk.open(is_wanted, first, Neutral::Column)?
        };
        walk.pass(1);
        walk.show(opened);
        walk.close(opened);
        if number == 0 {
            one = opened;
        }
    }
    walk.pass(1);
    walk.close(one);
    walk.close(whole);
    Ok(())
}
