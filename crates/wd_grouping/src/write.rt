//! The select that replaces one with GROUP BY.

ghost use Rattle.std.specs.Prelude.{◌≡◌, ◌∷◌, ◌++◌, [], map, option_map};
ghost use Rattle.wd_clauses.specs.Given.{Makes, Writes};
ghost use Rattle.wd_grouping.specs.Named.{group_key, grouped_pieces, one_table};
ghost use Rattle.wd_grouping.specs.Written as spec;

use crate::key::Key;
use crate::replace::{add_items, add_qualified, add_replaced};
use crate::select::Grouped;
use crate::source::OneTable;
use std::alloc::Global;
use wd_clauses::{RespellError, add, add_all, add_copy, added_terminal, copy_tokens};
use wd_distinct_on::{add_all_placed, add_name, add_placed, add_terminals};
use wd_lex::{Terminal, Token};

/// Adds what a key groups by.
fn add_key(
    alloc: Global,
    written: &mut Vec<Token>,
    key: &Key,
    table: Option<&Token>,
    word: &Token,
) -> Result<(), RespellError>
    ensures { Writes written.old.items written.new.items result (spec.key_by (option_map (λ table. table.now) table.entry) word.now (group_key key.now).value (group_key key.now).name) }
{
    match key.name {
        Some(name) => add_name(alloc, written, name, word),
        None => add_qualified(written, table, key.value),
    }
}

/// Adds what keys group by, one after another.
fn add_listed(
    alloc: Global,
    written: &mut Vec<Token>,
    keys: &[Key],
    table: Option<&Token>,
    word: &Token,
) -> Result<(), RespellError>
    ensures { Writes written.old.items written.new.items result (spec.listed (map group_key keys.now) (option_map (λ table. table.now) table.entry) word.now) }
{
    let mut rest = keys;
    while let [key, after @ ..] = rest {
        add_key(alloc, written, key, table, word)?;
        if !after.is_empty() {
            add(written, added_terminal(Terminal::Comma, word))?;
        }
        rest = after;
    }
    Ok(())
}

/// Adds `GROUP BY columns`.
fn add_grouped(
    alloc: Global,
    written: &mut Vec<Token>,
    select: &Grouped,
    table: Option<&Token>,
    keys: &[Key],
) -> Result<(), RespellError>
    ensures { Writes written.old.items written.new.items result (spec.grouped (grouped_pieces select.now) (option_map (λ table. table.now) table.entry) (map group_key keys.now)) }
{
    add_copy(written, select.group)?;
    add_copy(written, select.by)?;
    add_listed(alloc, written, keys, table, select.group)
}

/// Adds `, value AS name`.
fn add_named(
    alloc: Global,
    written: &mut Vec<Token>,
    value: &[Token],
    name: &str,
    word: &Token,
) -> Result<(), RespellError>
    ensures { Writes written.old.items written.new.items result (spec.column_by word.now value.now (Some name.now)) }
{
    add(written, added_terminal(Terminal::Comma, word))?;
    add_all_placed(written, value, word)?;
    add(written, added_terminal(Terminal::As, word))?;
    add_name(alloc, written, name, word)
}

/// Adds the column for a key.
fn add_column(
    alloc: Global,
    written: &mut Vec<Token>,
    key: &Key,
    word: &Token,
) -> Result<(), RespellError>
    ensures { Writes written.old.items written.new.items result (spec.column_by word.now (group_key key.now).value (group_key key.now).name) }
{
    match key.name {
        Some(name) => add_named(alloc, written, key.value, name, word),
        None => Ok(()),
    }
}

/// Adds the columns for keys.
fn add_columns(
    alloc: Global,
    written: &mut Vec<Token>,
    keys: &[Key],
    word: &Token,
) -> Result<(), RespellError>
    ensures { Writes written.old.items written.new.items result (spec.columns (map group_key keys.now) word.now) }
{
    let mut rest = keys;
    while let [key, after @ ..] = rest {
        add_column(alloc, written, key, word)?;
        rest = after;
    }
    Ok(())
}

/// Adds `FROM ( SELECT *`.
#[tactic(auto, unfolding(crate::specs::Written::opening))]
fn add_opening(written: &mut Vec<Token>, word: &Token) -> Result<(), RespellError>
    ensures { Writes written.old.items written.new.items result (spec.opening word.now) }
{
    let words = [
        Terminal::From,
        Terminal::LeftBracket,
        Terminal::Select,
        Terminal::Star,
    ];
    add_terminals(written, &words, word)
}

/// Adds `) AS alias`.
pub fn add_closing(
    written: &mut Vec<Token>,
    alias: &Token,
    word: &Token,
) -> Result<(), RespellError>
    ensures { Writes written.old.items written.new.items result (spec.closing alias.now word.now) }
{
    add_terminals(written, &[Terminal::RightBracket, Terminal::As], word)?;
    add_placed(written, alias, word)
}

/// Adds `FROM ( SELECT * , e AS "group 1" FROM .. WHERE .. ) AS a`.
fn add_table(
    alloc: Global,
    written: &mut Vec<Token>,
    grouped: &Grouped,
    one: &OneTable,
    keys: &[Key],
) -> Result<(), RespellError>
    ensures { Writes written.old.items written.new.items result (spec.table (grouped_pieces grouped.now) (one_table one.now) (map group_key keys.now)) }
{
    add_opening(written, one.from)?;
    add_columns(alloc, written, keys, one.from)?;
    add_all(written, grouped.select.tables)?;
    add_all(written, grouped.condition)?;
    add_closing(written, one.alias, one.from)
}

/// Adds `SELECT [DISTINCT]`.
fn add_select(written: &mut Vec<Token>, select: &Grouped) -> Result<(), RespellError>
    ensures { Writes written.old.items written.new.items result (spec.select_words (grouped_pieces select.now)) }
{
    add_copy(written, select.select.select)?;
    add_all(written, select.select.distinct)
}

/// Adds the pieces of a select before GROUP BY.
fn add_before_keys(written: &mut Vec<Token>, select: &Grouped) -> Result<(), RespellError>
    ensures { Writes written.old.items written.new.items result (spec.before_keys (grouped_pieces select.now)) }
{
    add_select(written, select)?;
    add_all(written, select.select.items)?;
    add_all(written, select.select.tables)?;
    add_all(written, select.condition)
}

/// The select whose keys are columns of its tables, and what follows it, after these tokens.
pub fn write_over_tables(
    alloc: Global,
    front: &[Token],
    select: &Grouped,
    keys: &[Key],
) -> Result<Vec<Token>, RespellError>
    ensures { Makes (λ x. x.items) (λ x. x) result (front.now ++ spec.written_over (grouped_pieces select.now) (map group_key keys.now)) }
{
    let mut written = copy_tokens(alloc, front)?;
    add_before_keys(&mut written, select)?;
    add_grouped(alloc, &mut written, select, None, keys)?;
    add_all(&mut written, select.later)?;
    add_all(&mut written, select.select.after)?;
    Ok(written)
}

/// Adds the items and the table that has the keys.
fn add_head(
    alloc: Global,
    written: &mut Vec<Token>,
    select: &Grouped,
    one: &OneTable,
    items: &[&[Token]],
    keys: &[Key],
) -> Result<(), RespellError>
    ensures { Writes written.old.items written.new.items result (spec.head (grouped_pieces select.now) (one_table one.now) (map (λ item. item.now) items.now) (map group_key keys.now)) }
{
    add_select(written, select)?;
    add_items(
        alloc,
        written,
        keys,
        one.qualifier,
        select.select.select,
        items,
    )?;
    add_table(alloc, written, select, one, keys)
}

/// Adds the clauses from GROUP BY on.
fn add_tail(
    alloc: Global,
    written: &mut Vec<Token>,
    select: &Grouped,
    one: &OneTable,
    keys: &[Key],
) -> Result<(), RespellError>
    ensures { Writes written.old.items written.new.items result (spec.tail (grouped_pieces select.now) (one_table one.now) (map group_key keys.now)) }
{
    add_grouped(alloc, written, select, one.qualifier, keys)?;
    add_replaced(
        alloc,
        written,
        keys,
        one.qualifier,
        &select.select.select.kind,
        select.later,
    )?;
    add_all(written, select.select.after)
}

/// The select over the table that has its keys, and what follows it, after these tokens.
pub fn write_select(
    alloc: Global,
    front: &[Token],
    select: &Grouped,
    one: &OneTable,
    items: &[&[Token]],
    keys: &[Key],
) -> Result<Vec<Token>, RespellError>
    ensures { Makes (λ x. x.items) (λ x. x) result (front.now ++ spec.written (grouped_pieces select.now) (one_table one.now) (map (λ item. item.now) items.now) (map group_key keys.now)) }
{
    let mut written = copy_tokens(alloc, front)?;
    add_head(alloc, &mut written, select, one, items, keys)?;
    add_tail(alloc, &mut written, select, one, keys)?;
    Ok(written)
}
