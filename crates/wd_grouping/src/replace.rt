//! Tokens in which each expression of a key that is a separate operand is replaced by its column.

ghost use Rattle.std.specs.Prelude.{◌≡◌, ◌∷◌, [], map, option_map};
ghost use Rattle.wd_clauses.specs.Given.{Finds, Writes};
ghost use Rattle.wd_distinct_on.specs.Kinds as kinds;
ghost use Rattle.wd_distinct_on.specs.Written.{added_name};
ghost use Rattle.wd_grouping.specs.Named as named;
ghost use Rattle.wd_grouping.specs.Replaced as spec;

use crate::key::{Key, begins_set};
use crate::kind::{begins_operand, ends_operand};
use std::alloc::Global;
use wd_clauses::{RespellError, add, add_copy, added_terminal, is_name};
use wd_distinct_on::{add_name, add_placed, is_dot, strip};
use wd_lex::{Terminal, Token, TokenKind};
use wd_using::is_star;

/// The column that replaces an expression, and how many tokens the expression is.
#[derive(Clone, Copy)]
pub struct Operand {
    pub name: &'static str,
    pub count: usize,
}

/// Whether an operand ends before these tokens, such as before the name of an item.
fn ends(tokens: &[Token]) -> bool
    ensures { result ≡ spec.ends (Some tokens.now) }
{
    match tokens {
        [name] => ends_operand(&name.kind) || is_name(&name.kind),
        [first, ..] => ends_operand(&first.kind),
        [] => true,
    }
}

/// The expression of a key, if it is an operand at the start of the tokens.
fn operand_by(key: &Key, tokens: &[Token]) -> Option<Operand>
    ensures { Finds named.operand result (spec.operand_by (named.group_key key.now).name (named.group_key key.now).value tokens.now) }
{
    let name = key.name?;
    match strip(key.value, tokens) {
        Some(rest) if ends(rest) => Some(Operand {
            name,
            count: key.value.len(),
        }),
        _ => None,
    }
}

/// The expression of the first key that is an operand at the start of the tokens.
fn operand_of(keys: &[Key], tokens: &[Token]) -> Option<Operand>
    ensures { Finds named.operand result (spec.operand_of (map named.group_key keys.now) tokens.now) }
{
    let mut left = keys;
    while let [key, rest @ ..] = left {
        if let Some(operand) = operand_by(key, tokens) {
            return Some(operand);
        }
        left = rest;
    }
    None
}

/// The separate operand after this token, if there is one.
fn operand_at(keys: &[Key], before: &TokenKind, tokens: &[Token]) -> Option<Operand>
    ensures { Finds named.operand result (spec.operand_at (map named.group_key keys.now) before.now tokens.now) }
{
    if begins_operand(before) {
        return operand_of(keys, tokens);
    }
    None
}

/// Whether the tokens begin with a dot.
pub fn begins_dot(tokens: &[Token]) -> bool
    ensures { result ≡ kinds.begins kinds.is_dot tokens.now }
{
    match tokens {
        [first, ..] => is_dot(&first.kind),
        [] => false,
    }
}

/// Adds the token before these; if it is a table's name before a column and one table replaces several, that table's name is added.
pub fn add_its_table(
    written: &mut Vec<Token>,
    table: Option<&Token>,
    token: &Token,
    after: &[Token],
) -> Result<(), RespellError>
    ensures { Writes written.old.items written.new.items result (spec.its_table (option_map (λ table. table.now) table.entry) token.now after.now ∷ []) }
{
    match table {
        Some(table) if begins_dot(after) => add_placed(written, table, token),
        _ => add_copy(written, token),
    }
}

/// Adds tokens; where one table replaces several, its name replaces each table's name before a column.
pub fn add_qualified(
    written: &mut Vec<Token>,
    table: Option<&Token>,
    tokens: &[Token],
) -> Result<(), RespellError>
    ensures { Writes written.old.items written.new.items result (spec.qualified (option_map (λ table. table.now) table.entry) tokens.now) }
{
    let mut rest = tokens;
    while let [first, after @ ..] = rest {
        add_its_table(written, table, first, after)?;
        rest = after;
    }
    Ok(())
}

/// Adds what is written for a token.
fn add_at(
    alloc: Global,
    written: &mut Vec<Token>,
    table: Option<&Token>,
    token: &Token,
    after: &[Token],
    operand: Option<Operand>,
) -> Result<(), RespellError>
    ensures { Writes written.old.items written.new.items result (spec.written_at (option_map (λ table. table.now) table.entry) token.now after.now (option_map named.operand operand)) }
{
    match operand {
        Some(operand) => add_name(alloc, written, operand.name, token),
        None => add_its_table(written, table, token, after),
    }
}

/// How many further tokens belong to an operand.
fn further_tokens(operand: Option<Operand>) -> usize
    ensures { result ≡ spec.further_tokens (option_map named.operand operand) }
{
    match operand {
        Some(operand) => operand.count.saturating_sub(1),
        None => 0,
    }
}

/// Adds tokens in which the expressions of keys are columns.
#[tactic(auto, unfolding(crate::specs::Replaced::replaced))]
pub fn add_replaced(
    alloc: Global,
    written: &mut Vec<Token>,
    keys: &[Key],
    table: Option<&Token>,
    before: &TokenKind,
    tokens: &[Token],
) -> Result<(), RespellError>
    ensures { Writes written.old.items written.new.items result (spec.replaced (map named.group_key keys.now) (option_map (λ table. table.now) table.entry) 0 before.now tokens.now) }
{
    let mut passed: usize = 0;
    let mut last = before;
    let mut rest = tokens;
    while let [first, after @ ..] = rest {
        if passed == 0 {
            let operand = operand_at(keys, last, rest);
            add_at(alloc, written, table, first, after, operand)?;
            passed = further_tokens(operand);
        } else {
            passed -= 1;
        }
        last = &first.kind;
        rest = after;
    }
    Ok(())
}

/// The column that replaces an item, if the item is nothing but an expression.
fn whole(keys: &[Key], item: &[Token]) -> Option<&'static str>
    ensures { Finds (λ name. name.now) result (spec.whole (map named.group_key keys.now) item.now) }
{
    match operand_of(keys, item) {
        Some(operand) if operand.count == item.len() => Some(operand.name),
        _ => None,
    }
}

/// Adds a column, with the name that an item without a name gets.
fn add_unnamed(
    alloc: Global,
    written: &mut Vec<Token>,
    name: &str,
    select: &Token,
) -> Result<(), RespellError>
    ensures { Writes written.old.items written.new.items result (spec.unnamed name.now select.now) }
{
    add_name(alloc, written, name, select)?;
    add(written, added_terminal(Terminal::As, select))?;
    add_name(alloc, written, "?column?", select)?;
    Ok(())
}

/// Adds an item in which the expressions of keys are columns.
fn add_item(
    alloc: Global,
    written: &mut Vec<Token>,
    keys: &[Key],
    table: Option<&Token>,
    select: &Token,
    item: &[Token],
) -> Result<(), RespellError>
    ensures { Writes written.old.items written.new.items result (spec.item_by (map named.group_key keys.now) (option_map (λ table. table.now) table.entry) select.now item.now (spec.whole (map named.group_key keys.now) item.now)) }
{
    match whole(keys, item) {
        Some(name) => add_unnamed(alloc, written, name, select),
        None => add_replaced(alloc, written, keys, table, &select.kind, item),
    }
}

/// Adds items in which the expressions of keys are columns.
pub fn add_items(
    alloc: Global,
    written: &mut Vec<Token>,
    keys: &[Key],
    table: Option<&Token>,
    select: &Token,
    items: &[&[Token]],
) -> Result<(), RespellError>
    ensures { Writes written.old.items written.new.items result (spec.replaced_items (map named.group_key keys.now) (option_map (λ table. table.now) table.entry) select.now (map (λ item. item.now) items.now)) }
{
    let mut rest = items;
    while let [item, after @ ..] = rest {
        add_item(alloc, written, keys, table, select, item)?;
        if !after.is_empty() {
            add(written, added_terminal(Terminal::Comma, select))?;
        }
        rest = after;
    }
    Ok(())
}

/// Whether an item ends with a star.
fn ends_with_star(item: &[Token]) -> bool
    ensures { result ≡ spec.ends_with_star item.now }
{
    let mut rest = item;
    while let [first, after @ ..] = rest {
        if after.is_empty() {
            return is_star(&first.kind);
        }
        rest = after;
    }
    false
}

/// Whether an item stands for all columns.
pub fn have_star(mut items: &[&[Token]]) -> bool
    ensures { result ≡ spec.have_star (map (λ item. item.now) items.entry.now) }
{
    while let [item, rest @ ..] = items {
        if ends_with_star(item) {
            return true;
        }
        items = rest;
    }
    false
}

/// Whether an item is nothing but an expression, and may get its name from a column.
fn is_unclear(keys: &[Key], item: &[Token]) -> bool
    ensures { result ≡ spec.is_unclear (map named.group_key keys.now) item.now }
{
    match whole(keys, item) {
        Some(_) => begins_set(item),
        None => false,
    }
}

/// Whether no item that is nothing but an expression may get its name from a column.
pub fn are_clear(keys: &[Key], items: &[&[Token]]) -> bool
    ensures { result ≡ spec.are_clear (map named.group_key keys.now) (map (λ item. item.now) items.now) }
{
    let mut rest = items;
    while let [item, after @ ..] = rest {
        if is_unclear(keys, item) {
            return false;
        }
        rest = after;
    }
    true
}
