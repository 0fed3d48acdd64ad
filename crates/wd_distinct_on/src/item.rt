//! The items of a select list by their own names.

ghost use Rattle.std.specs.Prelude.{◌≡◌, map, IfOk};
ghost use Rattle.wd_clauses.specs.Given.{Finds};
ghost use Rattle.wd_distinct_on.specs.Items as spec;
ghost use Rattle.wd_distinct_on.specs.Named.{named_item};

use crate::kind::{is_as, is_dot};
use std::alloc::{AllocError, Global};
use wd_clauses::{is_name, is_same_name};
use wd_lex::{Token, TokenKind};

/// An item's name, and what it stands for.
#[derive(Drop)]
pub struct Item<'t> {
    pub name: &'t Token,
    pub value: &'t [Token],
}

/// `c` or `x.c`
pub fn column_of(tokens: &[Token]) -> Option<Item<'_>>
    ensures { Finds named_item result (spec.column_of tokens.now) }
{
    match tokens {
        [column] if is_name(&column.kind) => Some(Item {
            name: column,
            value: tokens,
        }),
        [table, dot, column]
            if is_name(&table.kind) && is_dot(&dot.kind) && is_name(&column.kind) => {
            Some(Item {
                name: column,
                value: tokens,
            })
        }
        _ => None,
    }
}

/// The name after AS.
fn after_as(tokens: &[Token]) -> Option<&Token>
    ensures { Finds (λ name. name.now) result (spec.after_as tokens.now) }
{
    match tokens {
        [word, name] if is_as(&word.kind) && is_name(&name.kind) => Some(name),
        _ => None,
    }
}

/// `value AS c`, or a column.
pub fn item_of(tokens: &[Token]) -> Option<Item<'_>>
    ensures { Finds named_item result (spec.item_of tokens.now) }
{
    let count = tokens.len().saturating_sub(2);
    match after_as(&tokens[count..]) {
        Some(name) => Some(Item {
            name,
            value: &tokens[..count],
        }),
        None => column_of(tokens),
    }
}

/// The items, if each has a name.
pub fn items_of<'t>(
    alloc: Global,
    parts: &[&'t [Token]],
) -> Result<Option<Vec<Item<'t>>>, AllocError>
    ensures { IfOk result (λ found. Finds (λ x. map named_item x.items) found (spec.items_of (map (λ part. part.now) parts.now))) }
{
    let mut items = Vec::new(alloc);
    let mut rest = parts;
    while let [part, after @ ..] = rest {
        match item_of(part) {
            Some(item) => items.push(item)?,
            None => return Ok(None),
        }
        rest = after;
    }
    Ok(Some(items))
}

/// Whether an item has this name.
fn has_name(name: &Token, mut items: &[Item]) -> bool
    ensures { result ≡ spec.has_name name.now (map named_item items.entry.now) }
{
    while let [item, rest @ ..] = items {
        if is_same_name(&name.kind, &item.name.kind) {
            return true;
        }
        items = rest;
    }
    false
}

/// Whether a name is the one that the row number gets.
fn is_number_name(kind: &TokenKind) -> bool
    ensures { result ≡ spec.is_number_name kind.now }
{
    match kind {
        TokenKind::Word(text) | TokenKind::Quoted(text) => {
            text.as_bytes() == b"distinct on".as_slice()
        }
        _ => false,
    }
}

/// Whether no two items have the same name, and none has that of the row number.
pub fn are_distinct(mut items: &[Item]) -> bool
    ensures { result ≡ spec.are_distinct (map named_item items.entry.now) }
{
    while let [item, rest @ ..] = items {
        if is_number_name(&item.name.kind) || has_name(item.name, rest) {
            return false;
        }
        items = rest;
    }
    true
}
