//! The keys of GROUP BY.

ghost use Rattle.std.specs.Prelude.{◌≡◌, map, option_map, IfOk};
ghost use Rattle.wd_clauses.specs.Given.{Finds};
ghost use Rattle.wd_grouping.specs.Keys as spec;
ghost use Rattle.wd_grouping.specs.Named.{group_key};
ghost use Rattle.wd_using.specs.Kinds.{has};
ghost use Rattle.wd_grouping.specs.Kinds as kinds;

use crate::kind::{begins_sets, is_over, is_plain, number_of};
use std::alloc::{AllocError, Global};
use wd_clauses::is_name;
use wd_distinct_on::{column_of, item_of};
use wd_lex::Token;
use wd_using::ends_value;

/// What is grouped by, and the name of the column that replaces it, if it is an expression.
#[derive(Drop)]
pub struct Key<'t> {
    pub value: &'t [Token],
    pub name: Option<&'static str>,
}

/// Whether the tokens are `c` or `x.c`.
pub fn is_column(tokens: &[Token]) -> bool
    ensures { result ≡ spec.is_column tokens.now }
{
    match column_of(tokens) {
        Some(_) => true,
        None => false,
    }
}

/// Whether a key may be a list of keys.
pub fn begins_set(part: &[Token]) -> bool
    ensures { result ≡ spec.begins_set part.now }
{
    match part {
        [first, ..] => is_plain(&first.kind) || begins_sets(&first.kind),
        [] => true,
    }
}

/// Whether a key is left as it is.
fn stays(part: &[Token]) -> bool
    ensures { result ≡ spec.stays part.now }
{
    begins_set(part) || is_column(part)
}

/// Whether each key is left as it is.
pub fn all_stay(mut parts: &[&[Token]]) -> bool
    ensures { result ≡ spec.all_stay (map (λ part. part.now) parts.entry.now) }
{
    while let [part, rest @ ..] = parts {
        if !stays(part) {
            return false;
        }
        parts = rest;
    }
    true
}

/// The number of an item that a key is, if it is one.
fn ordinal_of(part: &[Token]) -> Option<u64>
    ensures { result ≡ spec.ordinal_of part.now }
{
    match part {
        [token] => number_of(&token.kind),
        _ => None,
    }
}

/// The item with this number, counted from 1.
fn item_at<'t>(ordinal: u64, items: &[&'t [Token]]) -> Option<&'t [Token]>
    ensures { Finds (λ item. item.now) result (spec.item_at ordinal (map (λ item. item.now) items.now)) }
{
    let mut left = ordinal;
    let mut rest = items;
    while let [item, after @ ..] = rest {
        if left == 1 {
            return Some(*item);
        }
        left = left.saturating_sub(1);
        rest = after;
    }
    None
}

/// Whether the tokens are the end of a value and a name that follows it.
fn is_named_value(tokens: &[Token]) -> bool
    ensures { result ≡ spec.is_named_value tokens.now }
{
    match tokens {
        [before, name] => ends_value(&before.kind) && is_name(&name.kind),
        _ => false,
    }
}

/// An item without the name that follows its value.
fn without_name(item: &[Token]) -> &[Token]
    ensures { result.now ≡ spec.without_name item.now }
{
    let count = item.len().saturating_sub(2);
    if is_named_value(&item[count..]) {
        return &item[..item.len().saturating_sub(1)];
    }
    item
}

/// The value of an item, without its name.
fn value_in(item: &[Token]) -> &[Token]
    ensures { Finds (λ item. item.now) (Some result) (spec.value_of_item (Some item.now)) }
{
    match item_of(item) {
        Some(named) => named.value,
        None => without_name(item),
    }
}

/// The value of a key: that of the item with its number, or the key itself.
fn value_of<'t>(items: &[&'t [Token]], part: &'t [Token]) -> Option<&'t [Token]>
    ensures { Finds (λ value. value.now) result (spec.value_of (map (λ item. item.now) items.now) part.now) }
{
    match ordinal_of(part) {
        Some(ordinal) => match item_at(ordinal, items) {
            Some(item) => Some(value_in(item)),
            None => None,
        },
        None => Some(part),
    }
}

/// The name of the column for an expression; `number` expressions come before it.
fn name_at(number: usize) -> Option<&'static str>
    ensures { Finds (λ name. name.now) result (spec.name_at number) }
{
    match number {
        0 => Some("group 1"),
        1 => Some("group 2"),
        2 => Some("group 3"),
        3 => Some("group 4"),
        4 => Some("group 5"),
        5 => Some("group 6"),
        6 => Some("group 7"),
        7 => Some("group 8"),
        _ => None,
    }
}

// The most expressions among the keys.
const MOST_NAMES: usize = 8;

// The most tokens of an expression.
const MOST_IN_EXPRESSION: usize = 256;

/// Whether OVER is among the tokens.
fn has_over(mut tokens: &[Token]) -> bool
    ensures { result ≡ has kinds.is_over tokens.entry.now }
{
    while let [first, rest @ ..] = tokens {
        if is_over(&first.kind) {
            return true;
        }
        tokens = rest;
    }
    false
}

/// Whether rows may be grouped by an expression.
fn may_group(value: &[Token]) -> bool
    ensures { result ≡ spec.may_group value.now }
{
    value.len() <= MOST_IN_EXPRESSION && !has_over(value)
}

/// An expression as a key; `number` expressions come before it.
fn expression_key(number: usize, value: &[Token]) -> Option<Key<'_>>
    ensures { Finds group_key result (spec.named value.now (spec.name_at number)) }
{
    match name_at(number) {
        Some(name) if may_group(value) => Some(Key {
            value,
            name: Some(name),
        }),
        _ => None,
    }
}

/// A key; `number` expressions come before it.
fn key_of<'t>(number: usize, items: &[&'t [Token]], part: &'t [Token]) -> Option<Key<'t>>
    ensures { Finds group_key result (spec.key_of number (map (λ item. item.now) items.now) part.now) }
{
    if stays(part) {
        return Some(Key {
            value: part,
            name: None,
        });
    }
    match value_of(items, part) {
        Some(value) if is_column(value) => Some(Key { value, name: None }),
        Some(value) => expression_key(number, value),
        None => None,
    }
}

/// How many expressions come before the next key.
fn next(number: usize, key: &Key) -> usize
    ensures { result ≡ spec.next number (group_key key.now).name }
{
    match key.name {
        Some(_) if number < MOST_NAMES => number + 1,
        _ => number,
    }
}

/// The keys, by these items, if each is read.
pub fn keys_of<'t>(
    alloc: Global,
    items: &[&'t [Token]],
    parts: &[&'t [Token]],
) -> Result<Option<Vec<Key<'t>>>, AllocError>
    ensures { IfOk result (λ found. Finds (λ x. map group_key x.items) found (spec.keys_of 0 (map (λ item. item.now) items.now) (map (λ part. part.now) parts.now))) }
{
    let mut keys = Vec::new(alloc);
    let mut number = 0;
    let mut rest = parts;
    while let [part, after @ ..] = rest {
        match key_of(number, items, part) {
            Some(key) => {
                number = next(number, &key);
                keys.push(key)?;
            }
            None => return Ok(None),
        }
        rest = after;
    }
    Ok(Some(keys))
}

/// Whether an expression is among the keys.
pub fn have_names(mut keys: &[Key]) -> bool
    ensures { result ≡ spec.have_names (map group_key keys.entry.now) }
{
    while let [key, rest @ ..] = keys {
        match key.name {
            Some(_) => return true,
            None => keys = rest,
        }
    }
    false
}
