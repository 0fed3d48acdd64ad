//! The keys of DISTINCT ON and of ORDER BY.

ghost use Rattle.std.specs.Prelude.{◌≡◌, map, take, IfOk};
ghost use Rattle.wd_clauses.specs.Given.{Finds};
ghost use Rattle.wd_distinct_on.specs.Keys as spec;
ghost use Rattle.wd_distinct_on.specs.Named.{named_item, sort_key};

use crate::item::Item;
use crate::kind::{is_direction, is_number, is_same};
use std::alloc::{AllocError, Global};
use wd_clauses::{is_name, is_same_name};
use wd_lex::Token;

/// What a key sorts by, and ASC, DESC and NULLS after it, where a name stood for an item; else the whole key, and nothing after it.
#[derive(Drop)]
pub struct Key<'t> {
    pub value: &'t [Token],
    pub rest: &'t [Token],
}

/// Whether the end of what a key sorts by is reached.
fn ends_key(tokens: &[Token]) -> bool
    ensures { result ≡ spec.ends_key tokens.now }
{
    match tokens {
        [first, ..] => is_direction(&first.kind),
        [] => true,
    }
}

/// What the item with this name stands for, or `own` where no item has it.
fn value_or<'t>(own: &'t [Token], name: &Token, items: &[Item<'t>]) -> &'t [Token]
    ensures { result.now ≡ spec.value_or own.now name.now (map named_item items.now) }
{
    let mut left = items;
    while let [item, rest @ ..] = left {
        if is_same_name(&name.kind, &item.name.kind) {
            return item.value;
        }
        left = rest;
    }
    own
}

/// A key. A name alone, perhaps with ASC, DESC or NULLS after it, sorts by what the item with that name stands for.
fn key_of<'t>(items: &[Item<'t>], tokens: &'t [Token]) -> Key<'t>
    ensures { sort_key result ≡ spec.key_of (map named_item items.now) tokens.now }
{
    if let [first, rest @ ..] = tokens {
        if is_name(&first.kind) && ends_key(rest) {
            return Key {
                value: value_or(&tokens[..1], first, items),
                rest,
            };
        }
    }
    Key {
        value: tokens,
        rest: &tokens[tokens.len()..],
    }
}

/// Whether a key is the position of an item.
fn is_place(tokens: &[Token]) -> bool
    ensures { result ≡ spec.is_place tokens.now }
{
    match tokens {
        [first, rest @ ..] => is_number(&first.kind) && ends_key(rest),
        [] => false,
    }
}

/// The keys, if none is the position of an item.
pub fn keys_of<'t>(
    alloc: Global,
    items: &[Item<'t>],
    parts: &[&'t [Token]],
) -> Result<Option<Vec<Key<'t>>>, AllocError>
    ensures { IfOk result (λ found. Finds (λ x. map sort_key x.items) found (spec.keys_of (map named_item items.now) (map (λ part. part.now) parts.now))) }
{
    let mut keys = Vec::new(alloc);
    let mut rest = parts;
    while let [part, after @ ..] = rest {
        if is_place(part) {
            return Ok(None);
        }
        keys.push(key_of(items, part))?;
        rest = after;
    }
    Ok(Some(keys))
}

/// What follows tokens at the start that say the same as a value, if there are such.
pub fn strip<'t>(value: &[Token], tokens: &'t [Token]) -> Option<&'t [Token]>
    ensures { Finds (λ r. r.now) result (spec.strip value.now tokens.now) }
{
    let mut left = value;
    let mut rest = tokens;
    while let [first, after @ ..] = left {
        let [token, following @ ..] = rest else {
            return None;
        };
        if !is_same(&first.kind, &token.kind) {
            return None;
        }
        left = after;
        rest = following;
    }
    Some(rest)
}

/// Whether a key of ORDER BY sorts by a key of DISTINCT ON.
fn sorts_by(key: &Key, order: &Key) -> bool
    ensures { result ≡ spec.sorts_by (sort_key key.now) (sort_key order.now) }
{
    match strip(key.value, order.value) {
        Some(rest) => ends_key(rest),
        None => false,
    }
}

/// Whether a key of ORDER BY sorts by this key.
fn is_sorted_by(key: &Key, mut orders: &[Key]) -> bool
    ensures { result ≡ spec.is_sorted_by (sort_key key.now) (map sort_key orders.entry.now) }
{
    while let [order, rest @ ..] = orders {
        if sorts_by(key, order) {
            return true;
        }
        orders = rest;
    }
    false
}

/// Whether a key of ORDER BY sorts by one of these keys.
fn is_among(order: &Key, mut keys: &[Key]) -> bool
    ensures { result ≡ spec.is_among (sort_key order.now) (map sort_key keys.entry.now) }
{
    while let [key, rest @ ..] = keys {
        if sorts_by(key, order) {
            return true;
        }
        keys = rest;
    }
    false
}

/// Whether each key of DISTINCT ON is sorted by.
fn all_sorted(mut keys: &[Key], orders: &[Key]) -> bool
    ensures { result ≡ spec.all_sorted (map sort_key keys.entry.now) (map sort_key orders.now) }
{
    while let [key, rest @ ..] = keys {
        if !is_sorted_by(key, orders) {
            return false;
        }
        keys = rest;
    }
    true
}

/// Whether each key of ORDER BY sorts by one of these keys.
fn all_among(mut orders: &[Key], keys: &[Key]) -> bool
    ensures { result ≡ spec.all_among (map sort_key orders.entry.now) (map sort_key keys.now) }
{
    while let [order, rest @ ..] = orders {
        if !is_among(order, keys) {
            return false;
        }
        orders = rest;
    }
    true
}

/// The first `count` keys.
fn first_of<'k, 't>(count: usize, orders: &'k [Key<'t>]) -> &'k [Key<'t>]
    ensures { map sort_key result.now ≡ take count (map sort_key orders.now) }
{
    &orders[..count.min(orders.len())]
}

/// Whether the keys of DISTINCT ON are these in some order.
fn are_first(keys: &[Key], orders: &[Key]) -> bool
    ensures { result ≡ spec.are_first (map sort_key keys.now) (map sort_key orders.now) }
{
    all_sorted(keys, orders) && all_among(orders, keys)
}

/// Whether there is no ORDER BY, or its first keys are those of DISTINCT ON in some order.
pub fn fits(keys: &[Key], orders: &[Key]) -> bool
    ensures { result ≡ spec.fits (map sort_key keys.now) (map sort_key orders.now) }
{
    match orders {
        [] => true,
        [..] => are_first(keys, first_of(keys.len(), orders)),
    }
}
