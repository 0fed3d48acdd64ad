//! A query without DISTINCT ON.

ghost use Rattle.std.specs.Prelude.{map, IfOk};
ghost use Rattle.wd_clauses.specs.Given.{Finds};
ghost use Rattle.wd_distinct_on.specs.Named.{named_item, pieces, sort_key};
ghost use Rattle.wd_distinct_on.specs.Respelled as spec;

use crate::item::{Item, are_distinct, items_of};
use crate::key::{Key, fits, keys_of};
use crate::select::{Select, begins_select, select_at};
use crate::selects::{Selects, respell_backwards, split_at_place};
use crate::write::write_select;
use std::alloc::{AllocError, Global};
use wd_clauses::{RespellError, parts};
use wd_lex::Token;

// The most selects with DISTINCT ON that are looked at.
const MOST_SELECTS: usize = 64;

/// The items of a list, if each has a name.
fn items_in(alloc: Global, tokens: &[Token]) -> Result<Option<Vec<Item<'_>>>, AllocError>
    ensures { IfOk result (λ found. Finds (λ x. map named_item x.items) found (spec.items_in tokens.now)) }
{
    match parts(alloc, tokens)? {
        Some(parts) => items_of(alloc, &parts),
        None => Ok(None),
    }
}

/// The keys of a list that may be empty, if none is the position of an item.
fn keys_in<'t>(
    alloc: Global,
    items: &[Item<'t>],
    tokens: &'t [Token],
) -> Result<Option<Vec<Key<'t>>>, AllocError>
    ensures { IfOk result (λ found. Finds (λ x. map sort_key x.items) found (spec.keys_in (map named_item items.now) tokens.now)) }
{
    if tokens.is_empty() {
        return Ok(Some(Vec::new(alloc)));
    }
    match parts(alloc, tokens)? {
        Some(parts) => keys_of(alloc, items, &parts),
        None => Ok(None),
    }
}

/// The replacement of a select after these tokens, if its names are distinct and its keys fit.
fn if_fit(
    alloc: Global,
    front: &[Token],
    select: &Select,
    items: &[Item],
    keys: &[Key],
    orders: &[Key],
) -> Result<Option<Vec<Token>>, RespellError>
    ensures { spec.MayWrite (λ x. x.items) result (spec.if_fit front.now (pieces select.now) (map named_item items.now) (map sort_key keys.now) (map sort_key orders.now)) }
{
    if are_distinct(items) && fits(keys, orders) {
        let tokens = write_select(alloc, front, select, items, keys, orders)?;
        return Ok(Some(tokens));
    }
    Ok(None)
}

/// The replacement of a select, by its items and its keys.
fn with_orders<'t>(
    alloc: Global,
    front: &[Token],
    select: &Select<'t>,
    items: &[Item<'t>],
    keys: &[Key],
) -> Result<Option<Vec<Token>>, RespellError>
    ensures { spec.MayWrite (λ x. x.items) result (spec.with_orders front.now (pieces select.now) (map named_item items.now) (map sort_key keys.now)) }
{
    match keys_in(alloc, items, select.order.keys)? {
        Some(orders) => if_fit(alloc, front, select, items, keys, &orders),
        None => Ok(None),
    }
}

/// The replacement of a select, by its items.
fn with_keys<'t>(
    alloc: Global,
    front: &[Token],
    select: &Select<'t>,
    items: &[Item<'t>],
) -> Result<Option<Vec<Token>>, RespellError>
    ensures { spec.MayWrite (λ x. x.items) result (spec.with_keys front.now (pieces select.now) (map named_item items.now)) }
{
    match keys_in(alloc, items, select.keys)? {
        Some(keys) => with_orders(alloc, front, select, items, &keys),
        None => Ok(None),
    }
}

/// The replacement of a select after these tokens.
#[tactic(auto, unfolding(crate::specs::Respelled::respelled_select))]
fn respelled_select(
    alloc: Global,
    front: &[Token],
    select: &Select,
) -> Result<Option<Vec<Token>>, RespellError>
    ensures { spec.MayWrite (λ x. x.items) result (spec.respelled_select front.now (pieces select.now)) }
{
    match items_in(alloc, select.items)? {
        Some(items) => with_keys(alloc, front, select, &items),
        None => Ok(None),
    }
}

/// The query in which the select that begins at a place is respelled.
#[tactic(auto, unfolding(crate::specs::Respelled::respell_at))]
fn respell_at(
    alloc: Global,
    place: usize,
    tokens: &[Token],
) -> Result<Option<Vec<Token>>, RespellError>
    ensures { spec.MayWrite (λ x. x.items) result (spec.respell_at place tokens.now) }
{
    let (front, rest) = split_at_place(place, tokens);
    match select_at(rest) {
        Some(select) => respelled_select(alloc, front, &select),
        None => Ok(None),
    }
}

/// Selects with DISTINCT ON.
#[derive(Clone, Copy)]
struct DistinctOn;

impl Selects for DistinctOn {
    ghost use Rattle.wd_distinct_on.specs.Pieces.{begins_select};
    ghost use Rattle.wd_distinct_on.specs.Respelled as spec;

    ghost starts = { λ _. begins_select };

    ghost respelled = { λ _. spec.respell_at };

    fn begins(&self, tokens: &[Token]) -> bool {
        begins_select(tokens)
    }

    fn respell_at(
        &self,
        alloc: Global,
        place: usize,
        tokens: &[Token],
    ) -> Result<Option<Vec<Token>>, RespellError> {
        respell_at(alloc, place, tokens)
    }
}

/// The query without DISTINCT ON, as far as its selects with it are read. The error is `TooLong` where the query, or what is written,
/// has more than 65,536 tokens.
pub fn without_distinct_on(alloc: Global, tokens: &[Token]) -> Result<Vec<Token>, RespellError>
    ensures { spec.Gives (λ x. x.items) result (spec.respelled tokens.now) }
{
    respell_backwards(alloc, &DistinctOn, MOST_SELECTS, tokens)
}
