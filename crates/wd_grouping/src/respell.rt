//! A query whose keys of GROUP BY are columns.

ghost use Rattle.std.specs.Prelude.{map};
ghost use Rattle.wd_clauses.specs.Given.{Finds};
ghost use Rattle.wd_distinct_on.specs.Respelled.{Gives, MayWrite};
ghost use Rattle.wd_grouping.specs.Named.{group_key, grouped_pieces, one_table};
ghost use Rattle.wd_grouping.specs.Respelled as spec;

use crate::key::{Key, all_stay, have_names, keys_of};
use crate::replace::{are_clear, have_star};
use crate::select::{Grouped, grouping_of};
use crate::source::{OneTable, one_table, tables_called};
use crate::write::{write_over_tables, write_select};
use std::alloc::Global;
use wd_clauses::{RespellError, parts};
use wd_distinct_on::{Selects, added_name, respell_backwards, split_at_place, starts_with_select};
use wd_lex::Token;
use wd_using::select_at;

// The most selects that are looked at.
const MOST_SELECTS: usize = 128;

/// The replacement of a select over its one table, if the name of each item is clear.
fn if_clear(
    alloc: Global,
    front: &[Token],
    select: &Grouped,
    items: &[&[Token]],
    keys: &[Key],
    one: &OneTable,
) -> Result<Option<Vec<Token>>, RespellError>
    ensures { MayWrite (λ x. x.items) result (spec.if_clear front.now (grouped_pieces select.now) (map (λ item. item.now) items.now) (map group_key keys.now) (one_table one.now)) }
{
    if are_clear(keys, items) {
        let tokens = write_select(alloc, front, select, one, items, keys)?;
        return Ok(Some(tokens));
    }
    Ok(None)
}

/// The replacement of a select over its several tables.
fn over_tables(
    alloc: Global,
    front: &[Token],
    select: &Grouped,
    items: &[&[Token]],
    keys: &[Key],
) -> Result<Option<Vec<Token>>, RespellError>
    ensures { MayWrite (λ x. x.items) result (spec.over_tables front.now (grouped_pieces select.now) (map (λ item. item.now) items.now) (map group_key keys.now) select.now.select.tables.now) }
{
    match select.select.tables {
        [from, ..] => {
            let alias = added_name(alloc, "grouped", from)?;
            let one = tables_called(from, &alias);
            if_clear(alloc, front, select, items, keys, &one)
        }
        [] => Ok(None),
    }
}

/// The replacement of a select, by its keys.
fn with_keys(
    alloc: Global,
    front: &[Token],
    select: &Grouped,
    items: &[&[Token]],
    keys: &[Key],
) -> Result<Option<Vec<Token>>, RespellError>
    ensures { MayWrite (λ x. x.items) result (spec.with_keys front.now (grouped_pieces select.now) (map (λ item. item.now) items.now) (map group_key keys.now)) }
{
    if !have_names(keys) {
        let tokens = write_over_tables(alloc, front, select, keys)?;
        return Ok(Some(tokens));
    }
    match one_table(select.select.tables) {
        Some(one) => if_clear(alloc, front, select, items, keys, &one),
        None => over_tables(alloc, front, select, items, keys),
    }
}

/// The replacement of a select, by the parts of its keys.
fn with_parts<'t>(
    alloc: Global,
    front: &[Token],
    select: &Grouped<'t>,
    items: &[&'t [Token]],
    found: &[&'t [Token]],
) -> Result<Option<Vec<Token>>, RespellError>
    ensures { MayWrite (λ x. x.items) result (spec.with_parts front.now (grouped_pieces select.now) (map (λ item. item.now) items.now) (map (λ part. part.now) found.now)) }
{
    if all_stay(found) || have_star(items) {
        return Ok(None);
    }
    match keys_of(alloc, items, found)? {
        Some(keys) => with_keys(alloc, front, select, items, &keys),
        None => Ok(None),
    }
}

/// The replacement of a select, by its items.
fn with_items<'t>(
    alloc: Global,
    front: &[Token],
    select: &Grouped<'t>,
    items: &[&'t [Token]],
) -> Result<Option<Vec<Token>>, RespellError>
    ensures { MayWrite (λ x. x.items) result (spec.with_items front.now (grouped_pieces select.now) (map (λ item. item.now) items.now)) }
{
    match parts(alloc, select.keys)? {
        Some(found) => with_parts(alloc, front, select, items, &found),
        None => Ok(None),
    }
}

/// The replacement of a select after these tokens.
fn respelled_select(
    alloc: Global,
    front: &[Token],
    select: &Grouped,
) -> Result<Option<Vec<Token>>, RespellError>
    ensures { MayWrite (λ x. x.items) result (spec.respelled_select front.now (grouped_pieces select.now)) }
{
    match parts(alloc, select.select.items)? {
        Some(items) => with_items(alloc, front, select, &items),
        None => Ok(None),
    }
}

/// The select with GROUP BY that begins with the tokens.
fn grouping_at(tokens: &[Token]) -> Option<Grouped<'_>>
    ensures { Finds grouped_pieces result (spec.grouping_at tokens.now) }
{
    match select_at(tokens) {
        Some(select) => grouping_of(select),
        None => None,
    }
}

/// The query in which the select that begins at a place is respelled.
#[tactic(auto, unfolding(crate::specs::Respelled::respell_at))]
fn respell_at(
    alloc: Global,
    place: usize,
    tokens: &[Token],
) -> Result<Option<Vec<Token>>, RespellError>
    ensures { MayWrite (λ x. x.items) result (spec.respell_at place tokens.now) }
{
    let (front, rest) = split_at_place(place, tokens);
    match grouping_at(rest) {
        Some(select) => respelled_select(alloc, front, &select),
        None => Ok(None),
    }
}

/// Selects with numbers of items or expressions in GROUP BY.
#[derive(Clone, Copy)]
struct ExpressionKeys;

impl Selects for ExpressionKeys {
    ghost use Rattle.wd_distinct_on.specs.Kinds.{begins, is_select};
    ghost use Rattle.wd_grouping.specs.Respelled as spec;

    ghost starts = { λ _. begins is_select };

    ghost respelled = { λ _. spec.respell_at };

    fn begins(&self, tokens: &[Token]) -> bool {
        starts_with_select(tokens)
    }

    fn respell_at(
        &self,
        alloc: Global,
        place: usize,
        tokens: &[Token],
    ) -> Result<Option<Vec<Token>>, RespellError> {
        respell_at(alloc, place, tokens)
    }
}

/// The query with columns for the keys of GROUP BY, as far as its selects are read. The error is `TooLong` where the query, or what is
/// written, has more than 65,536 tokens.
pub fn without_expression_keys(alloc: Global, tokens: &[Token]) -> Result<Vec<Token>, RespellError>
    ensures { Gives (λ x. x.items) result (spec.respelled tokens.now) }
{
    respell_backwards(alloc, &ExpressionKeys, MOST_SELECTS, tokens)
}
