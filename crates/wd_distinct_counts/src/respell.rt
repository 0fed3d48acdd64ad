//! A query without COUNT( DISTINCT c ).

ghost use Rattle.std.specs.Prelude.{◌≡◌, ◌∷◌, map, option_map, IfOk};
ghost use Rattle.wd_clauses.specs.Given.{Finds};
ghost use Rattle.wd_distinct_counts.specs.Named.{grouping_pieces};
ghost use Rattle.wd_distinct_counts.specs.Respelled as spec;
ghost use Rattle.wd_distinct_on.specs.Respelled.{Gives, MayWrite, parts_in};
ghost use Rattle.wd_grouping.specs.Pieces as tables;
ghost use Rattle.wd_using.specs.Named.{pieces};

use crate::count::{are_theirs, column_in};
use crate::select::{Grouping, grouping_of};
use crate::write::write_select;
use std::alloc::{AllocError, Global};
use wd_clauses::{RespellError, parts};
use wd_distinct_on::{Selects, added_name, respell_backwards, split_at_place, starts_with_select};
use wd_grouping::{is_column, one_table, tables_called};
use wd_lex::Token;
use wd_using::{Select, select_at};

// The most selects that are looked at.
const MOST_SELECTS: usize = 128;

/// Whether each key is a column.
fn are_columns(mut keys: &[&[Token]]) -> bool
    ensures { result ≡ spec.are_columns (map (λ key. key.now) keys.entry.now) }
{
    while let [key, rest @ ..] = keys {
        if !is_column(key) {
            return false;
        }
        keys = rest;
    }
    true
}

/// The parts of a list that may be empty.
fn keys_in(alloc: Global, tokens: &[Token]) -> Result<Option<Vec<&[Token]>>, AllocError>
    ensures { IfOk result (λ found. Finds (λ x. map (λ key. key.now) x.items) found (parts_in tokens.now)) }
{
    if tokens.is_empty() {
        return Ok(Some(Vec::new(alloc)));
    }
    parts(alloc, tokens)
}

/// Whether each column that is written with its table is a key or the counted column.
fn are_known(select: &Select, grouping: &Grouping, column: &[Token], keys: &[&[Token]]) -> bool
    ensures { result ≡ spec.are_known (pieces select.now) (grouping_pieces grouping.now) (column.now ∷ map (λ key. key.now) keys.now) }
{
    are_theirs(column, keys, select.items) && are_theirs(column, keys, grouping.later)
}

/// The replacement of a select over its several tables.
fn over_tables(
    alloc: Global,
    front: &[Token],
    select: &Select,
    grouping: &Grouping,
    column: &[Token],
    keys: &[&[Token]],
) -> Result<Option<Vec<Token>>, RespellError>
    ensures { MayWrite (λ x. x.items) result (spec.over_tables front.now (pieces select.now) (grouping_pieces grouping.now) column.now (map (λ key. key.now) keys.now) select.now.tables.now) }
{
    match select.tables {
        [from, ..] if are_known(select, grouping, column, keys) => {
            let alias = added_name(alloc, "grouped", from)?;
            let one = tables_called(from, &alias);
            let tokens = write_select(alloc, front, select, grouping, &one, column)?;
            Ok(Some(tokens))
        }
        _ => Ok(None),
    }
}

/// The replacement of a select over its tables.
fn over_table(
    alloc: Global,
    front: &[Token],
    select: &Select,
    grouping: &Grouping,
    column: &[Token],
    keys: &[&[Token]],
) -> Result<Option<Vec<Token>>, RespellError>
    ensures { MayWrite (λ x. x.items) result (spec.over_table front.now (pieces select.now) (grouping_pieces grouping.now) column.now (map (λ key. key.now) keys.now) (tables.one_table select.now.tables.now)) }
{
    match one_table(select.tables) {
        Some(one) => {
            let tokens = write_select(alloc, front, select, grouping, &one, column)?;
            Ok(Some(tokens))
        }
        None => over_tables(alloc, front, select, grouping, column, keys),
    }
}

/// The replacement of a select that counts a column, if its keys are columns.
fn with_column(
    alloc: Global,
    front: &[Token],
    select: &Select,
    grouping: &Grouping,
    column: &[Token],
) -> Result<Option<Vec<Token>>, RespellError>
    ensures { MayWrite (λ x. x.items) result (spec.with_column front.now (pieces select.now) (grouping_pieces grouping.now) column.now) }
{
    match keys_in(alloc, grouping.keys)? {
        Some(keys) if are_columns(&keys) => over_table(
            alloc, front, select, grouping, column, &keys,
        ),
        _ => Ok(None),
    }
}

/// The one column that is counted in the items and in the clauses after GROUP BY, if any.
fn column_of<'t>(select: &Select<'t>, grouping: &Grouping<'t>) -> Option<Option<&'t [Token]>>
    ensures { Finds (λ found. option_map (λ column. column.now) found) result (spec.column_of (pieces select.now) (grouping_pieces grouping.now)) }
{
    match column_in(None, &select.select.kind, select.items) {
        Some(so_far) => column_in(so_far, &select.select.kind, grouping.later),
        None => None,
    }
}

/// The replacement of a select after these tokens.
fn respelled_select(
    alloc: Global,
    front: &[Token],
    select: &Select,
) -> Result<Option<Vec<Token>>, RespellError>
    ensures { MayWrite (λ x. x.items) result (spec.respelled_select front.now (pieces select.now)) }
{
    let grouping = grouping_of(select.clauses);
    match column_of(select, &grouping) {
        Some(Some(column)) => with_column(alloc, front, select, &grouping, column),
        _ => Ok(None),
    }
}

/// The query in which the select that begins at a place is respelled.
#[tactic(auto, unfolding(crate::specs::Respelled::respell_at))]
fn respell_at(
    alloc: Global,
    place: usize,
    tokens: &[Token],
) -> Result<Option<Vec<Token>>, RespellError>
    ensures { MayWrite (λ x. x.items) result (spec.respell_at place tokens.now) }
{
    let (front, rest) = split_at_place(place, tokens);
    match select_at(rest) {
        Some(select) => respelled_select(alloc, front, &select),
        None => Ok(None),
    }
}

/// Selects with COUNT( DISTINCT c ).
#[derive(Clone, Copy)]
struct DistinctCounts;

impl Selects for DistinctCounts {
    ghost use Rattle.wd_distinct_counts.specs.Respelled as spec;
    ghost use Rattle.wd_distinct_on.specs.Kinds.{begins, is_select};

    ghost starts = { λ _. begins is_select };

    ghost respelled = { λ _. spec.respell_at };

    fn begins(&self, tokens: &[Token]) -> bool {
        starts_with_select(tokens)
    }

    fn respell_at(
        &self,
        alloc: Global,
        place: usize,
        tokens: &[Token],
    ) -> Result<Option<Vec<Token>>, RespellError> {
        respell_at(alloc, place, tokens)
    }
}

/// The query without COUNT( DISTINCT c ), as far as its selects are read. The error is `TooLong` where the query, or what is written,
/// has more than 65,536 tokens.
pub fn without_distinct_counts(alloc: Global, tokens: &[Token]) -> Result<Vec<Token>, RespellError>
    ensures { Gives (λ x. x.items) result (spec.respelled tokens.now) }
{
    respell_backwards(alloc, &DistinctCounts, MOST_SELECTS, tokens)
}
