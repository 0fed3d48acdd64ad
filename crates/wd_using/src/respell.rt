//! A query without USING.

ghost use Rattle.std.specs.Prelude.{◌≡◌, map};
ghost use Rattle.wd_distinct_on.specs.Respelled.{Gives, MayWrite};
ghost use Rattle.wd_schema.specs.Schemas.{schema_of};
ghost use Rattle.wd_using.specs.Merged as merging;
ghost use Rattle.wd_using.specs.Named.{joined_table, merged_column, pieces};
ghost use Rattle.wd_using.specs.Respelled as spec;

use crate::join::{Joined, joined_tables};
use crate::kind::{begins_columns, ends_value, goes_on, is_star};
use crate::merge::{Merged, merge_of, names_in, table_of};
use crate::select::{Select, select_at};
use crate::write::write_select;
use std::alloc::Global;
use wd_clauses::RespellError;
use wd_distinct_on::{Selects, respell_backwards, split_at_place, starts_with_select};
use wd_lex::{Token, TokenKind};
use wd_schema::Schema;

// The most selects that are looked at.
const MOST_SELECTS: usize = 128;

// The most merged columns of a select.
const MOST_MERGED: usize = 64;

/// Whether a name is that of a merged column.
fn is_merged(name: &TokenKind, merged: &[Merged]) -> bool
    ensures { result ≡ spec.is_found (merging.table_of name.now (map merged_column merged.now)) }
{
    match table_of(name, merged) {
        Some(_) => true,
        None => false,
    }
}

/// Whether a star stands for columns, or an item may have the name of a merged column.
fn is_unclear(merged: &[Merged], before: &TokenKind, token: &Token, after: &[Token]) -> bool
    ensures { result ≡ spec.is_unclear (map merged_column merged.now) before.now token.now after.now }
{
    (is_star(&token.kind) && begins_columns(before))
        || ((ends_value(before) || goes_on(after)) && is_merged(&token.kind, merged))
}

/// Whether no item stands for all columns or may have the name of a merged column.
fn are_clear(merged: &[Merged], before: &TokenKind, tokens: &[Token]) -> bool
    ensures { result ≡ spec.are_clear (map merged_column merged.now) before.now tokens.now }
{
    let mut last = before;
    let mut rest = tokens;
    while let [first, after @ ..] = rest {
        if is_unclear(merged, last, first, after) {
            return false;
        }
        last = &first.kind;
        rest = after;
    }
    true
}

/// Whether there is at least one merged column, and not too many.
fn are_few(merged: &[Merged]) -> bool
    ensures { result ≡ spec.are_few (map merged_column merged.now) }
{
    match merged {
        [] => false,
        [_first, rest @ ..] => rest.len() < MOST_MERGED,
    }
}

/// What replaces a select after these tokens, if its items are clear.
fn if_clear(
    alloc: Global,
    front: &[Token],
    select: &Select,
    tables: &[Joined],
    merged: &[Merged],
) -> Result<Option<Vec<Token>>, RespellError>
    ensures { MayWrite (λ x. x.items) result (spec.if_clear front.now (pieces select.now) (map joined_table tables.now) (map merged_column merged.now)) }
{
    if are_few(merged) && are_clear(merged, &select.select.kind, select.items) {
        let tokens = write_select(alloc, front, merged, tables, select)?;
        return Ok(Some(tokens));
    }
    Ok(None)
}

/// What replaces a select with these tables.
fn with_tables(
    alloc: Global,
    front: &[Token],
    select: &Select,
    tables: &[Joined],
) -> Result<Option<Vec<Token>>, RespellError>
    ensures { MayWrite (λ x. x.items) result (spec.with_tables front.now (pieces select.now) (map joined_table tables.now)) }
{
    let names = names_in(alloc, tables)?;
    match merge_of(alloc, tables, &names)? {
        Some(merged) => if_clear(alloc, front, select, tables, &merged),
        None => Ok(None),
    }
}

/// What replaces a select after these tokens.
fn respelled_select(
    alloc: Global,
    schema: &Schema,
    front: &[Token],
    select: &Select,
) -> Result<Option<Vec<Token>>, RespellError>
    ensures { MayWrite (λ x. x.items) result (spec.respelled_select (schema_of schema.now) front.now (pieces select.now)) }
{
    match joined_tables(alloc, schema, select.tables)? {
        Some(tables) => with_tables(alloc, front, select, &tables),
        None => Ok(None),
    }
}

/// The query in which the select that begins at a place is respelled.
#[tactic(auto, unfolding(crate::specs::Respelled::respell_at))]
fn respell_at(
    alloc: Global,
    schema: &Schema,
    place: usize,
    tokens: &[Token],
) -> Result<Option<Vec<Token>>, RespellError>
    ensures { MayWrite (λ x. x.items) result (spec.respell_at (schema_of schema.now) place tokens.now) }
{
    let (front, rest) = split_at_place(place, tokens);
    match select_at(rest) {
        Some(select) => respelled_select(alloc, schema, front, &select),
        None => Ok(None),
    }
}

/// The respelling of selects whose tables are joined USING columns, over a schema.
#[derive(Clone, Copy)]
struct Using<'s> {
    schema: &'s Schema,
}

impl<'s> Selects for Using<'s> {
    ghost use Rattle.wd_distinct_on.specs.Kinds.{begins, is_select};
    ghost use Rattle.wd_schema.specs.Schemas.{schema_of};
    ghost use Rattle.wd_using.specs.Respelled as spec;

    ghost starts = { λ _. begins is_select };

    ghost respelled = { λ using. spec.respell_at (schema_of using.schema.now) };

    fn begins(&self, tokens: &[Token]) -> bool {
        starts_with_select(tokens)
    }

    fn respell_at(
        &self,
        alloc: Global,
        place: usize,
        tokens: &[Token],
    ) -> Result<Option<Vec<Token>>, RespellError> {
        respell_at(alloc, self.schema, place, tokens)
    }
}

/// The query without USING, as far as it is clear which columns it merges.
pub fn without_using(
    alloc: Global,
    schema: &Schema,
    tokens: &[Token],
) -> Result<Vec<Token>, RespellError>
    ensures { Gives (λ x. x.items) result (spec.respelled (schema_of schema.now) tokens.now) }
{
    respell_backwards(alloc, &Using { schema }, MOST_SELECTS, tokens)
}
