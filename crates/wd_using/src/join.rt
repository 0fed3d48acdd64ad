//! The tables of a FROM clause, over a schema.

ghost use Rattle.std.specs.Prelude.{◌≡◌, map, IfOk};
ghost use Rattle.wd_clauses.specs.Given.{Finds};
ghost use Rattle.wd_clauses.specs.Reach as reach;
ghost use Rattle.wd_schema.specs.Schemas.{schema_of};
ghost use Rattle.wd_using.specs.Joins as spec;
ghost use Rattle.wd_using.specs.Named as named;

use crate::kind::{begins_table, has_select, is_inner, is_on, is_using, opens};
use crate::level::{Extent, split_at};
use crate::source::{Source, source_at};
use std::alloc::{AllocError, Global};
use wd_clauses::{closing, is_name, parts};
use wd_distinct_on::split_at_place;
use wd_lex::Token;
use wd_schema::Schema;

/// The columns of USING, the word USING, and the tokens after them; without USING no columns.
#[derive(Drop)]
pub struct Condition<'t> {
    pub word: &'t Token,
    pub names: Vec<&'t Token>,
    pub rest: &'t [Token],
}

/// A table as it is joined: FROM or JOIN, the table with its alias, its columns, and its condition.
#[derive(Drop)]
pub struct Joined<'t> {
    pub join: &'t Token,
    pub table: &'t [Token],
    pub alias: &'t Token,
    pub columns: Vec<&'t str>,
    pub condition: Condition<'t>,
}

/// A name alone.
fn name_of(tokens: &[Token]) -> Option<&Token>
    ensures { Finds (λ name. name.now) result (spec.name_of tokens.now) }
{
    match tokens {
        [name] if is_name(&name.kind) => Some(name),
        _ => None,
    }
}

/// The names, if each part is one.
fn names_of<'t>(alloc: Global, parts: &[&'t [Token]]) -> Result<Option<Vec<&'t Token>>, AllocError>
    ensures { IfOk result (λ found. Finds (λ x. map (λ name. name.now) x.items) found (spec.names_of (map (λ part. part.now) parts.now))) }
{
    let mut names = Vec::new(alloc);
    let mut rest = parts;
    while let [part, after @ ..] = rest {
        match name_of(part) {
            Some(name) => names.push(name)?,
            None => return Ok(None),
        }
        rest = after;
    }
    Ok(Some(names))
}

/// Whether no token is left, or INNER comes before the next JOIN.
fn ends(tokens: &[Token]) -> bool
    ensures { result ≡ spec.ends tokens.now }
{
    match tokens {
        [] => true,
        [word] => is_inner(&word.kind),
        _ => false,
    }
}

/// The names of a list.
fn names_in_list(alloc: Global, tokens: &[Token]) -> Result<Option<Vec<&Token>>, AllocError>
    ensures { IfOk result (λ found. Finds (λ x. map (λ name. name.now) x.items) found (spec.names_in_list tokens.now)) }
{
    match parts(alloc, tokens)? {
        Some(parts) => names_of(alloc, &parts),
        None => Ok(None),
    }
}

/// The columns up to the bracket at a place.
fn names_up_to<'t>(
    alloc: Global,
    word: &'t Token,
    tokens: &'t [Token],
) -> Result<Option<Condition<'t>>, AllocError>
    ensures { IfOk result (λ found. Finds named.join_condition found (spec.names_up_to word.now tokens.now (reach.closing tokens.now))) }
{
    let Some(place) = closing(tokens) else {
        return Ok(None);
    };
    let rest = &tokens[place + 1..];
    if !ends(rest) {
        return Ok(None);
    }
    match names_in_list(alloc, &tokens[..place])? {
        Some(names) => Ok(Some(Condition { word, names, rest })),
        None => Ok(None),
    }
}

/// `( columns )` after USING.
fn using_at<'t>(
    alloc: Global,
    word: &'t Token,
    tokens: &'t [Token],
) -> Result<Option<Condition<'t>>, AllocError>
    ensures { IfOk result (λ found. Finds named.join_condition found (spec.using_at word.now tokens.now)) }
{
    match tokens {
        [bracket, rest @ ..] if opens(&bracket.kind) => names_up_to(alloc, word, rest),
        _ => Ok(None),
    }
}

/// USING columns, or ON a condition, or nothing.
fn condition_at<'t>(
    alloc: Global,
    alias: &'t Token,
    tokens: &'t [Token],
) -> Result<Option<Condition<'t>>, AllocError>
    ensures { IfOk result (λ found. Finds named.join_condition found (spec.condition_at alias.now tokens.now)) }
{
    if let [word, rest @ ..] = tokens {
        if is_using(&word.kind) {
            return using_at(alloc, word, rest);
        }
        if !(is_on(&word.kind) || ends(tokens)) || has_select(rest) {
            return Ok(None);
        }
    }
    Ok(Some(Condition {
        word: alias,
        names: Vec::new(alloc),
        rest: tokens,
    }))
}

/// A table, its alias, and its condition, after FROM or JOIN.
fn join_at<'t>(
    alloc: Global,
    schema: &'t Schema,
    join: &'t Token,
    tokens: &'t [Token],
) -> Result<Option<Joined<'t>>, AllocError>
    ensures { IfOk result (λ found. Finds named.joined_table found (spec.join_at (schema_of schema.now) join.now tokens.now)) }
{
    let Some(Source { columns, alias }) = source_at(alloc, schema, tokens)? else {
        return Ok(None);
    };
    let (table, following) = split_at_place(alias.count, tokens);
    match condition_at(alloc, alias.name, following)? {
        Some(condition) => Ok(Some(Joined {
            join,
            table,
            alias: alias.name,
            columns,
            condition,
        })),
        None => Ok(None),
    }
}

/// FROM or JOIN, a table with its condition, and the tokens after it.
#[tactic(auto, unfolding(crate::specs::Joins::table_at))]
fn table_at<'t>(
    alloc: Global,
    schema: &'t Schema,
    tokens: &'t [Token],
) -> Result<Option<(Joined<'t>, &'t [Token])>, AllocError>
    ensures { IfOk result (λ found. Finds (λ x. (named.joined_table x.0, x.1.now)) found (spec.table_at (schema_of schema.now) tokens.now)) }
{
    let [join, rest @ ..] = tokens else {
        return Ok(None);
    };
    if !begins_table(&join.kind) {
        return Ok(None);
    }
    let (part, following) = split_at(Extent::Table, rest);
    match join_at(alloc, schema, join, part)? {
        Some(table) => Ok(Some((table, following))),
        None => Ok(None),
    }
}

/// Whether no token is left.
fn is_end(tokens: &[Token]) -> bool
    ensures { result ≡ spec.is_end tokens.now }
{
    match tokens {
        [] => true,
        [_, ..] => false,
    }
}

// The most tables of a FROM clause.
const MOST_TABLES: usize = 32;

/// The tables of a FROM clause, if there are at most 32 and each is read.
pub fn joined_tables<'t>(
    alloc: Global,
    schema: &'t Schema,
    tokens: &'t [Token],
) -> Result<Option<Vec<Joined<'t>>>, AllocError>
    ensures { IfOk result (λ found. Finds (λ x. map named.joined_table x.items) found (spec.joined_tables (schema_of schema.now) spec.most_tables tokens.now)) }
{
    let mut tables = Vec::new(alloc);
    let mut rest = tokens;
    for _ in 0..MOST_TABLES {
        match table_at(alloc, schema, rest)? {
            Some((table, following)) => {
                tables.push(table)?;
                if is_end(following) {
                    return Ok(Some(tables));
                }
                rest = following;
            }
            None => return Ok(None),
        }
    }
    Ok(None)
}
