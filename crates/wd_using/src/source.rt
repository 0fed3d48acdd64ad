//! The tables of a FROM clause, declared or derived, with their columns and aliases.

ghost use Rattle.std.specs.Prelude.{◌≡◌, ◌≤◌, map, IfOk};
ghost use Rattle.wd_clauses.specs.Given.{Finds};
ghost use Rattle.wd_clauses.specs.Reach as reach;
ghost use Rattle.wd_distinct_on.specs.Items as items;
ghost use Rattle.wd_schema.specs.Schemas.{schema_of};
ghost use Rattle.wd_schema.specs.Tables as rules;
ghost use Rattle.wd_using.specs.Joins as spec;
ghost use Rattle.wd_using.specs.Named as named;

use crate::kind::{begins_distinct, is_as, is_select, opens};
use std::alloc::{AllocError, Global};
use wd_clauses::{Stop, closing, is_name, parts, split};
use wd_distinct_on::{item_of, split_at_place};
use wd_lex::{Token, TokenKind};
use wd_schema::{Column, Schema, Table};

/// How many tokens a table and its alias take, and the name before its columns.
#[derive(Drop)]
pub struct Alias<'t> {
    pub count: usize,
    pub name: &'t Token,
}

/// The columns of a table, and its alias.
#[derive(Drop)]
pub struct Source<'t> {
    pub columns: Vec<&'t str>,
    pub alias: Alias<'t>,
}

/// `alias`, after a table's name and AS.
fn alias_after_as<'t>(name: &'t Token, tokens: &'t [Token]) -> Alias<'t>
    ensures alias { named.table_alias result ≡ spec.alias_after_as name.now tokens.now }
    ensures few { result.count ≤ 3 }
{
    match tokens {
        [alias, ..] if is_name(&alias.kind) => Alias {
            count: 3,
            name: alias,
        },
        _ => Alias { count: 1, name },
    }
}

/// `[[AS] alias]`, after a table's name.
pub fn alias_at<'t>(name: &'t Token, tokens: &'t [Token]) -> Alias<'t>
    ensures alias { named.table_alias result ≡ spec.alias_at name.now tokens.now }
    ensures few { result.count ≤ 3 }
{
    let [next, rest @ ..] = tokens else {
        return Alias { count: 1, name };
    };
    if is_as(&next.kind) {
        return alias_after_as(name, rest);
    }
    if is_name(&next.kind) {
        return Alias {
            count: 2,
            name: next,
        };
    }
    Alias { count: 1, name }
}

/// The declared table of that name.
fn declared_table<'t>(schema: &'t Schema, name: &TokenKind) -> Option<&'t Table>
    ensures { Finds (λ table. rules.table_of table.now) result (spec.declared (schema_of schema.now) name.now) }
{
    match name {
        TokenKind::Word(text) | TokenKind::Quoted(text) => schema.table(text.as_str()),
        _ => None,
    }
}

/// The name after AS.
pub fn after_as(tokens: &[Token]) -> Option<&Token>
    ensures { Finds (λ name. name.now) result (items.after_as tokens.now) }
{
    match tokens {
        [word, name] if is_as(&word.kind) && is_name(&name.kind) => Some(name),
        _ => None,
    }
}

/// The name of an item.
fn item_name(tokens: &[Token]) -> Option<&Token>
    ensures { Finds (λ name. name.now) result (spec.name_in (items.item_of tokens.now)) }
{
    match item_of(tokens) {
        Some(item) => Some(item.name),
        None => None,
    }
}

/// The text of a name.
fn text_of(kind: &TokenKind) -> Option<&str>
    ensures { Finds (λ text. text.now) result (spec.text_of kind.now) }
{
    match kind {
        TokenKind::Word(text) | TokenKind::Quoted(text) => Some(text.as_str()),
        _ => None,
    }
}

/// The text of an item's name.
fn item_text(tokens: &[Token]) -> Option<&str>
    ensures { Finds (λ text. text.now) result (spec.text_in (spec.name_in (items.item_of tokens.now))) }
{
    match item_name(tokens) {
        Some(name) => text_of(&name.kind),
        None => None,
    }
}

/// The names of items, if each has one.
fn item_names<'t>(alloc: Global, parts: &[&'t [Token]]) -> Result<Option<Vec<&'t str>>, AllocError>
    ensures { IfOk result (λ found. Finds (λ x. map (λ name. name.now) x.items) found (spec.item_names (map (λ part. part.now) parts.now))) }
{
    let mut names = Vec::new(alloc);
    let mut rest = parts;
    while let [part, after @ ..] = rest {
        match item_text(part) {
            Some(name) => names.push(name)?,
            None => return Ok(None),
        }
        rest = after;
    }
    Ok(Some(names))
}

/// The columns of a derived table, by the items of its select.
fn derived_columns(alloc: Global, tokens: &[Token]) -> Result<Option<Vec<&str>>, AllocError>
    ensures { IfOk result (λ found. Finds (λ x. map (λ name. name.now) x.items) found (spec.derived_columns tokens.now)) }
{
    let [select, rest @ ..] = tokens else {
        return Ok(None);
    };
    if !is_select(&select.kind) {
        return Ok(None);
    }
    let (_distinct, list) = split_at_place(if begins_distinct(rest) { 1 } else { 0 }, rest);
    let (items, _after) = split(Stop::From, list);
    match parts(alloc, items)? {
        Some(parts) => item_names(alloc, &parts),
        None => Ok(None),
    }
}

/// The names of columns.
fn names_of_columns(alloc: Global, columns: &[Column]) -> Result<Vec<&str>, AllocError>
    ensures { IfOk result (λ x. map (λ name. name.now) x.items ≡ map (λ column. column.name) columns.now) }
{
    let mut names = Vec::new(alloc);
    let mut rest = columns;
    while let [column, after @ ..] = rest {
        names.push(column.name.as_str())?;
        rest = after;
    }
    Ok(names)
}

/// A declared table.
fn declared_source<'t>(
    alloc: Global,
    schema: &'t Schema,
    name: &TokenKind,
    alias: Alias<'t>,
) -> Result<Option<Source<'t>>, AllocError>
    ensures { IfOk result (λ found. Finds named.table_source found (spec.declared_source (named.table_alias alias.entry) (spec.declared (schema_of schema.now) name.now))) }
{
    match declared_table(schema, name) {
        Some(table) => {
            let columns = names_of_columns(alloc, &table.columns)?;
            Ok(Some(Source { columns, alias }))
        }
        None => Ok(None),
    }
}

/// A query in brackets, and its alias.
fn derived_source<'t>(
    alloc: Global,
    bracket: &'t Token,
    tokens: &'t [Token],
) -> Result<Option<Source<'t>>, AllocError>
    ensures { IfOk result (λ found. Finds named.table_source found (spec.derived_source bracket.now tokens.now (reach.closing tokens.now))) }
{
    let Some(place) = closing(tokens) else {
        return Ok(None);
    };
    let Alias { count, name } = alias_at(bracket, &tokens[place + 1..]);
    if count == 1 {
        return Ok(None);
    }
    match derived_columns(alloc, &tokens[..place])? {
        Some(columns) => Ok(Some(Source {
            columns,
            alias: Alias {
                count: place + 1 + count,
                name,
            },
        })),
        None => Ok(None),
    }
}

/// A declared table, or a derived one, with its alias.
#[tactic(auto, unfolding(crate::specs::Joins::source_at))]
pub fn source_at<'t>(
    alloc: Global,
    schema: &'t Schema,
    tokens: &'t [Token],
) -> Result<Option<Source<'t>>, AllocError>
    ensures { IfOk result (λ found. Finds named.table_source found (spec.source_at (schema_of schema.now) tokens.now)) }
{
    let [first, rest @ ..] = tokens else {
        return Ok(None);
    };
    if opens(&first.kind) {
        return derived_source(alloc, first, rest);
    }
    declared_source(alloc, schema, &first.kind, alias_at(first, rest))
}
