//! The tables of a FROM clause, over a schema.

ghost use Rattle.std.specs.Prelude.{◌≡◌, map, option_map, IfOk};
ghost use Rattle.wd_clauses.specs.Given.{Finds};
ghost use Rattle.wd_natural.specs.Named as named;
ghost use Rattle.wd_natural.specs.Naturals as spec;
ghost use Rattle.wd_schema.specs.Schemas.{schema_of};
ghost use Rattle.wd_using.specs.Joins as joins;

use crate::kind::{begins_condition, begins_table, is_inner, is_join, is_natural};
use std::alloc::{AllocError, Global};
use wd_distinct_on::split_at_place;
use wd_lex::Token;
use wd_schema::Schema;
use wd_using::{Extent, Source, source_at, split_at};

/// NATURAL, if it is written, FROM or JOIN, and the tokens after them.
#[derive(Drop)]
pub struct Head<'t> {
    pub natural: Option<&'t Token>,
    pub join: &'t Token,
    pub after: &'t [Token],
}

/// A table as it is joined: NATURAL, if it is written, FROM or JOIN, the table with its alias, its columns, and the tokens after it.
#[derive(Drop)]
pub struct Joined<'t> {
    pub natural: Option<&'t Token>,
    pub join: &'t Token,
    pub table: &'t [Token],
    pub columns: Vec<&'t str>,
    pub rest: &'t [Token],
}

/// The tokens after INNER, which may be left out.
fn after_inner(tokens: &[Token]) -> &[Token]
    ensures { result.now ≡ spec.after_inner tokens.now }
{
    match tokens {
        [word, rest @ ..] if is_inner(&word.kind) => rest,
        _ => tokens,
    }
}

/// JOIN after NATURAL.
fn natural_head<'t>(word: &'t Token, tokens: &'t [Token]) -> Option<Head<'t>>
    ensures { Finds named.join_head result (spec.natural_head word.now tokens.now) }
{
    match tokens {
        [join, after @ ..] if is_join(&join.kind) => Some(Head {
            natural: Some(word),
            join,
            after,
        }),
        _ => None,
    }
}

/// `NATURAL [INNER] JOIN`, or FROM, or JOIN.
fn head_at(tokens: &[Token]) -> Option<Head<'_>>
    ensures { Finds named.join_head result (spec.head_at tokens.now) }
{
    let [word, after @ ..] = tokens else {
        return None;
    };
    if is_natural(&word.kind) {
        return natural_head(word, after_inner(after));
    }
    if begins_table(&word.kind) {
        return Some(Head {
            natural: None,
            join: word,
            after,
        });
    }
    None
}

/// Whether no token is left, or INNER comes before the next JOIN.
fn ends(tokens: &[Token]) -> bool
    ensures { result ≡ joins.ends tokens.now }
{
    match tokens {
        [] => true,
        [word] => is_inner(&word.kind),
        _ => false,
    }
}

/// Whether these tokens may come after a table.
fn fits(natural: Option<&Token>, rest: &[Token]) -> bool
    ensures { result ≡ spec.fits (option_map (λ word. word.now) natural.entry) rest.now }
{
    if ends(rest) {
        return true;
    }
    match (natural, rest) {
        (None, [first, ..]) => begins_condition(&first.kind),
        _ => false,
    }
}

// The most columns of a table.
const MOST_COLUMNS: usize = 128;

/// A table, its alias, and the tokens after it.
fn join_at<'t>(
    alloc: Global,
    schema: &'t Schema,
    head: &Head<'t>,
    tokens: &'t [Token],
) -> Result<Option<Joined<'t>>, AllocError>
    ensures { IfOk result (λ found. Finds named.natural_table found (spec.join_at (schema_of schema.now) (named.join_head head.now) tokens.now)) }
{
    let Some(Source { columns, alias }) = source_at(alloc, schema, tokens)? else {
        return Ok(None);
    };
    let (table, rest) = split_at_place(alias.count, tokens);
    if fits(head.natural, rest) && columns.len() <= MOST_COLUMNS {
        return Ok(Some(Joined {
            natural: head.natural,
            join: head.join,
            table,
            columns,
            rest,
        }));
    }
    Ok(None)
}

/// A table with the words that join it, and the tokens after it.
#[tactic(auto, unfolding(crate::specs::Naturals::table_at))]
fn table_at<'t>(
    alloc: Global,
    schema: &'t Schema,
    tokens: &'t [Token],
) -> Result<Option<(Joined<'t>, &'t [Token])>, AllocError>
    ensures { IfOk result (λ found. Finds (λ x. (named.natural_table x.0, x.1.now)) found (spec.table_at (schema_of schema.now) tokens.now)) }
{
    let Some(head) = head_at(tokens) else {
        return Ok(None);
    };
    let (part, after) = split_at(Extent::Table, head.after);
    match join_at(alloc, schema, &head, part)? {
        Some(table) => Ok(Some((table, after))),
        None => Ok(None),
    }
}

/// Whether no token is left.
fn is_end(tokens: &[Token]) -> bool
    ensures { result ≡ joins.is_end tokens.now }
{
    match tokens {
        [] => true,
        [_, ..] => false,
    }
}

// The most tables of a FROM clause.
const MOST_TABLES: usize = 32;

/// The tables of a FROM clause, if there are at most 32 and each is read.
pub fn joined_tables<'t>(
    alloc: Global,
    schema: &'t Schema,
    tokens: &'t [Token],
) -> Result<Option<Vec<Joined<'t>>>, AllocError>
    ensures { IfOk result (λ found. Finds (λ x. map named.natural_table x.items) found (spec.joined_tables (schema_of schema.now) spec.most_tables tokens.now)) }
{
    let mut tables = Vec::new(alloc);
    let mut rest = tokens;
    for _ in 0..MOST_TABLES {
        match table_at(alloc, schema, rest)? {
            Some((table, after)) => {
                tables.push(table)?;
                if is_end(after) {
                    return Ok(Some(tables));
                }
                rest = after;
            }
            None => return Ok(None),
        }
    }
    Ok(None)
}
