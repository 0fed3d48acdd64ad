//! The columns that USING merges, and the table that each is attributed to.

ghost use Rattle.std.specs.Prelude.{◌≡◌, map, IfOk, ◌++◌};
ghost use Rattle.wd_clauses.specs.Given.{Finds};
ghost use Rattle.wd_using.specs.Merged as spec;
ghost use Rattle.wd_using.specs.Named.{joined_table, merged_column};

use crate::join::Joined;
use crate::kind::is_named;
use std::alloc::{AllocError, Global};
use wd_clauses::is_same_name;
use wd_lex::{Token, TokenKind};

/// A merged column, and the alias of its table.
#[derive(Drop)]
pub struct Merged<'t> {
    pub name: &'t Token,
    pub table: &'t Token,
}

/// Whether one of the columns has that name.
fn has_column(name: &TokenKind, mut columns: &[&str]) -> bool
    ensures { result ≡ spec.has_column name.now (map (λ column. column.now) columns.entry.now) }
{
    while let [column, rest @ ..] = columns {
        if is_named(column.as_bytes(), name) {
            return true;
        }
        columns = rest;
    }
    false
}

/// Whether a name is among others.
fn has_name(name: &TokenKind, mut names: &[&Token]) -> bool
    ensures { result ≡ spec.has_name name.now (map (λ other. other.now) names.entry.now) }
{
    while let [other, rest @ ..] = names {
        if is_same_name(&other.kind, name) {
            return true;
        }
        names = rest;
    }
    false
}

/// Whether a table is joined USING a column exactly if it has the column.
fn is_joined_by(name: &TokenKind, table: &Joined) -> bool
    ensures { result ≡ spec.is_joined_by name.now (joined_table table.now) }
{
    has_column(name, &table.columns) == has_name(name, &table.condition.names)
}

/// Whether each table is joined USING a column exactly if it has the column.
fn are_joined_by(name: &TokenKind, mut tables: &[Joined]) -> bool
    ensures { result ≡ spec.are_joined_by name.now (map joined_table tables.entry.now) }
{
    while let [table, rest @ ..] = tables {
        if !is_joined_by(name, table) {
            return false;
        }
        tables = rest;
    }
    true
}

/// The first table that has the column, if it is clear which one that is.
fn first_with<'t>(name: &TokenKind, tables: &[Joined<'t>]) -> Option<&'t Token>
    ensures { Finds (λ table. table.now) result (spec.first_with name.now (map joined_table tables.now)) }
{
    let mut left = tables;
    while let [table, rest @ ..] = left {
        if has_name(name, &table.condition.names) {
            return None;
        }
        if has_column(name, &table.columns) {
            if are_joined_by(name, rest) {
                return Some(table.alias);
            }
            return None;
        }
        left = rest;
    }
    None
}

/// The merged columns of these names, if each is clear.
pub fn merge_of<'t>(
    alloc: Global,
    tables: &[Joined<'t>],
    names: &[&'t Token],
) -> Result<Option<Vec<Merged<'t>>>, AllocError>
    ensures { IfOk result (λ found. Finds (λ x. map merged_column x.items) found (spec.merge_of (map joined_table tables.now) (map (λ name. name.now) names.now))) }
{
    let mut merged = Vec::new(alloc);
    let mut rest = names;
    while let [name, after @ ..] = rest {
        match first_with(&name.kind, tables) {
            Some(table) => merged.push(Merged { name: *name, table })?,
            None => return Ok(None),
        }
        rest = after;
    }
    Ok(Some(merged))
}

/// Adds names after others.
fn add_names<'t>(written: &mut Vec<&'t Token>, mut names: &[&'t Token]) -> Result<(), AllocError>
    ensures { IfOk result (λ _. map (λ name. name.now) written.new.items ≡ map (λ name. name.now) written.old.items ++ map (λ name. name.now) names.entry.now) }
{
    while let [name, rest @ ..] = names {
        written.push(*name)?;
        names = rest;
    }
    Ok(())
}

/// The columns of each USING.
pub fn names_in<'t>(alloc: Global, tables: &[Joined<'t>]) -> Result<Vec<&'t Token>, AllocError>
    ensures { IfOk result (λ x. map (λ name. name.now) x.items ≡ spec.names_in (map joined_table tables.now)) }
{
    let mut names = Vec::new(alloc);
    let mut rest = tables;
    while let [table, after @ ..] = rest {
        add_names(&mut names, &table.condition.names)?;
        rest = after;
    }
    Ok(names)
}

/// The table of a merged column.
pub fn table_of<'t>(name: &TokenKind, merged: &[Merged<'t>]) -> Option<&'t Token>
    ensures { Finds (λ table. table.now) result (spec.table_of name.now (map merged_column merged.now)) }
{
    let mut left = merged;
    while let [column, rest @ ..] = left {
        if is_same_name(&column.name.kind, name) {
            return Some(column.table);
        }
        left = rest;
    }
    None
}
