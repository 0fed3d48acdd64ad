//! A FROM clause without NATURAL JOIN.

ghost use Rattle.std.specs.Prelude.{◌≡◌, map, IfOk, [], ◌∷◌, ◌++◌};
ghost use Rattle.wd_clauses.specs.Added as spelling;
ghost use Rattle.wd_clauses.specs.Given.{Makes, Writes};
ghost use Rattle.wd_distinct_on.specs.Written as naming;
ghost use Rattle.wd_lex.specs.declared.token.Terminal.TheVariants.{LeftBracket};
ghost use Rattle.wd_natural.specs.Named.{natural_table};
ghost use Rattle.wd_natural.specs.Written as spec;

use crate::join::Joined;
use std::alloc::{AllocError, Global};
use wd_clauses::{RespellError, add, add_all, add_copy, added_terminal, copy_tokens};
use wd_distinct_on::add_name;
use wd_lex::{Terminal, Token};

/// Whether one of the columns has that name.
fn has_column(name: &str, mut columns: &[&str]) -> bool
    ensures { result ≡ spec.has_column name.now (map (λ column. column.now) columns.entry.now) }
{
    while let [column, rest @ ..] = columns {
        if column.as_bytes() == name.as_bytes() {
            return true;
        }
        columns = rest;
    }
    false
}

/// The columns that both tables have.
fn common<'t>(alloc: Global, left: &[&str], columns: &[&'t str]) -> Result<Vec<&'t str>, AllocError>
    ensures { IfOk result (λ x. map (λ name. name.now) x.items ≡ spec.common (map (λ column. column.now) left.now) (map (λ column. column.now) columns.now)) }
{
    let mut names = Vec::new(alloc);
    let mut rest = columns;
    while let [column, after @ ..] = rest {
        if has_column(column, left) {
            names.push(*column)?;
        }
        rest = after;
    }
    Ok(names)
}

/// Adds a name after a terminal.
fn add_next_name(
    alloc: Global,
    written: &mut Vec<Token>,
    first: Terminal,
    name: &str,
    word: &Token,
) -> Result<(), RespellError>
    ensures { Writes written.old.items written.new.items result (spelling.added first word.now ∷ naming.added_name name.now word.now ∷ []) }
{
    add(written, added_terminal(first, word))?;
    add_name(alloc, written, name, word)
}

/// Adds a bracket and a name, and a comma and each further name.
fn add_names(
    alloc: Global,
    written: &mut Vec<Token>,
    names: &[&str],
    word: &Token,
) -> Result<(), RespellError>
    ensures { Writes written.old.items written.new.items result (spec.listed LeftBracket (map (λ name. name.now) names.now) word.now) }
{
    let mut first = Terminal::LeftBracket;
    let mut rest = names;
    while let [name, after @ ..] = rest {
        add_next_name(alloc, written, first, name, word)?;
        first = Terminal::Comma;
        rest = after;
    }
    Ok(())
}

/// Adds `USING ( names )`, or ON TRUE where there are no names.
fn add_condition(
    alloc: Global,
    written: &mut Vec<Token>,
    names: &[&str],
    word: &Token,
) -> Result<(), RespellError>
    ensures { Writes written.old.items written.new.items result (spec.condition (map (λ name. name.now) names.now) word.now) }
{
    if names.is_empty() {
        add(written, added_terminal(Terminal::On, word))?;
        return add(written, added_terminal(Terminal::True, word));
    }
    add(written, added_terminal(Terminal::Using, word))?;
    add_names(alloc, written, names, word)?;
    add(written, added_terminal(Terminal::RightBracket, word))
}

/// Adds the condition of a NATURAL JOIN with a table, after tables with these columns.
fn add_condition_if(
    alloc: Global,
    written: &mut Vec<Token>,
    left: &[&str],
    table: &Joined,
) -> Result<(), RespellError>
    ensures { Writes written.old.items written.new.items result (spec.condition_if (map (λ column. column.now) left.now) (natural_table table.now).columns (natural_table table.now).natural) }
{
    match table.natural {
        Some(word) => {
            let names = common(alloc, left, &table.columns)?;
            add_condition(alloc, written, &names, word)
        }
        None => Ok(()),
    }
}

/// Adds a table after tables with these columns, and the condition on which it is joined.
fn add_joined(
    alloc: Global,
    written: &mut Vec<Token>,
    left: &[&str],
    table: &Joined,
) -> Result<(), RespellError>
    ensures { Writes written.old.items written.new.items result (spec.joined (map (λ column. column.now) left.now) (natural_table table.now)) }
{
    add_copy(written, table.join)?;
    add_all(written, table.table)?;
    add_condition_if(alloc, written, left, table)?;
    add_all(written, table.rest)
}

/// Adds columns after others.
fn add_columns<'t>(left: &mut Vec<&'t str>, mut columns: &[&'t str]) -> Result<(), AllocError>
    ensures { IfOk result (λ _. map (λ column. column.now) left.new.items ≡ map (λ column. column.now) left.old.items ++ map (λ column. column.now) columns.entry.now) }
{
    while let [column, rest @ ..] = columns {
        left.push(*column)?;
        columns = rest;
    }
    Ok(())
}

/// Adds tables, and the conditions on which they are joined.
fn add_all_joined(
    alloc: Global,
    written: &mut Vec<Token>,
    tables: &[Joined],
) -> Result<(), RespellError>
    ensures { Writes written.old.items written.new.items result (spec.all_joined [] (map natural_table tables.now)) }
{
    let mut left = Vec::new(alloc);
    let mut rest = tables;
    while let [table, after @ ..] = rest {
        add_joined(alloc, written, &left, table)?;
        add_columns(&mut left, &table.columns)?;
        rest = after;
    }
    Ok(())
}

/// What replaces a FROM clause between these tokens.
pub fn write_clause(
    alloc: Global,
    front: &[Token],
    tables: &[Joined],
    after: &[Token],
) -> Result<Vec<Token>, RespellError>
    ensures { Makes (λ x. x.items) (λ x. x) result (front.now ++ spec.all_joined [] (map natural_table tables.now) ++ after.now) }
{
    let mut written = copy_tokens(alloc, front)?;
    add_all_joined(alloc, &mut written, tables)?;
    add_all(&mut written, after)?;
    Ok(written)
}
