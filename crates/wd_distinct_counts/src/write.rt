//! The select that replaces one with COUNT( DISTINCT c ).

ghost use Rattle.std.specs.Prelude.{◌≡◌, ◌++◌, option_map};
ghost use Rattle.wd_clauses.specs.Given.{Makes, Writes};
ghost use Rattle.wd_distinct_counts.specs.Named.{grouping_pieces};
ghost use Rattle.wd_distinct_counts.specs.Written as spec;
ghost use Rattle.wd_grouping.specs.Named.{one_table};
ghost use Rattle.wd_using.specs.Named.{pieces};

use crate::count::add_counted;
use crate::select::{Grouping, condition_of};
use std::alloc::Global;
use wd_clauses::{RespellError, add, add_all, add_copy, added_terminal, copy_tokens};
use wd_distinct_on::{add_all_placed, add_terminals};
use wd_grouping::{OneTable, add_closing, add_qualified};
use wd_lex::{Terminal, Token};
use wd_using::Select;

/// Adds a comma after keys.
fn add_comma_after(
    written: &mut Vec<Token>,
    keys: &[Token],
    word: &Token,
) -> Result<(), RespellError>
    ensures { Writes written.old.items written.new.items result (spec.comma_after keys.now word.now) }
{
    if !keys.is_empty() {
        add(written, added_terminal(Terminal::Comma, word))?;
    }
    Ok(())
}

/// Adds `keys, c`.
fn add_columns(
    written: &mut Vec<Token>,
    keys: &[Token],
    column: &[Token],
    word: &Token,
) -> Result<(), RespellError>
    ensures { Writes written.old.items written.new.items result (spec.columns keys.now column.now word.now) }
{
    add_all_placed(written, keys, word)?;
    add_comma_after(written, keys, word)?;
    add_all_placed(written, column, word)
}

/// Adds `FROM ( SELECT`.
#[tactic(auto, unfolding(crate::specs::Written::opening))]
fn add_opening(written: &mut Vec<Token>, word: &Token) -> Result<(), RespellError>
    ensures { Writes written.old.items written.new.items result (spec.opening word.now) }
{
    let words = [Terminal::From, Terminal::LeftBracket, Terminal::Select];
    add_terminals(written, &words, word)
}

/// Adds `FROM ( SELECT keys, c FROM .. WHERE ..`.
fn add_inner(
    written: &mut Vec<Token>,
    select: &Select,
    one: &OneTable,
    keys: &[Token],
    column: &[Token],
) -> Result<(), RespellError>
    ensures { Writes written.old.items written.new.items result (spec.inner (pieces select.now) (one_table one.now) keys.now column.now) }
{
    add_opening(written, one.from)?;
    add_columns(written, keys, column, one.from)?;
    add_all(written, select.tables)?;
    add_all(written, condition_of(select.clauses))
}

/// Adds `GROUP BY keys, c ) AS a`.
fn add_by_columns(
    written: &mut Vec<Token>,
    one: &OneTable,
    keys: &[Token],
    column: &[Token],
) -> Result<(), RespellError>
    ensures { Writes written.old.items written.new.items result (spec.by_columns (one_table one.now) keys.now column.now) }
{
    add_terminals(written, &[Terminal::Group, Terminal::By], one.from)?;
    add_columns(written, keys, column, one.from)?;
    add_closing(written, one.alias, one.from)
}

/// Adds `SELECT [DISTINCT] items`.
fn add_head(
    written: &mut Vec<Token>,
    select: &Select,
    table: Option<&Token>,
) -> Result<(), RespellError>
    ensures { Writes written.old.items written.new.items result (spec.head (pieces select.now) (option_map (λ table. table.now) table.entry)) }
{
    add_copy(written, select.select)?;
    add_all(written, select.distinct)?;
    add_counted(written, table, &select.select.kind, select.items)
}

/// Adds `[GROUP BY keys]` and the clauses after them.
fn add_tail(
    written: &mut Vec<Token>,
    select: &Select,
    grouping: &Grouping,
    table: Option<&Token>,
) -> Result<(), RespellError>
    ensures { Writes written.old.items written.new.items result (spec.tail (pieces select.now) (grouping_pieces grouping.now) (option_map (λ table. table.now) table.entry)) }
{
    add_all(written, grouping.words)?;
    add_qualified(written, table, grouping.keys)?;
    add_counted(written, table, &select.select.kind, grouping.later)?;
    add_all(written, select.after)
}

/// The select that counts each value of a column once, and what follows it, after these tokens.
pub fn write_select(
    alloc: Global,
    front: &[Token],
    select: &Select,
    grouping: &Grouping,
    one: &OneTable,
    column: &[Token],
) -> Result<Vec<Token>, RespellError>
    ensures { Makes (λ x. x.items) (λ x. x) result (front.now ++ spec.written (pieces select.now) (grouping_pieces grouping.now) (one_table one.now) column.now) }
{
    let mut written = copy_tokens(alloc, front)?;
    add_head(&mut written, select, one.qualifier)?;
    add_inner(&mut written, select, one, grouping.keys, column)?;
    add_by_columns(&mut written, one, grouping.keys, column)?;
    add_tail(&mut written, select, grouping, one.qualifier)?;
    Ok(written)
}
