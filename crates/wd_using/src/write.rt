//! A select without USING.

ghost use Rattle.std.specs.Prelude.{◌≡◌, map, ◌∷◌, [], ◌++◌, Option, option_map};
ghost use Rattle.wd_clauses.specs.Added as spelling;
ghost use Rattle.wd_clauses.specs.Given.{Makes, Writes};
ghost use Rattle.wd_lex.specs.declared.token.Terminal.TheVariants.{On};
ghost use Rattle.wd_using.specs.Merged as merging;
ghost use Rattle.wd_using.specs.Named as named;
ghost use Rattle.wd_using.specs.Written as spec;

use crate::join::Joined;
use crate::kind::{goes_on, is_taken};
use crate::merge::{Merged, table_of};
use crate::select::Select;
use std::alloc::Global;
use wd_clauses::{RespellError, add, add_all, add_copy, added_terminal, copy_tokens};
use wd_distinct_on::add_placed;
use wd_lex::{Terminal, Token, TokenKind};

/// Adds `table.name`; all tokens but the name have the place of a word.
fn add_of_table(
    written: &mut Vec<Token>,
    word: &Token,
    name: &Token,
    table: &Token,
) -> Result<(), RespellError>
    ensures { Writes written.old.items written.new.items result (spec.of_table word.now name.now table.now) }
{
    add_placed(written, table, word)?;
    add(written, added_terminal(Terminal::Dot, word))?;
    add_copy(written, name)
}

/// Adds a name, with its table if it is a merged column.
fn add_column(
    written: &mut Vec<Token>,
    merged: &[Merged],
    word: &Token,
    name: &Token,
) -> Result<(), RespellError>
    ensures { Writes written.old.items written.new.items result (spec.of_table_if word.now name.now (merging.table_of name.now.kind (map named.merged_column merged.now))) }
{
    match table_of(&name.kind, merged) {
        Some(table) => add_of_table(written, word, name, table),
        None => add_copy(written, name),
    }
}

/// Adds what replaces a token between two others.
fn add_token(
    written: &mut Vec<Token>,
    merged: &[Merged],
    before: &TokenKind,
    token: &Token,
    after: &[Token],
) -> Result<(), RespellError>
    ensures { Writes written.old.items written.new.items result (spec.written_token (map named.merged_column merged.now) before.now token.now after.now) }
{
    if is_taken(before) || goes_on(after) {
        return add_copy(written, token);
    }
    add_column(written, merged, token, token)
}

/// Adds tokens, with its table before each merged column.
#[tactic(auto, unfolding(crate::specs::Written::qualified))]
fn add_qualified(
    written: &mut Vec<Token>,
    merged: &[Merged],
    before: &TokenKind,
    tokens: &[Token],
) -> Result<(), RespellError>
    ensures { Writes written.old.items written.new.items result (spec.qualified (map named.merged_column merged.now) before.now tokens.now) }
{
    let mut last = before;
    let mut rest = tokens;
    while let [first, after @ ..] = rest {
        add_token(written, merged, last, first, after)?;
        last = &first.kind;
        rest = after;
    }
    Ok(())
}

/// Adds `left.name = right.name`.
fn add_comparison(
    written: &mut Vec<Token>,
    merged: &[Merged],
    table: &Joined,
    name: &Token,
) -> Result<(), RespellError>
    ensures { Writes written.old.items written.new.items result (spec.comparison (map named.merged_column merged.now) (named.joined_table table.now) name.now) }
{
    let word = table.condition.word;
    add_column(written, merged, word, name)?;
    add(written, added_terminal(Terminal::Equals, word))?;
    add_of_table(written, word, name, table.alias)
}

/// Adds a comparison after a word.
fn add_compared(
    written: &mut Vec<Token>,
    merged: &[Merged],
    table: &Joined,
    first: Terminal,
    name: &Token,
) -> Result<(), RespellError>
    ensures { Writes written.old.items written.new.items result (spelling.added first table.now.condition.word.now ∷ spec.comparison (map named.merged_column merged.now) (named.joined_table table.now) name.now) }
{
    add(written, added_terminal(first, table.condition.word))?;
    add_comparison(written, merged, table, name)
}

/// Adds ON and the comparisons of the columns of USING.
fn add_comparisons(
    written: &mut Vec<Token>,
    merged: &[Merged],
    table: &Joined,
) -> Result<(), RespellError>
    ensures { Writes written.old.items written.new.items result (spec.comparisons (map named.merged_column merged.now) (named.joined_table table.now) On (named.joined_table table.now).condition.names) }
{
    let mut first = Terminal::On;
    let mut names = table.condition.names.as_slice();
    while let [name, rest @ ..] = names {
        add_compared(written, merged, table, first, name)?;
        first = Terminal::And;
        names = rest;
    }
    Ok(())
}

/// Adds a table, and the condition on which it is joined.
fn add_joined(
    written: &mut Vec<Token>,
    merged: &[Merged],
    table: &Joined,
) -> Result<(), RespellError>
    ensures { Writes written.old.items written.new.items result (spec.joined (map named.merged_column merged.now) (named.joined_table table.now)) }
{
    add_copy(written, table.join)?;
    add_all(written, table.table)?;
    add_comparisons(written, merged, table)?;
    add_qualified(written, merged, &table.alias.kind, table.condition.rest)
}

/// Adds tables, and the conditions on which they are joined.
fn add_all_joined(
    written: &mut Vec<Token>,
    merged: &[Merged],
    tables: &[Joined],
) -> Result<(), RespellError>
    ensures { Writes written.old.items written.new.items result (spec.all_joined (map named.merged_column merged.now) (map named.joined_table tables.now)) }
{
    let mut rest = tables;
    while let [table, after @ ..] = rest {
        add_joined(written, merged, table)?;
        rest = after;
    }
    Ok(())
}

/// Adds a select without USING, and what follows it.
fn add_select(
    written: &mut Vec<Token>,
    merged: &[Merged],
    tables: &[Joined],
    select: &Select,
) -> Result<(), RespellError>
    ensures { Writes written.old.items written.new.items result (spec.written (map named.merged_column merged.now) (map named.joined_table tables.now) (named.pieces select.now)) }
{
    add_copy(written, select.select)?;
    add_all(written, select.distinct)?;
    add_qualified(written, merged, &select.select.kind, select.items)?;
    add_all_joined(written, merged, tables)?;
    add_qualified(written, merged, &select.select.kind, select.clauses)?;
    add_all(written, select.after)
}

/// What replaces a select after these tokens.
pub fn write_select(
    alloc: Global,
    front: &[Token],
    merged: &[Merged],
    tables: &[Joined],
    select: &Select,
) -> Result<Vec<Token>, RespellError>
    ensures { Makes (λ x. x.items) (λ x. x) result (front.now ++ spec.written (map named.merged_column merged.now) (map named.joined_table tables.now) (named.pieces select.now)) }
{
    let mut written = copy_tokens(alloc, front)?;
    add_select(&mut written, merged, tables, select)?;
    Ok(written)
}
