//! A select with a derived table for each membership.

ghost use Rattle.std.specs.Prelude.{◌≡◌, ◌≤◌, ◌<◌, ◌+◌, ◌^◌, ◌∷◌, ◌++◌, [], map};
ghost use Rattle.wd_clauses.specs.Given.{Makes, Writes};
ghost use Rattle.wd_distinct_on.specs.Written.{added_name, comma_before};
ghost use Rattle.wd_lex.specs.declared.token.Terminal.TheVariants.{Where};
ghost use Rattle.wd_membership.specs.Named as named;
ghost use Rattle.wd_membership.specs.Names as names;
ghost use Rattle.wd_membership.specs.Written as spec;
ghost use Rattle.wd_using.specs.Named.{pieces};

use crate::conjunct::Conjunct;
use crate::membership::{Member, Membership, Pair};
use crate::name::{column_name, table_name};
use std::alloc::Global;
use wd_clauses::{RespellError, Stop, add, add_all, add_copy, added_terminal, copy_tokens, split};
use wd_lex::{Terminal, Token};
use wd_using::Select;

/// Adds the name of a membership's table.
fn add_table_name(
    alloc: Global,
    written: &mut Vec<Token>,
    membership: &Membership,
    table: usize,
) -> Result<(), RespellError>
    ensures { Writes written.old.items written.new.items result (added_name (names.table_name (named.membership membership.now).test table) (named.membership membership.now).word ∷ []) }
{
    add(
        written,
        table_name(alloc, membership.test, table, membership.word)?,
    )
}

/// Adds the name of a column of a membership's table.
fn add_column_name(
    alloc: Global,
    written: &mut Vec<Token>,
    membership: &Membership,
    table: usize,
    column: usize,
) -> Result<(), RespellError>
    ensures { Writes written.old.items written.new.items result (added_name (names.column_name (named.membership membership.now).test table column) (named.membership membership.now).word ∷ []) }
{
    add(
        written,
        column_name(alloc, membership.test, table, column, membership.word)?,
    )
}

/// Adds `y AS "in 1"`.
fn add_item(
    alloc: Global,
    written: &mut Vec<Token>,
    membership: &Membership,
    table: usize,
    column: usize,
    pair: &Pair,
) -> Result<(), RespellError>
    ensures { Writes written.old.items written.new.items result (spec.item_of (named.membership membership.now) table column (named.pair pair.now)) }
{
    add_all(written, pair.inner)?;
    add(written, added_terminal(Terminal::As, membership.word))?;
    add_column_name(alloc, written, membership, table, column)
}

/// Adds a comma, if something follows.
fn add_comma(written: &mut Vec<Token>, pairs: &[Pair], word: &Token) -> Result<(), RespellError>
    ensures { Writes written.old.items written.new.items result (comma_before (map named.pair pairs.now) word.now) }
{
    match pairs {
        [] => Ok(()),
        [_, ..] => add(written, added_terminal(Terminal::Comma, word)),
    }
}

/// Adds AND, if something follows.
fn add_and(written: &mut Vec<Token>, pairs: &[Pair], word: &Token) -> Result<(), RespellError>
    ensures { Writes written.old.items written.new.items result (spec.and_before (map named.pair pairs.now) word.now) }
{
    match pairs {
        [] => Ok(()),
        [_, ..] => add(written, added_terminal(Terminal::And, word)),
    }
}

/// Adds `y AS "in 1" {, y AS "in 1"}`.
fn add_items(
    alloc: Global,
    written: &mut Vec<Token>,
    membership: &Membership,
    table: usize,
) -> Result<(), RespellError>
    ensures { Writes written.old.items written.new.items result (spec.items (named.membership membership.now) table 1 (named.membership membership.now).pairs) }
{
    let mut column: usize = 1;
    let mut pairs = membership.pairs.as_slice();
    while let [pair, rest @ ..] = pairs {
        add_item(alloc, written, membership, table, column, pair)?;
        add_comma(written, rest, membership.word)?;
        column += 1;
        pairs = rest;
    }
    Ok(())
}

/// Adds `WHERE test {AND test}`.
fn add_conditions(written: &mut Vec<Token>, conjuncts: &[Conjunct]) -> Result<(), RespellError>
    ensures { Writes written.old.items written.new.items result (spec.conditions Where (map named.conjunct conjuncts.now)) }
{
    let mut first = Terminal::Where;
    let mut rest = conjuncts;
    while let [conjunct, after @ ..] = rest {
        add(written, added_terminal(first, conjunct.word))?;
        add_all(written, conjunct.test)?;
        first = Terminal::And;
        rest = after;
    }
    Ok(())
}

/// Adds `) AS "in 1"`.
fn add_alias(
    alloc: Global,
    written: &mut Vec<Token>,
    membership: &Membership,
    table: usize,
) -> Result<(), RespellError>
    ensures { Writes written.old.items written.new.items result (spec.alias (named.membership membership.now) table) }
{
    add(
        written,
        added_terminal(Terminal::RightBracket, membership.word),
    )?;
    add(written, added_terminal(Terminal::As, membership.word))?;
    add_table_name(alloc, written, membership, table)
}

/// Adds `SELECT DISTINCT y AS "in 1" FROM ..`.
fn add_query(
    alloc: Global,
    written: &mut Vec<Token>,
    membership: &Membership,
    table: usize,
) -> Result<(), RespellError>
    ensures { Writes written.old.items written.new.items result (spec.query (named.membership membership.now) table) }
{
    add_copy(written, membership.select)?;
    add(written, added_terminal(Terminal::Distinct, membership.word))?;
    add_items(alloc, written, membership, table)?;
    add_all(written, membership.tables)?;
    add_conditions(written, &membership.conjuncts)?;
    add_all(written, membership.clauses)
}

/// Adds `, ( query ) AS "in 1"`.
fn add_derived(
    alloc: Global,
    written: &mut Vec<Token>,
    membership: &Membership,
    table: usize,
) -> Result<(), RespellError>
    ensures { Writes written.old.items written.new.items result (spec.derived (named.membership membership.now) table) }
{
    add(written, added_terminal(Terminal::Comma, membership.word))?;
    add(
        written,
        added_terminal(Terminal::LeftBracket, membership.word),
    )?;
    add_query(alloc, written, membership, table)?;
    add_alias(alloc, written, membership, table)
}

/// Adds `= "in 1"."in 1"`.
fn add_column(
    alloc: Global,
    written: &mut Vec<Token>,
    membership: &Membership,
    table: usize,
    column: usize,
) -> Result<(), RespellError>
    ensures { Writes written.old.items written.new.items result (spec.column_of (named.membership membership.now) table column) }
{
    add(written, added_terminal(Terminal::Equals, membership.word))?;
    add_table_name(alloc, written, membership, table)?;
    add(written, added_terminal(Terminal::Dot, membership.word))?;
    add_column_name(alloc, written, membership, table, column)
}

/// Adds `x = "in 1"."in 1"`.
fn add_comparison(
    alloc: Global,
    written: &mut Vec<Token>,
    membership: &Membership,
    table: usize,
    column: usize,
    pair: &Pair,
) -> Result<(), RespellError>
    ensures { Writes written.old.items written.new.items result (spec.comparison_of (named.membership membership.now) table column (named.pair pair.now)) }
{
    add_all(written, pair.outer)?;
    add_column(alloc, written, membership, table, column)
}

/// Adds `x = "in 1"."in 1" {AND x = "in 1"."in 1"}`.
fn add_comparisons(
    alloc: Global,
    written: &mut Vec<Token>,
    membership: &Membership,
    table: usize,
) -> Result<(), RespellError>
    ensures { Writes written.old.items written.new.items result (spec.comparisons (named.membership membership.now) table 1 (named.membership membership.now).pairs) }
{
    let mut column: usize = 1;
    let mut pairs = membership.pairs.as_slice();
    while let [pair, rest @ ..] = pairs {
        add_comparison(alloc, written, membership, table, column, pair)?;
        add_and(written, rest, membership.word)?;
        column += 1;
        pairs = rest;
    }
    Ok(())
}

/// Adds the table of a membership.
fn add_table(
    alloc: Global,
    written: &mut Vec<Token>,
    member: &Member,
    table: usize,
) -> Result<(), RespellError>
    ensures { Writes written.old.items written.new.items result (spec.table_if table (named.member member.now).membership) }
{
    match &member.membership {
        Some(membership) => add_derived(alloc, written, membership, table),
        None => Ok(()),
    }
}

/// The number of the next table.
fn next(table: usize, member: &Member) -> usize
    requires { table + 1 < 2 ^ 64 }
    ensures next { result ≡ spec.next table (named.member member.now).membership }
    ensures most { result ≤ table + 1 }
{
    match &member.membership {
        Some(_) => table + 1,
        None => table,
    }
}

/// Adds the tables of the memberships.
fn add_tables(
    alloc: Global,
    written: &mut Vec<Token>,
    members: &[Member],
) -> Result<(), RespellError>
    ensures { Writes written.old.items written.new.items result (spec.tables 1 (map named.member members.now)) }
{
    let mut table: usize = 1;
    let mut rest = members;
    while let [member, after @ ..] = rest {
        add_table(alloc, written, member, table)?;
        table = next(table, member);
        rest = after;
    }
    Ok(())
}

/// Adds what a conjunct tests, or the comparisons with the table of the membership that it is.
fn add_test(
    alloc: Global,
    written: &mut Vec<Token>,
    member: &Member,
    table: usize,
) -> Result<(), RespellError>
    ensures { Writes written.old.items written.new.items result (spec.test table (named.member member.now).conjunct (named.member member.now).membership) }
{
    match &member.membership {
        Some(membership) => add_comparisons(alloc, written, membership, table),
        None => add_all(written, member.conjunct.test),
    }
}

/// Adds the conjuncts, with comparisons in place of the memberships.
fn add_tests(
    alloc: Global,
    written: &mut Vec<Token>,
    members: &[Member],
) -> Result<(), RespellError>
    ensures { Writes written.old.items written.new.items result (spec.tests 1 (map named.member members.now)) }
{
    let mut table: usize = 1;
    let mut rest = members;
    while let [member, after @ ..] = rest {
        add_copy(written, member.conjunct.word)?;
        add_test(alloc, written, member, table)?;
        table = next(table, member);
        rest = after;
    }
    Ok(())
}

/// Adds a select with the tables of its memberships, and what follows it.
fn add_select(
    alloc: Global,
    written: &mut Vec<Token>,
    select: &Select,
    members: &[Member],
) -> Result<(), RespellError>
    ensures { Writes written.old.items written.new.items result (spec.written (pieces select.now) (map named.member members.now)) }
{
    let (_conditions, later) = split(Stop::Later, select.clauses);
    add_copy(written, select.select)?;
    add_all(written, select.distinct)?;
    add_all(written, select.items)?;
    add_all(written, select.tables)?;
    add_tables(alloc, written, members)?;
    add_tests(alloc, written, members)?;
    add_all(written, later)?;
    add_all(written, select.after)?;
    Ok(())
}

/// What replaces a select after these tokens.
pub fn write_select(
    alloc: Global,
    front: &[Token],
    select: &Select,
    members: &[Member],
) -> Result<Vec<Token>, RespellError>
    ensures { Makes (λ x. x.items) (λ x. x) result (front.now ++ spec.written (pieces select.now) (map named.member members.now)) }
{
    let mut written = copy_tokens(alloc, front)?;
    add_select(alloc, &mut written, select, members)?;
    Ok(written)
}
