//! Derived tables in place of the tables of a name.

ghost use Rattle.std.specs.Prelude.{◌≡◌, ◌∷◌, [], IfOk, if◌then◌else◌, reverse};
ghost use Rattle.wd_with.specs.declared.place.Place.TheVariants.{Elsewhere};
ghost use Rattle.wd_with.specs.Derived as spec;
ghost use Rattle.wd_clauses.specs.Given.{Makes, Writes};
ghost use Rattle.wd_with.specs.Members.{begins, is_as};
ghost use Rattle.wd_clauses.specs.Names.{is_name};
ghost use Rattle.wd_with.specs.Named.{named_query};

use crate::member::{Member, is_as};
use crate::place::{Place, is_table, pass};
use std::alloc::Global;
use wd_clauses::{RespellError, add, add_all, add_copy, added_terminal, is_name, is_same_name};
use wd_lex::{Terminal, Token, TokenKind};

/// A query with a derived table in place of each table of a name, and how many of these there were.
#[derive(Drop)]
pub struct Respelled {
    pub tokens: Vec<Token>,
    pub uses: usize,
}

/// Whether a name before these tokens continues, or is a function's.
fn goes_on(after: &[Token]) -> bool
    ensures { result ≡ begins spec.goes_on after.now }
{
    match after {
        [next, ..] => matches!(
            next.kind,
            TokenKind::Terminal(Terminal::Dot | Terminal::LeftBracket)
        ),
        [] => false,
    }
}

/// Whether the first token is AS.
fn begins_as(after: &[Token]) -> bool
    ensures { result ≡ begins is_as after.now }
{
    match after {
        [next, ..] => is_as(&next.kind),
        [] => false,
    }
}

/// Whether the first token is a name.
fn begins_name(after: &[Token]) -> bool
    ensures { result ≡ begins is_name after.now }
{
    match after {
        [next, ..] => is_name(&next.kind),
        [] => false,
    }
}

/// Whether the token is a table that names the member.
fn is_read(member: &Member, levels: &[Place], token: &Token, after: &[Token]) -> bool
    ensures { result ≡ spec.is_read (named_query member.now) (reverse levels.now) token.now after.now }
{
    is_table(levels) && is_same_name(&member.name.kind, &token.kind) && !goes_on(after)
}

/// Adds the alias of a derived table in place of a table.
fn add_alias(written: &mut Vec<Token>, table: &Token, after: &[Token]) -> Result<(), RespellError>
    ensures { Writes written.old.items written.new.items result (spec.alias table.now after.now) }
{
    if begins_as(after) {
        return Ok(());
    }
    add(written, added_terminal(Terminal::As, table))?;
    if begins_name(after) {
        return Ok(());
    }
    add_copy(written, table)
}

/// Adds a derived table in place of a table.
fn add_derived(
    written: &mut Vec<Token>,
    query: &[Token],
    table: &Token,
    after: &[Token],
) -> Result<(), RespellError>
    ensures { Writes written.old.items written.new.items result (spec.derived query.now table.now after.now) }
{
    add(written, added_terminal(Terminal::LeftBracket, table))?;
    add_all(written, query)?;
    add(written, added_terminal(Terminal::RightBracket, table))?;
    add_alias(written, table, after)
}

/// Adds what replaces a token.
fn add_written(
    written: &mut Vec<Token>,
    is_read: bool,
    query: &[Token],
    token: &Token,
    after: &[Token],
) -> Result<(), RespellError>
    ensures { Writes written.old.items written.new.items result (if is_read then spec.derived query.now token.now after.now else token.now ∷ []) }
{
    if is_read {
        return add_derived(written, query, token, after);
    }
    add_copy(written, token)
}

/// A query with the member's query in place of each table of its name.
#[tactic(auto, unfolding(crate::specs::Derived::replaced, crate::specs::Derived::uses))]
pub fn replace_uses(
    alloc: Global,
    member: &Member,
    tokens: &[Token],
) -> Result<Respelled, RespellError>
    ensures tokens { Makes (λ x. x.tokens.items) (λ x. x) result (spec.replaced (named_query member.now) (Elsewhere ∷ []) tokens.now) }
    ensures uses { IfOk result (λ x. x.uses ≡ spec.uses (named_query member.now) (Elsewhere ∷ []) tokens.now) }
{
    let mut written = Vec::new(alloc);
    let mut uses: usize = 0;
    let mut levels = Vec::new(alloc);
    levels.push(Place::Elsewhere)?;
    let mut rest = tokens;
    while let [first, after @ ..] = rest {
        let is_read = is_read(member, levels.as_slice(), first, after);
        add_written(&mut written, is_read, member.query, first, after)?;
        if is_read {
            uses += 1;
        }
        pass(&mut levels, &first.kind)?;
        rest = after;
    }
    Ok(Respelled {
        tokens: written,
        uses,
    })
}
