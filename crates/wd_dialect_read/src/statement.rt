//! Statements.

ghost use Rattle.std.specs.Prelude.{◌≡◌, map, Ok, if◌then◌else◌};
ghost use Rattle.wd_lex.specs.Lexed.{kinds_of};
ghost use Rattle.wd_read_cursor.specs.Given.{Gives};
ghost use Rattle.wd_dialect_read.specs.Said.{statement_said};
ghost use Rattle.wd_dialect_read.specs.Reading.{alter_at, changed_at, create_at, end_at, other_at, past_exists, past_only, past_replace, past_statement, past_unique, passed_at, refused, statement_at, statements_at, table_at, table_end};

use crate::change::{Changes, past_not_exists};
use crate::column::read_qualified;
use crate::item::read_items;
use crate::kept::{begins_altered, begins_created, begins_statement};
use crate::said::{Note, SaidTable, Statement};
use crate::words::{eat_text, expect_text, past_table_words};
use std::alloc::Global;
use wd_lex::{Terminal, Token};
use wd_read_cursor::{KeyWord, Refusal, eat, eat_word, expect, list_at, unexpected_token};

/// The tokens after a statement's semicolon.
#[tactic(auto, unfolding(crate::specs::Reading::past_statement, wd_read_cursor::specs::Cursor::eat))]
fn past_statement(tokens: &[Token]) -> &[Token]
    ensures { kinds_of result.now ≡ past_statement (kinds_of tokens.now) }
{
    let mut rest = tokens;
    while let [_, after @ ..] = rest {
        if eat(rest, Terminal::Semicolon).is_some() {
            return after;
        }
        rest = after;
    }
    rest
}

/// A statement that is passed over.
#[tactic(auto, unfolding(crate::specs::Reading::passed_at))]
fn pass(tokens: &[Token]) -> (Statement, &[Token])
    ensures { Gives (λ x. (statement_said x.0, kinds_of x.1.now)) (Ok result) (passed_at (kinds_of tokens.now)) }
{
    (Statement::Passed(Note::Statement), past_statement(tokens))
}

/// Passes over a statement if everything that was read holds after it; else refuses its first token.
fn read_kept(is_kept: bool, tokens: &[Token]) -> Result<(Statement, &[Token]), Refusal>
    ensures { Gives (λ x. (statement_said x.0, kinds_of x.1.now)) result (if is_kept then passed_at (kinds_of tokens.now) else refused (kinds_of tokens.now)) }
{
    if !is_kept {
        return Err(unexpected_token(tokens));
    }
    Ok(pass(tokens))
}

/// The tokens after a table's declaration, from what follows its brackets on.
#[tactic(auto, unfolding(crate::specs::Reading::table_end))]
fn past_table(tokens: &[Token]) -> Result<&[Token], Refusal>
    ensures { Gives (λ r. kinds_of r.now) result (table_end (kinds_of tokens.now)) }
{
    if eat_text(tokens, "inherits").is_some() {
        return Err(unexpected_token(tokens));
    }
    Ok(past_statement(tokens))
}

/// A table, after CREATE TABLE.
#[tactic(auto, unfolding(crate::specs::Reading::table_at))]
fn read_table(alloc: Global, tokens: &[Token]) -> Result<(Statement, &[Token]), Refusal>
    ensures { Gives (λ x. (statement_said x.0, kinds_of x.1.now)) result (table_at (kinds_of tokens.now)) }
{
    let (_, rest) = past_not_exists(tokens)?;
    let (name, rest) = read_qualified(alloc, rest)?;
    let (items, rest) = read_items(alloc, rest)?;
    let rest = past_table(rest)?;
    Ok((Statement::Table(SaidTable { name, items }), rest))
}

/// `[OR REPLACE]`
#[tactic(auto, unfolding(crate::specs::Reading::past_replace))]
fn past_replace(tokens: &[Token]) -> Result<&[Token], Refusal>
    ensures { Gives (λ r. kinds_of r.now) result (past_replace (kinds_of tokens.now)) }
{
    match eat(tokens, Terminal::Or) {
        Some(rest) => expect_text(rest, "replace"),
        None => Ok(tokens),
    }
}

/// `[UNIQUE]`
#[tactic(auto, unfolding(crate::specs::Reading::past_unique))]
fn past_unique(tokens: &[Token]) -> &[Token]
    ensures { kinds_of result.now ≡ past_unique (kinds_of tokens.now) }
{
    match eat(tokens, Terminal::Unique) {
        Some(rest) => rest,
        None => tokens,
    }
}

/// A statement, after CREATE.
#[tactic(auto, unfolding(crate::specs::Reading::create_at, crate::specs::Reading::kept_statement))]
fn read_create(alloc: Global, tokens: &[Token]) -> Result<(Statement, &[Token]), Refusal>
    ensures { Gives (λ x. (statement_said x.0, kinds_of x.1.now)) result (create_at (kinds_of tokens.now)) }
{
    let rest = past_table_words(past_replace(tokens)?);
    match eat(rest, Terminal::Table) {
        Some(rest) => read_table(alloc, rest),
        None => {
            let rest = past_unique(rest);
            read_kept(begins_created(rest), rest)
        }
    }
}

/// `[IF EXISTS]`
#[tactic(auto, unfolding(crate::specs::Reading::past_exists))]
fn past_exists(tokens: &[Token]) -> Result<(bool, &[Token]), Refusal>
    ensures { Gives (λ x. (x.0, kinds_of x.1.now)) result (past_exists (kinds_of tokens.now)) }
{
    match eat_text(tokens, "if") {
        Some(rest) => Ok((true, expect_text(rest, "exists")?)),
        None => Ok((false, tokens)),
    }
}

/// `[ONLY]`
#[tactic(auto, unfolding(crate::specs::Reading::past_only))]
fn past_only(tokens: &[Token]) -> &[Token]
    ensures { kinds_of result.now ≡ past_only (kinds_of tokens.now) }
{
    match eat_word(tokens, KeyWord::Only) {
        Some(rest) => rest,
        None => tokens,
    }
}

/// The tokens after the end of a statement: its semicolon, or the end of the text.
#[tactic(auto, unfolding(crate::specs::Reading::end_at))]
fn past_end(tokens: &[Token]) -> Result<&[Token], Refusal>
    ensures { Gives (λ r. kinds_of r.now) result (end_at (kinds_of tokens.now)) }
{
    match tokens {
        [] => Ok(tokens),
        [..] => expect(tokens, Terminal::Semicolon),
    }
}

/// Changes of a table, after ALTER TABLE.
#[tactic(auto, unfolding(crate::specs::Reading::changed_at))]
fn read_changed(alloc: Global, tokens: &[Token]) -> Result<(Statement, &[Token]), Refusal>
    ensures { Gives (λ x. (statement_said x.0, kinds_of x.1.now)) result (changed_at (kinds_of tokens.now)) }
{
    let (_, rest) = past_exists(tokens)?;
    let (name, rest) = read_qualified(alloc, past_only(rest))?;
    let (items, rest) = list_at(alloc, &Changes, Terminal::Comma, rest)?;
    let rest = past_end(rest)?;
    Ok((Statement::Changed(SaidTable { name, items }), rest))
}

/// A statement, after ALTER.
#[tactic(auto, unfolding(crate::specs::Reading::alter_at, crate::specs::Reading::kept_statement))]
fn read_alter(alloc: Global, tokens: &[Token]) -> Result<(Statement, &[Token]), Refusal>
    ensures { Gives (λ x. (statement_said x.0, kinds_of x.1.now)) result (alter_at (kinds_of tokens.now)) }
{
    match eat(tokens, Terminal::Table) {
        Some(rest) => read_changed(alloc, rest),
        None => read_kept(begins_altered(tokens), tokens),
    }
}

/// A statement that is neither CREATE nor ALTER.
#[tactic(auto, unfolding(crate::specs::Reading::other_at, crate::specs::Reading::kept_statement))]
fn read_other(tokens: &[Token]) -> Result<(Statement, &[Token]), Refusal>
    ensures { Gives (λ x. (statement_said x.0, kinds_of x.1.now)) result (other_at (kinds_of tokens.now)) }
{
    if eat(tokens, Terminal::Select).is_some() || eat(tokens, Terminal::Semicolon).is_some() {
        return Ok(pass(tokens));
    }
    read_kept(begins_statement(tokens), tokens)
}

/// A statement, and the tokens after its semicolon.
#[tactic(auto, unfolding(crate::specs::Reading::statement_at))]
fn read_statement(alloc: Global, tokens: &[Token]) -> Result<(Statement, &[Token]), Refusal>
    ensures { Gives (λ x. (statement_said x.0, kinds_of x.1.now)) result (statement_at (kinds_of tokens.now)) }
{
    if let Some(rest) = eat(tokens, Terminal::Create) {
        return read_create(alloc, rest);
    }
    if let Some(rest) = eat_text(tokens, "alter") {
        return read_alter(alloc, rest);
    }
    read_other(tokens)
}

/// The statements of a schema. The refusal names the token at which they can't be read.
#[tactic(auto, unfolding(crate::specs::Reading::statements_at))]
pub fn read_statements(
    alloc: Global,
    tokens: &[Token],
) -> Result<(Vec<Statement>, &[Token]), Refusal>
    ensures { Gives (λ x. (map statement_said x.0.items, kinds_of x.1.now)) result (statements_at (kinds_of tokens.now)) }
{
    let mut statements = Vec::new(alloc);
    let mut rest = tokens;
    for _ in 0..tokens.len() {
        if rest.is_empty() {
            break;
        }
        let (statement, after) = read_statement(alloc, rest)?;
        statements.push(statement)?;
        rest = after;
    }
    Ok((statements, rest))
}
