//! The names that are added.

ghost use Rattle.std.specs.Prelude.{◌≡◌, IfOk};
ghost use Rattle.wd_distinct_on.specs.Written.{added_name};
ghost use Rattle.wd_membership.specs.Names as spec;

use crate::membership::Test;
use std::alloc::{AllocError, Global};
use wd_lex::{Token, TokenKind};
use wd_value::Text;

/// The name of the table of that number.
fn table_text(alloc: Global, test: Test, table: usize) -> Result<Text, AllocError>
    ensures { IfOk result (λ text. text ≡ spec.table_name test table) }
{
    match test {
        Test::In => Text::new(alloc, format!(in alloc; "in {table}")?),
        Test::Exists => Text::new(alloc, format!(in alloc; "exists {table}")?),
    }
}

/// The name of the column of that number of the table of that number.
fn column_text(alloc: Global, test: Test, table: usize, column: usize) -> Result<Text, AllocError>
    ensures { IfOk result (λ text. text ≡ spec.column_name test table column) }
{
    match test {
        Test::In => table_text(alloc, test, table),
        Test::Exists => Text::new(alloc, format!(in alloc; "exists {table} {column}")?),
    }
}

/// A name that is added because of a word.
fn added_name(text: Text, word: &Token) -> Token
    ensures { result ≡ added_name text word.now }
{
    Token {
        kind: TokenKind::Quoted(text),
        span: word.span,
    }
}

/// The name of a table, as it is added because of a word.
pub fn table_name(
    alloc: Global,
    test: Test,
    table: usize,
    word: &Token,
) -> Result<Token, AllocError>
    ensures { IfOk result (λ name. name ≡ added_name (spec.table_name test table) word.now) }
{
    let text = table_text(alloc, test, table)?;
    Ok(added_name(text, word))
}

/// The name of a column, as it is added because of a word.
pub fn column_name(
    alloc: Global,
    test: Test,
    table: usize,
    column: usize,
    word: &Token,
) -> Result<Token, AllocError>
    ensures { IfOk result (λ name. name ≡ added_name (spec.column_name test table column) word.now) }
{
    let text = column_text(alloc, test, table, column)?;
    Ok(added_name(text, word))
}
