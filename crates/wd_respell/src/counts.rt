//! Whether numbers of a query count units.

ghost use Rattle.std.specs.Prelude.{◌≡◌, ◌≤◌, ◌↔◌, IfOk, IsTrue, length};
ghost use Rattle.wd_lex.specs.Lexed.{AreInOrder};
ghost use Rattle.wd_moments.specs.Given.{most_tokens};
ghost use Rattle.wd_respell.specs.Respelled.{AreCounted, CountsUnits};

use std::alloc::Global;
use wd_dialect_read::Statement;
use wd_lex::{LexError, Token, lex};
use wd_moments::{MomentError, with_numbers};
use wd_token_text::say_the_same;
use wd_value::OutOfMemory;

/// Whether the numbers of a query count units, so that the query is different with numbers for these. What its columns count is known
/// from the statements that PostgreSQL has for its schema.
pub fn counts_units(
    alloc: Global,
    statements: &[Statement],
    query: &[u8],
) -> Result<bool, OutOfMemory>
    ensures { IfOk result (λ counts. IsTrue counts ↔ CountsUnits statements.now query.now) }
{
    match lex(alloc, query) {
        Ok(tokens) => are_counted(alloc, statements, &tokens),
        Err(error) => match error {
            LexError::OutOfMemory => Err(OutOfMemory),
            _ => Ok(false),
        },
    }
}

/// Whether the numbers of a query with these tokens count units.
fn are_counted(
    alloc: Global,
    statements: &[Statement],
    tokens: &[Token],
) -> Result<bool, OutOfMemory>
    requires { length tokens.now ≤ most_tokens }
    ensures { IfOk result (λ counts. IsTrue counts ↔ AreCounted statements.now tokens.now) }
{
    match with_numbers(alloc, statements, tokens) {
        Ok(numbered) => Ok(!say_the_same(&numbered, tokens)),
        Err(MomentError::TooLong) => Ok(true),
        Err(MomentError::OutOfMemory) => Err(OutOfMemory),
    }
}
