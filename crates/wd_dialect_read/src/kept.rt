//! The words of what is passed over, since everything that was read still holds after it.

ghost use Rattle.std.specs.Prelude.{◌≡◌};
ghost use Rattle.wd_lex.specs.Lexed.{kinds_of};
ghost use Rattle.wd_dialect_read.specs.Kept.{alter_words, change_words, column_words, create_words, drop_words, set_words, statement_words};
ghost use Rattle.wd_dialect_read.specs.Reading.{begins_among};

use crate::words::begins_among;
use wd_lex::Token;

// The statements after which everything that was read holds, by their first words.
const STATEMENT_WORDS: [&[u8]; 18] = [
    b"set",
    b"reset",
    b"comment",
    b"grant",
    b"revoke",
    b"begin",
    b"start",
    b"commit",
    b"insert",
    b"update",
    b"delete",
    b"truncate",
    b"analyze",
    b"vacuum",
    b"refresh",
    b"security",
    b"lock",
    b"show",
];

/// Whether the tokens begin a statement after which everything that was read holds.
pub fn begins_statement(tokens: &[Token]) -> bool
    ensures { result ≡ begins_among statement_words (kinds_of tokens.now) }
{
    begins_among(tokens, &STATEMENT_WORDS)
}

// What CREATE makes besides tables.
const CREATE_WORDS: [&[u8]; 31] = [
    b"index",
    b"sequence",
    b"type",
    b"domain",
    b"schema",
    b"extension",
    b"view",
    b"recursive",
    b"materialized",
    b"trigger",
    b"event",
    b"function",
    b"procedure",
    b"aggregate",
    b"operator",
    b"cast",
    b"collation",
    b"conversion",
    b"statistics",
    b"policy",
    b"publication",
    b"subscription",
    b"role",
    b"user",
    b"group",
    b"database",
    b"server",
    b"language",
    b"transform",
    b"text",
    b"access",
];

/// Whether the tokens begin with something else that CREATE makes than a table.
pub fn begins_created(tokens: &[Token]) -> bool
    ensures { result ≡ begins_among create_words (kinds_of tokens.now) }
{
    begins_among(tokens, &CREATE_WORDS)
}

// What ALTER changes besides tables. ALTER INDEX is not among these, since it renames tables too.
const ALTER_WORDS: [&[u8]; 30] = [
    b"sequence",
    b"type",
    b"domain",
    b"schema",
    b"extension",
    b"view",
    b"materialized",
    b"trigger",
    b"event",
    b"function",
    b"procedure",
    b"routine",
    b"aggregate",
    b"operator",
    b"collation",
    b"conversion",
    b"statistics",
    b"policy",
    b"publication",
    b"subscription",
    b"role",
    b"user",
    b"group",
    b"database",
    b"server",
    b"language",
    b"text",
    b"default",
    b"large",
    b"system",
];

/// Whether the tokens begin with something else that ALTER changes than a table.
pub fn begins_altered(tokens: &[Token]) -> bool
    ensures { result ≡ begins_among alter_words (kinds_of tokens.now) }
{
    begins_among(tokens, &ALTER_WORDS)
}

// Changes of a table after which everything that was read of it holds.
const CHANGE_WORDS: [&[u8]; 8] = [
    b"owner",
    b"enable",
    b"disable",
    b"force",
    b"reset",
    b"cluster",
    b"replica",
    b"validate",
];

/// Whether the tokens begin such a change of a table.
pub fn begins_change(tokens: &[Token]) -> bool
    ensures { result ≡ begins_among change_words (kinds_of tokens.now) }
{
    begins_among(tokens, &CHANGE_WORDS)
}

// Changes of a column after which everything that was read of it holds.
const COLUMN_WORDS: [&[u8]; 3] = [b"add", b"reset", b"restart"];

/// Whether the tokens begin such a change of a column.
pub fn begins_column_change(tokens: &[Token]) -> bool
    ensures { result ≡ begins_among column_words (kinds_of tokens.now) }
{
    begins_among(tokens, &COLUMN_WORDS)
}

// What a column may lose while everything that was read of it holds.
const DROP_WORDS: [&[u8]; 3] = [b"default", b"identity", b"expression"];

/// Whether the tokens begin with something that a column may lose.
pub fn begins_dropped(tokens: &[Token]) -> bool
    ensures { result ≡ begins_among drop_words (kinds_of tokens.now) }
{
    begins_among(tokens, &DROP_WORDS)
}

// What is set after which something that was read no longer holds.
const SET_WORDS: [&[u8]; 2] = [b"schema", b"data"];

/// Whether the tokens begin with the schema of a table or the type of a column, which may not be set.
pub fn begins_unsaid(tokens: &[Token]) -> bool
    ensures { result ≡ begins_among set_words (kinds_of tokens.now) }
{
    begins_among(tokens, &SET_WORDS)
}
