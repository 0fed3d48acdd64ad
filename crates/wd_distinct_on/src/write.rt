//! The select that replaces one with DISTINCT ON.

ghost use Rattle.std.specs.Prelude.{◌≡◌, ◌∷◌, ◌++◌, [], map, IfOk};
ghost use Rattle.wd_clauses.specs.Given.{Makes, Writes};
ghost use Rattle.wd_distinct_on.specs.Named.{named_item, pieces, sort_key};
ghost use Rattle.wd_distinct_on.specs.Written as spec;

use crate::item::Item;
use crate::key::Key;
use crate::select::Select;
use std::alloc::{AllocError, Global};
use wd_clauses::{RespellError, add, add_all, add_copy, added_terminal, copy_token, copy_tokens};
use wd_lex::{Terminal, Token, TokenKind};
use wd_value::Text;

/// Adds a word because of another word.
fn add_word(
    alloc: Global,
    written: &mut Vec<Token>,
    text: &str,
    word: &Token,
) -> Result<(), RespellError>
    ensures { Writes written.old.items written.new.items result (spec.added_word text.now word.now ∷ []) }
{
    let text = Text::from_str(alloc, text)?;
    add(
        written,
        Token {
            kind: TokenKind::Word(text),
            span: word.span,
        },
    )
}

/// A name that is added because of a word.
pub fn added_name(alloc: Global, text: &str, word: &Token) -> Result<Token, AllocError>
    ensures { IfOk result (λ t. t ≡ spec.added_name text.now word.now) }
{
    let text = Text::from_str(alloc, text)?;
    Ok(Token {
        kind: TokenKind::Quoted(text),
        span: word.span,
    })
}

/// Adds a name because of a word.
pub fn add_name(
    alloc: Global,
    written: &mut Vec<Token>,
    text: &str,
    word: &Token,
) -> Result<(), RespellError>
    ensures { Writes written.old.items written.new.items result (spec.added_name text.now word.now ∷ []) }
{
    add(written, added_name(alloc, text, word)?)
}

/// Adds terminals because of a word.
pub fn add_terminals(
    written: &mut Vec<Token>,
    terminals: &[Terminal],
    word: &Token,
) -> Result<(), RespellError>
    ensures { Writes written.old.items written.new.items result (spec.all_added terminals.now word.now) }
{
    let mut rest = terminals;
    while let [terminal, after @ ..] = rest {
        add(written, added_terminal(*terminal, word))?;
        rest = after;
    }
    Ok(())
}

/// Adds a copy of a token, with the place of a word.
pub fn add_placed(written: &mut Vec<Token>, token: &Token, word: &Token) -> Result<(), RespellError>
    ensures { Writes written.old.items written.new.items result (spec.placed token.now word.now ∷ []) }
{
    let copy = copy_token(token)?;
    add(
        written,
        Token {
            kind: copy.kind,
            span: word.span,
        },
    )
}

/// Adds copies of tokens, all with the place of a word.
pub fn add_all_placed(
    written: &mut Vec<Token>,
    tokens: &[Token],
    word: &Token,
) -> Result<(), RespellError>
    ensures { Writes written.old.items written.new.items result (spec.all_placed tokens.now word.now) }
{
    let mut rest = tokens;
    while let [first, after @ ..] = rest {
        add_placed(written, first, word)?;
        rest = after;
    }
    Ok(())
}

/// Adds the items' names.
fn add_names(written: &mut Vec<Token>, items: &[Item], word: &Token) -> Result<(), RespellError>
    ensures { Writes written.old.items written.new.items result (spec.names (map named_item items.now) word.now) }
{
    let mut rest = items;
    while let [item, after @ ..] = rest {
        add_copy(written, item.name)?;
        if !after.is_empty() {
            add(written, added_terminal(Terminal::Comma, word))?;
        }
        rest = after;
    }
    Ok(())
}

/// Adds a key.
fn add_key(written: &mut Vec<Token>, key: &Key) -> Result<(), RespellError>
    ensures { Writes written.old.items written.new.items result ((sort_key key.now).value ++ (sort_key key.now).rest) }
{
    add_all(written, key.value)?;
    add_all(written, key.rest)
}

/// Adds keys one after another.
fn add_keys(written: &mut Vec<Token>, keys: &[Key], word: &Token) -> Result<(), RespellError>
    ensures { Writes written.old.items written.new.items result (spec.listed (map sort_key keys.now) word.now) }
{
    let mut rest = keys;
    while let [key, after @ ..] = rest {
        add_key(written, key)?;
        if !after.is_empty() {
            add(written, added_terminal(Terminal::Comma, word))?;
        }
        rest = after;
    }
    Ok(())
}

/// Adds `SELECT n1, .. FROM ( SELECT items`.
fn add_head(written: &mut Vec<Token>, select: &Select, items: &[Item]) -> Result<(), RespellError>
    ensures { Writes written.old.items written.new.items result (spec.head (pieces select.now) (map named_item items.now)) }
{
    add(written, added_terminal(Terminal::Select, select.distinct))?;
    add_names(written, items, select.distinct)?;
    add_terminals(
        written,
        &[Terminal::From, Terminal::LeftBracket],
        select.distinct,
    )?;
    add_copy(written, select.select)?;
    add_all(written, select.items)
}

/// Adds `( ) OVER ( PARTITION BY`.
#[tactic(auto, unfolding(crate::specs::Written::over))]
fn add_over(written: &mut Vec<Token>, word: &Token) -> Result<(), RespellError>
    ensures { Writes written.old.items written.new.items result (spec.over word.now) }
{
    let words = [
        Terminal::LeftBracket,
        Terminal::RightBracket,
        Terminal::Over,
        Terminal::LeftBracket,
        Terminal::Partition,
        Terminal::By,
    ];
    add_terminals(written, &words, word)
}

/// Adds `, ROW_NUMBER ( ) OVER ( PARTITION BY keys`.
fn add_number(
    alloc: Global,
    written: &mut Vec<Token>,
    keys: &[Key],
    word: &Token,
) -> Result<(), RespellError>
    ensures { Writes written.old.items written.new.items result (spec.number (map sort_key keys.now) word.now) }
{
    add(written, added_terminal(Terminal::Comma, word))?;
    add_word(alloc, written, "row_number", word)?;
    add_over(written, word)?;
    add_keys(written, keys, word)?;
    Ok(())
}

/// Adds `[ORDER BY keys] ) AS "distinct on"`.
fn add_order(
    alloc: Global,
    written: &mut Vec<Token>,
    select: &Select,
    orders: &[Key],
) -> Result<(), RespellError>
    ensures { Writes written.old.items written.new.items result (spec.order (pieces select.now) (map sort_key orders.now)) }
{
    add_all(written, select.order.words)?;
    add_keys(written, orders, select.distinct)?;
    add_terminals(
        written,
        &[Terminal::RightBracket, Terminal::As],
        select.distinct,
    )?;
    add_name(alloc, written, "distinct on", select.distinct)
}

/// Adds `"distinct on" = 1`.
fn add_is_first(alloc: Global, written: &mut Vec<Token>, word: &Token) -> Result<(), RespellError>
    ensures { Writes written.old.items written.new.items result (spec.is_first word.now) }
{
    add_name(alloc, written, "distinct on", word)?;
    add(written, added_terminal(Terminal::Equals, word))?;
    add(
        written,
        Token {
            kind: TokenKind::Number(1),
            span: word.span,
        },
    )
}

/// Adds `"distinct" WHERE "distinct on" = 1`.
fn add_first(alloc: Global, written: &mut Vec<Token>, word: &Token) -> Result<(), RespellError>
    ensures { Writes written.old.items written.new.items result (spec.first word.now) }
{
    add_name(alloc, written, "distinct", word)?;
    add(written, added_terminal(Terminal::Where, word))?;
    add_is_first(alloc, written, word)
}

/// Adds `FROM .. ) AS "distinct" WHERE "distinct on" = 1`.
fn add_tail(alloc: Global, written: &mut Vec<Token>, select: &Select) -> Result<(), RespellError>
    ensures { Writes written.old.items written.new.items result (spec.tail (pieces select.now)) }
{
    add_all(written, select.from)?;
    add_terminals(
        written,
        &[Terminal::RightBracket, Terminal::As],
        select.distinct,
    )?;
    add_first(alloc, written, select.distinct)
}

/// The select that replaces one with DISTINCT ON, and what follows it, after these tokens.
#[tactic(auto, unfolding(crate::specs::Written::written))]
pub fn write_select(
    alloc: Global,
    front: &[Token],
    select: &Select,
    items: &[Item],
    keys: &[Key],
    orders: &[Key],
) -> Result<Vec<Token>, RespellError>
    ensures { Makes (λ x. x.items) (λ x. x) result (front.now ++ spec.written (pieces select.now) (map named_item items.now) (map sort_key keys.now) (map sort_key orders.now)) }
{
    let mut written = copy_tokens(alloc, front)?;
    add_head(&mut written, select, items)?;
    add_number(alloc, &mut written, keys, select.distinct)?;
    add_order(alloc, &mut written, select, orders)?;
    add_tail(alloc, &mut written, select)?;
    add_all(&mut written, select.order.after)?;
    Ok(written)
}
