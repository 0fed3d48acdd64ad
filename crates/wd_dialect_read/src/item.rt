//! What is between two commas of a table's declaration.

ghost use Rattle.std.specs.Prelude.{◌≡◌, ◌<◌, length, map, IfOk};
ghost use Rattle.wd_lex.specs.Lexed.{kinds_of};
ghost use Rattle.wd_read_cursor.specs.Given.{Gives};
ghost use Rattle.wd_dialect_read.specs.Said.{identifier_text, item_said, key_said};
ghost use Rattle.wd_dialect_read.specs.Reading.{begins_key, exclude_note, item_at, items_at, key_at, names_at, note_at, nulls_at, rule_at, words_at};

use crate::column::read_column;
use crate::said::{Item, Note, SaidKey};
use crate::tail::{note_in, read_marks};
use crate::words::read_identifier;
use std::alloc::Global;
use wd_declaration::Identifier;
use wd_lex::{Terminal, Token, TokenKind};
use wd_read_cursor::{
    KeyWord, Reader, Refusal, eat, eat_word, expect, expect_word, list_at, unexpected_token,
};
use wd_read_statements::{KeyWords, Nulls};

// The words that begin what is passed over between two commas. EXCLUDE may be a name too.
const TABLE_NOTES: [(&[u8], Note); 3] = [
    (b"check", Note::Check),
    (b"foreign", Note::References),
    (b"like", Note::Like),
];

/// `[NULLS [NOT] DISTINCT]`
#[tactic(auto, unfolding(crate::specs::Reading::nulls_at))]
fn read_nulls(tokens: &[Token]) -> Result<(Nulls, &[Token]), Refusal>
    ensures { Gives (λ x. (x.0, kinds_of x.1.now)) result (nulls_at (kinds_of tokens.now)) }
{
    let Some(rest) = eat_word(tokens, KeyWord::Nulls) else {
        return Ok((Nulls::Unsaid, tokens));
    };
    match eat(rest, Terminal::Not) {
        Some(rest) => Ok((Nulls::NotDistinct, expect(rest, Terminal::Distinct)?)),
        None => Ok((Nulls::Distinct, expect(rest, Terminal::Distinct)?)),
    }
}

/// The words of a key: PRIMARY KEY, or UNIQUE and what it says of NULLs.
#[tactic(auto, unfolding(crate::specs::Reading::words_at))]
fn read_words(tokens: &[Token]) -> Result<(KeyWords, &[Token]), Refusal>
    ensures { Gives (λ x. (x.0, kinds_of x.1.now)) result (words_at (kinds_of tokens.now)) }
{
    match eat(tokens, Terminal::Primary) {
        Some(rest) => Ok((KeyWords::Primary, expect_word(rest, KeyWord::Key)?)),
        None => {
            let rest = expect(tokens, Terminal::Unique)?;
            let (nulls, rest) = read_nulls(rest)?;
            Ok((KeyWords::Unique(nulls), rest))
        }
    }
}

/// Reads the names of a key's columns.
struct Names;

impl Reader for Names {
    ghost use Rattle.std.specs.Prelude.{ℕ, List};
    ghost use Rattle.wd_dialect_read.specs.Said.{identifier_text};
    ghost use Rattle.wd_dialect_read.specs.Reading.{identifier_at};

    type Item = Identifier;

    ghost Tree = { List ℕ };

    ghost tree = { identifier_text };

    ghost item = { λ names. identifier_at };

    fn read<'t>(
        &self,
        alloc: Global,
        tokens: &'t [Token],
    ) -> Result<(Identifier, &'t [Token]), Refusal> {
        read_identifier(alloc, tokens)
    }
}

/// Names in brackets.
#[tactic(auto, unfolding(crate::specs::Reading::names_at))]
fn read_names(alloc: Global, tokens: &[Token]) -> Result<(Vec<Identifier>, &[Token]), Refusal>
    ensures names { Gives (λ x. (map identifier_text x.0.items, kinds_of x.1.now)) result (names_at (kinds_of tokens.now)) }
    ensures some { IfOk result (λ x. 0 < length x.0.items) }
{
    let rest = expect(tokens, Terminal::LeftBracket)?;
    let (names, rest) = list_at(alloc, &Names, Terminal::Comma, rest)?;
    let rest = expect(rest, Terminal::RightBracket)?;
    Ok((names, rest))
}

/// A key, and what comes after it.
#[tactic(auto, unfolding(crate::specs::Reading::key_at))]
fn read_key(alloc: Global, tokens: &[Token]) -> Result<(SaidKey, &[Token]), Refusal>
    ensures { Gives (λ x. (key_said x.0, kinds_of x.1.now)) result (key_at (kinds_of tokens.now)) }
{
    let (words, rest) = read_words(tokens)?;
    let (columns, rest) = read_names(alloc, rest)?;
    let (marks, rest) = read_marks(alloc, rest)?;
    let key = SaidKey {
        words,
        columns,
        marks,
    };
    Ok((key, rest))
}

/// Whether the first token begins a key.
#[tactic(auto, unfolding(crate::specs::Reading::begins_key))]
fn begins_key(tokens: &[Token]) -> bool
    ensures { result ≡ begins_key (kinds_of tokens.now) }
{
    eat(tokens, Terminal::Primary).is_some() || eat(tokens, Terminal::Unique).is_some()
}

/// The note for EXCLUDE, if its brackets follow; else EXCLUDE is the name of a column.
#[tactic(auto, unfolding(crate::specs::Reading::exclude_note))]
fn exclude_note(tokens: &[Token]) -> Option<Note>
    ensures { result ≡ exclude_note (kinds_of tokens.now) }
{
    if eat(tokens, Terminal::Using).is_some() || eat(tokens, Terminal::LeftBracket).is_some() {
        Some(Note::Exclude)
    } else {
        None
    }
}

/// The note for what is passed over, if the first word begins such a part.
#[tactic(auto, unfolding(crate::specs::Reading::note_at))]
fn note_at(tokens: &[Token]) -> Option<Note>
    ensures { result ≡ note_at (kinds_of tokens.now) }
{
    match tokens {
        [
            Token {
                kind: TokenKind::Word(word),
                ..
            },
            rest @ ..,
        ] => {
            if word.as_str() == "exclude" {
                exclude_note(rest)
            } else {
                note_in(&TABLE_NOTES, word.as_bytes())
            }
        }
        _ => None,
    }
}

/// A rule of a table: a key, or something that is passed over.
#[tactic(auto, unfolding(crate::specs::Reading::rule_at))]
fn read_rule(alloc: Global, tokens: &[Token]) -> Result<(Item, &[Token]), Refusal>
    ensures { Gives (λ x. (item_said x.0, kinds_of x.1.now)) result (rule_at (kinds_of tokens.now)) }
{
    if begins_key(tokens) {
        let (key, rest) = read_key(alloc, tokens)?;
        return Ok((Item::Key(key), rest));
    }
    let Some(note) = note_at(tokens) else {
        return Err(unexpected_token(tokens));
    };
    let (_, rest) = read_marks(alloc, tokens)?;
    Ok((Item::Passed(note), rest))
}

/// Reads one entry between two commas.
#[tactic(auto, unfolding(crate::specs::Reading::item_at))]
pub fn read_item(alloc: Global, tokens: &[Token]) -> Result<(Item, &[Token]), Refusal>
    ensures { Gives (λ x. (item_said x.0, kinds_of x.1.now)) result (item_at (kinds_of tokens.now)) }
{
    if let Some(rest) = eat(tokens, Terminal::Constraint) {
        let (_, rest) = read_identifier(alloc, rest)?;
        return read_rule(alloc, rest);
    }
    if begins_key(tokens) || note_at(tokens).is_some() {
        return read_rule(alloc, tokens);
    }
    let (column, rest) = read_column(alloc, tokens)?;
    Ok((Item::Column(column), rest))
}

/// Reads the entries between commas.
struct Items;

impl Reader for Items {
    ghost use Rattle.wd_dialect_read.specs.Said.{ItemSaid};
    ghost use Rattle.wd_dialect_read.specs.Reading.{item_at};

    type Item = Item;

    ghost Tree = { ItemSaid };

    ghost tree = { item_said };

    ghost item = { λ items. item_at };

    fn read<'t>(&self, alloc: Global, tokens: &'t [Token]) -> Result<(Item, &'t [Token]), Refusal> {
        read_item(alloc, tokens)
    }
}

/// Reads what is in the brackets of a table.
#[tactic(auto, unfolding(crate::specs::Reading::items_at))]
pub fn read_items(alloc: Global, tokens: &[Token]) -> Result<(Vec<Item>, &[Token]), Refusal>
    ensures { Gives (λ x. (map item_said x.0.items, kinds_of x.1.now)) result (items_at (kinds_of tokens.now)) }
{
    let rest = expect(tokens, Terminal::LeftBracket)?;
    let (items, rest) = list_at(alloc, &Items, Terminal::Comma, rest)?;
    let rest = expect(rest, Terminal::RightBracket)?;
    Ok((items, rest))
}
