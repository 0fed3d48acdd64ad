//! Changes of a table. Some add columns and keys, some are passed over, and all others are refused, since after them something that was
//! read may no longer hold.

ghost use Rattle.std.specs.Prelude.{◌≡◌, Some, if◌then◌else◌};
ghost use Rattle.wd_lex.specs.Lexed.{kinds_of};
ghost use Rattle.wd_read_cursor.specs.Given.{Gives};
ghost use Rattle.wd_dialect_read.specs.declared.said.Note.TheVariants as note;
ghost use Rattle.wd_dialect_read.specs.Said.{item_said};
ghost use Rattle.wd_dialect_read.specs.Reading.{added_at, altered_at, past_column, past_not_exists, pass, refused, set_at};

use crate::item::read_item;
use crate::kept::{begins_change, begins_column_change, begins_dropped, begins_unsaid};
use crate::said::{Item, Note};
use crate::tail::read_marks;
use crate::words::{eat_text, expect_text, read_identifier};
use std::alloc::Global;
use wd_lex::{Terminal, Token};
use wd_read_cursor::{Reader, Refusal, expect, unexpected_token};

/// Passes over a change if everything that was read holds after it; else refuses its first token.
fn read_kept(alloc: Global, is_kept: bool, tokens: &[Token]) -> Result<(Item, &[Token]), Refusal>
    ensures { Gives (λ x. (item_said x.0, kinds_of x.1.now)) result (if is_kept then pass (kinds_of tokens.now) (Some note.Statement) else refused (kinds_of tokens.now)) }
{
    if !is_kept {
        return Err(unexpected_token(tokens));
    }
    let (_, rest) = read_marks(alloc, tokens)?;
    Ok((Item::Passed(Note::Statement), rest))
}

/// What is set for a table or a column, after SET.
#[tactic(auto, unfolding(crate::specs::Reading::set_at))]
fn read_set(alloc: Global, tokens: &[Token]) -> Result<(Item, &[Token]), Refusal>
    ensures { Gives (λ x. (item_said x.0, kinds_of x.1.now)) result (set_at (kinds_of tokens.now)) }
{
    read_kept(alloc, !begins_unsaid(tokens), tokens)
}

/// `[IF NOT EXISTS]`
#[tactic(auto, unfolding(crate::specs::Reading::past_not_exists))]
pub fn past_not_exists(tokens: &[Token]) -> Result<(bool, &[Token]), Refusal>
    ensures { Gives (λ x. (x.0, kinds_of x.1.now)) result (past_not_exists (kinds_of tokens.now)) }
{
    let Some(rest) = eat_text(tokens, "if") else {
        return Ok((false, tokens));
    };
    let rest = expect(rest, Terminal::Not)?;
    Ok((true, expect_text(rest, "exists")?))
}

/// `[COLUMN]`
#[tactic(auto, unfolding(crate::specs::Reading::past_column))]
fn past_column(tokens: &[Token]) -> &[Token]
    ensures { kinds_of result.now ≡ past_column (kinds_of tokens.now) }
{
    match eat_text(tokens, "column") {
        Some(rest) => rest,
        None => tokens,
    }
}

/// A column, a key or a rule that is added, after ADD.
#[tactic(auto, unfolding(crate::specs::Reading::added_at))]
fn read_added(alloc: Global, tokens: &[Token]) -> Result<(Item, &[Token]), Refusal>
    ensures { Gives (λ x. (item_said x.0, kinds_of x.1.now)) result (added_at (kinds_of tokens.now)) }
{
    let (_, rest) = past_not_exists(past_column(tokens))?;
    read_item(alloc, rest)
}

/// A change of a column, after ALTER.
#[tactic(auto, unfolding(crate::specs::Reading::altered_at, crate::specs::Reading::kept_change))]
fn read_altered(alloc: Global, tokens: &[Token]) -> Result<(Item, &[Token]), Refusal>
    ensures { Gives (λ x. (item_said x.0, kinds_of x.1.now)) result (altered_at (kinds_of tokens.now)) }
{
    let (_, rest) = read_identifier(alloc, past_column(tokens))?;
    if let Some(rest) = eat_text(rest, "set") {
        return read_set(alloc, rest);
    }
    match eat_text(rest, "drop") {
        Some(rest) => read_kept(alloc, begins_dropped(rest), rest),
        None => read_kept(alloc, begins_column_change(rest), rest),
    }
}

/// Reads the changes of a table.
pub struct Changes;

impl Reader for Changes {
    ghost use Rattle.wd_dialect_read.specs.Said.{ItemSaid};
    ghost use Rattle.wd_dialect_read.specs.Reading.{change_at};

    type Item = Item;

    ghost Tree = { ItemSaid };

    ghost tree = { item_said };

    ghost item = { λ changes. change_at };

    #[tactic(auto, unfolding(crate::specs::Reading::change_at, crate::specs::Reading::kept_change))]
    fn read<'t>(&self, alloc: Global, tokens: &'t [Token]) -> Result<(Item, &'t [Token]), Refusal> {
        if let Some(rest) = eat_text(tokens, "add") {
            return read_added(alloc, rest);
        }
        if let Some(rest) = eat_text(tokens, "alter") {
            return read_altered(alloc, rest);
        }
        match eat_text(tokens, "set") {
            Some(rest) => read_set(alloc, rest),
            None => read_kept(alloc, begins_change(tokens), tokens),
        }
    }
}
