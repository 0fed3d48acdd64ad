//! Lists.

ghost use Rattle.std.specs.Prelude.{map};
ghost use Rattle.wd_lex.specs.Lexed.{kinds_of};
ghost use Rattle.wd_read_cursor.specs.Cursor.{Parser, list_at};
ghost use Rattle.wd_read_cursor.specs.Given.{Gives};

use crate::refusal::Refusal;
use crate::tokens::eat;
use std::alloc::Global;
use wd_lex::{Terminal, Token};

/// Reads the items of a list.
pub trait Reader {
    type Item: Drop;

    /// An item as pure data.
    ghost Tree: { Type 0 };

    ghost tree: { Self.Item → Tree };

    /// How an item is read.
    ghost item: { Self → Parser Tree };

    /// The first item, and the tokens after it.
    fn read<'t>(
        &self,
        alloc: Global,
        tokens: &'t [Token],
    ) -> Result<(Self::Item, &'t [Token]), Refusal>
        ensures { Gives (λ x. (tree x.0, kinds_of x.1.now)) result (item self.now (kinds_of tokens.now)) };
}

/// `item {separator item}`, and the tokens after it.
#[tactic(auto, unfolding(crate::specs::Cursor::list_at))]
pub fn list_at<'t, R: Reader>(
    alloc: Global,
    reader: &R,
    separator: Terminal,
    tokens: &'t [Token],
) -> Result<(Vec<R::Item>, &'t [Token]), Refusal>
    ensures { Gives (λ x. (map R.tree x.0.items, kinds_of x.1.now)) result (list_at separator (R.item reader.now) (kinds_of tokens.now)) }
{
    let (first, mut rest) = reader.read(alloc, tokens)?;
    let mut items = Vec::new(alloc);
    items.push(first)?;
    for _ in 0..rest.len() {
        let Some(after) = eat(rest, separator) else {
            return Ok((items, rest));
        };
        let (item, after) = reader.read(alloc, after)?;
        items.push(item)?;
        rest = after;
    }
    Ok((items, rest))
}
