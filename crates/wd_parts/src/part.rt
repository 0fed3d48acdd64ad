//! The parts of a text that may be the cause of a refusal.

use std::alloc::Global;
use wd_value::OutOfMemory;

/// The replacement of a part, which causes no refusal.
#[derive(Clone, Copy)]
pub enum Neutral {
    /// `NULL`, for an expression.
    Null,
    /// `()`, for a window or a grouping column.
    Brackets,
    Nothing,
    /// `ONLY`, for WITH TIES.
    Only,
    /// `1`, for a number.
    One,
    /// A table of the schema, for a table.
    Table,
    /// A name that nothing else has.
    Name,
    /// The text as it is, under a name that nothing else has.
    Called,
    /// A column with such a name, for a member of a table's declaration.
    Column,
    /// `TEXT`, for a type.
    Type,
}

/// A part of a text, by the numbers of its tokens.
#[derive(Clone, Copy)]
pub struct Part {
    /// The first token that is replaced.
    pub first: usize,
    /// The token after the last one that is replaced.
    pub end: usize,
    /// The first token that is shown as the cause, if the part is the cause.
    pub shown: usize,
    /// The token after the last one that is shown; 0 where these end with the part.
    pub shown_end: usize,
    pub neutral: Neutral,
}

/// A walk along the tree of a text.
#[derive(Drop)]
pub(crate) struct Walk {
    /// The number of the refusal.
    pub(crate) number: u32,
    /// The number of the next token.
    pub(crate) at: usize,
    /// The parts so far that may be the cause, in the order in which the text is checked, each before the parts within it.
    pub(crate) parts: Vec<Part>,
}

impl Walk {
    pub(crate) fn new(alloc: Global, number: u32) -> Walk {
        Walk {
            number,
            at: 0,
            parts: Vec::new(alloc),
        }
    }

    /// Passes the given number of tokens.
    pub(crate) fn pass(&mut self, tokens: usize) {
        self.at = self.at.saturating_add(tokens);
    }

    /// Begins a part, if it may be the cause; the result is its number in the list. The tokens from `first` on are replaced; the cause is
    /// shown from the next token on.
    pub(crate) fn open(
        &mut self,
        is_wanted: bool,
        first: usize,
        neutral: Neutral,
    ) -> Result<Option<usize>, OutOfMemory> {
        if !is_wanted {
            return Ok(None);
        }
        let place = self.parts.len();
        self.parts.push(Part {
            first,
            end: first,
            shown: self.at,
            shown_end: 0,
            neutral,
        })?;
        Ok(Some(place))
    }

    /// Ends a part before the next token.
    pub(crate) fn close(&mut self, opened: Option<usize>) {
        let at = self.at;
        if let Some(place) = opened {
            if let Some(part) = self.parts.get_mut(place) {
                part.end = at;
            }
        }
    }

    /// Ends the tokens that are shown as the cause before the next token.
    pub(crate) fn show(&mut self, opened: Option<usize>) {
        let at = self.at;
        if let Some(place) = opened {
            if let Some(part) = self.parts.get_mut(place) {
                part.shown_end = at;
            }
        }
    }

    /// Adds a part of the given number of tokens.
    pub(crate) fn add(
        &mut self,
        is_wanted: bool,
        tokens: usize,
        neutral: Neutral,
    ) -> Result<(), OutOfMemory> {
        let opened = self.open(is_wanted, self.at, neutral)?;
        self.pass(tokens);
        self.close(opened);
        Ok(())
    }

    /// Moves the parts in a range of the list to its end, since they are checked after the others.
    pub(crate) fn put_after(
        &mut self,
        alloc: Global,
        first: usize,
        end: usize,
    ) -> Result<(), OutOfMemory> {
        let end = end.min(self.parts.len());
        let first = first.min(end);
        let mut moved = Vec::with_capacity(alloc, self.parts.len() - first)?;
        moved.extend_from_slice(&self.parts[end..])?;
        moved.extend_from_slice(&self.parts[first..end])?;
        self.parts.truncate(first);
        self.parts.append(&mut moved)?;
        Ok(())
    }
}
