//! The selects of a query and their parts, by their tokens.

ghost use Rattle.std.specs.Prelude.{IfSome};
ghost use Rattle.wd_sites.specs.Sites.{IsTerminalAt};

use crate::place::{name_at, terminal_at};
use std::alloc::Global;
use wd_lex::{Terminal, Token};
use wd_value::OutOfMemory;

/// A select, by the numbers of its tokens.
#[derive(Clone, Copy)]
pub(crate) struct Range {
    /// The number of its word SELECT.
    pub(crate) first: usize,
    /// The number of the token after its last one.
    pub(crate) end: usize,
}

/// A window of a select's WINDOW clause.
#[derive(Clone, Copy)]
pub(crate) struct NamedWindow {
    /// The number of the token that names it.
    pub(crate) name: usize,
    /// The number of its left bracket.
    pub(crate) open: usize,
}

/// The parts of a select itself, without those of the selects in its FROM.
#[derive(Drop)]
pub(crate) struct Outline {
    pub(crate) range: Range,
    /// The numbers of the words OVER, in order.
    pub(crate) overs: Vec<usize>,
    pub(crate) windows: Vec<NamedWindow>,
    /// The number of the word ORDER of its own ORDER BY.
    pub(crate) order: Option<usize>,
    /// The number of the first word LIMIT, OFFSET or FETCH.
    pub(crate) limits: Option<usize>,
}

/// A query's tokens, and for each bracket the one that matches it.
#[derive(Clone, Copy)]
pub(crate) struct Brackets<'a> {
    pub(crate) tokens: &'a [Token],
    pub(crate) partners: &'a [usize],
}

impl<'a> Brackets<'a> {
    /// The number of the bracket that matches the one with this number.
    pub(crate) fn partner(self, number: usize) -> usize {
        self.partners.get(number).copied().unwrap_or(number)
    }

    pub(crate) fn terminal(self, number: usize) -> Option<Terminal>
        ensures { IfSome result (IsTerminalAt self.entry.tokens.now number) }
    {
        terminal_at(self.tokens, number)
    }

    pub(crate) fn name(self, number: usize) -> Option<&'a str> {
        name_at(self.tokens, number)
    }

    /// Whether a left bracket with this number opens a derived table.
    fn opens_select(self, number: usize) -> bool {
        matches!(self.terminal(number), Some(Terminal::LeftBracket))
            && matches!(
                self.terminal(number.saturating_add(1)),
                Some(Terminal::Select)
            )
    }

    /// The selects of the query in the order in which they end, so that each comes after the selects in its FROM.
    fn selects(self, alloc: Global) -> Result<Vec<Range>, OutOfMemory> {
        let mut found = Vec::new(alloc);
        let mut last = self.tokens.len();
        for number in 0..self.tokens.len() {
            match self.terminal(number) {
                Some(Terminal::RightBracket) => {
                    let open = self.partner(number);
                    if self.opens_select(open) {
                        found.push(Range {
                            first: open.saturating_add(1),
                            end: number,
                        })?;
                    }
                }
                Some(Terminal::Semicolon) => last = number,
                _ => {}
            }
        }
        found.push(Range {
            first: 0,
            end: last,
        })?;
        Ok(found)
    }

    /// The words OVER of a select.
    fn overs(self, alloc: Global, range: Range) -> Result<Vec<usize>, OutOfMemory> {
        let mut found = Vec::new(alloc);
        let mut next = range.first;
        for number in range.first..range.end {
            if number < next {
                continue;
            }
            if self.opens_select(number) {
                next = self.partner(number);
            } else if let Some(Terminal::Over) = self.terminal(number) {
                found.push(number)?;
            }
        }
        Ok(found)
    }

    /// The parts of a select.
    fn outline(self, alloc: Global, range: Range) -> Result<Outline, OutOfMemory> {
        let overs = self.overs(alloc, range)?;
        let mut outline = Outline {
            range,
            overs,
            windows: Vec::new(alloc),
            order: None,
            limits: None,
        };
        let mut in_windows = false;
        let mut next = range.first;
        for number in range.first..range.end {
            if number < next {
                continue;
            }
            match self.terminal(number) {
                Some(Terminal::LeftBracket) => {
                    if in_windows {
                        outline.windows.push(NamedWindow {
                            name: number.saturating_sub(2),
                            open: number,
                        })?;
                    }
                    next = self.partner(number);
                }
                Some(Terminal::Window) => in_windows = true,
                Some(Terminal::Order) => {
                    in_windows = false;
                    outline.order = outline.order.or(Some(number));
                }
                Some(Terminal::Limit) | Some(Terminal::Offset) | Some(Terminal::Fetch) => {
                    in_windows = false;
                    outline.limits = outline.limits.or(Some(number));
                }
                _ => {}
            }
        }
        Ok(outline)
    }

    /// The outlines of all selects, each after those of the selects in its FROM.
    pub(crate) fn outlines(self, alloc: Global) -> Result<Vec<Outline>, OutOfMemory> {
        let selects = self.selects(alloc)?;
        let mut outlines = Vec::with_capacity(alloc, selects.len())?;
        for range in &selects {
            let outline = self.outline(alloc, *range)?;
            outlines.push(outline)?;
        }
        Ok(outlines)
    }
}
