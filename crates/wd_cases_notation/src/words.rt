//! Lines, words, and what words name.

use wd_plan::{Bound, Exclusion, Frame, FrameMode, ValueKind};
use wd_value::{SortColumn, SortKey};

/// A line such as `NAME(ARGUMENTS) WORDS : LISTS`.
#[derive(Clone, Copy)]
pub struct Line<'a> {
    pub word: Word<'a>,
    pub words: &'a str,
    pub lists: &'a str,
}

impl<'a> Line<'a> {
    /// The line of a first word and the text after it.
    pub fn of(word: &'a str, text: &'a str) -> Line<'a> {
        let (words, lists) = match text.strip_prefix(": ") {
            Some(lists) => ("", lists),
            None => text.split_once(" : ").unwrap_or((text, "")),
        };
        Line {
            word: Word::of(word),
            words,
            lists,
        }
    }
}

/// A word such as `NAME(ARGUMENTS)`.
#[derive(Clone, Copy)]
pub struct Word<'a> {
    pub name: &'a str,
    pub arguments: &'a str,
}

impl<'a> Word<'a> {
    pub(crate) fn of(text: &'a str) -> Word<'a> {
        let (name, arguments) = match text.strip_suffix(')') {
            Some(front) => front.split_once('(').unwrap_or((text, "")),
            None => (text, ""),
        };
        Word { name, arguments }
    }

    /// The argument at a place.
    pub fn argument(self, place: usize) -> Option<&'a str> {
        self.arguments.split(',').nth(place)
    }

    /// The number at a place of the arguments.
    pub fn number(self, place: usize) -> Option<u64> {
        self.argument(place)?.parse::<u64>().ok()
    }

    pub(crate) fn column(self, place: usize) -> Option<u16> {
        column_of(self.argument(place)?)
    }

    /// `OFFSET,COUNT` or `OFFSET,COUNT,ties`; a COUNT that is no number, as `all`, is none.
    pub fn limit(self) -> Option<LimitWord> {
        Some(LimitWord {
            offset: self.number(0)?,
            count: self.number(1),
            ties: self.argument(2) == Some("ties"),
        })
    }

    /// The sort key that the arguments are, as `+` or `-last`.
    pub fn key(self) -> Option<SortKey> {
        let (front, key) = key_after(self.arguments)?;
        if front.is_empty() { Some(key) } else { None }
    }
}

/// How many rows a limit leaves out and takes, and whether with ties.
#[derive(Clone, Copy)]
pub struct LimitWord {
    pub offset: u64,
    pub count: Option<u64>,
    pub ties: bool,
}

/// The column that a word such as `c3` names.
pub fn column_of(word: &str) -> Option<u16> {
    word.strip_prefix('c')?.parse::<u16>().ok()
}

/// The table that a word such as `t0` names.
pub fn table_of(word: &str) -> Option<u16> {
    word.strip_prefix('t')?.parse::<u16>().ok()
}

/// The column and the sort key of a word such as `c3-`.
pub fn item_of(word: &str) -> Option<SortColumn> {
    let (front, key) = key_after(word)?;
    let column = column_of(front)?;
    Some(SortColumn { column, key })
}

/// What stands before a sort key such as `+` or `-last`, and the key: ascending or descending, with
/// NULL last and first unless it says more.
fn key_after(word: &str) -> Option<(&str, SortKey)> {
    let (front, desc, nulls) = match word.split_once('+') {
        Some((front, nulls)) => (front, false, nulls),
        None => {
            let (front, nulls) = word.split_once('-')?;
            (front, true, nulls)
        }
    };
    let nulls_first = match nulls {
        "" => desc,
        "first" => true,
        "last" => false,
        _ => return None,
    };
    Some((front, SortKey { desc, nulls_first }))
}

/// The kind that a word names.
pub fn kind_of(word: &str) -> Option<ValueKind> {
    match word {
        "number" => Some(ValueKind::Number),
        "text" => Some(ValueKind::Text),
        "truth" => Some(ValueKind::Truth),
        _ => None,
    }
}

pub const DEFAULT_FRAME: Frame = Frame {
    mode: FrameMode::Range,
    start: Bound::UnboundedPreceding,
    end: Bound::CurrentRow,
    exclusion: Exclusion::NoOthers,
};

/// The frame of a word such as `rows(first,row)`, `range(-5,+10)` or `groups(-1,last,ties)`.
pub fn frame_of(word: Word) -> Option<Frame> {
    Some(Frame {
        mode: mode_of(word.name)?,
        start: bound_of(word.argument(0)?)?,
        end: bound_of(word.argument(1)?)?,
        exclusion: exclusion_of(word.argument(2))?,
    })
}

fn mode_of(name: &str) -> Option<FrameMode> {
    match name {
        "rows" => Some(FrameMode::Rows),
        "range" => Some(FrameMode::Range),
        "groups" => Some(FrameMode::Groups),
        _ => None,
    }
}

fn bound_of(word: &str) -> Option<Bound> {
    match word {
        "first" => Some(Bound::UnboundedPreceding),
        "row" => Some(Bound::CurrentRow),
        "last" => Some(Bound::UnboundedFollowing),
        _ => offset_of(word),
    }
}

fn offset_of(word: &str) -> Option<Bound> {
    match word.strip_prefix('-') {
        Some(offset) => Some(Bound::Preceding(offset.parse::<u64>().ok()?)),
        None => Some(Bound::Following(word.strip_prefix('+')?.parse::<u64>().ok()?)),
    }
}

fn exclusion_of(word: Option<&str>) -> Option<Exclusion> {
    match word {
        None => Some(Exclusion::NoOthers),
        Some("current") => Some(Exclusion::CurrentRow),
        Some("group") => Some(Exclusion::Group),
        Some("ties") => Some(Exclusion::Ties),
        Some(_) => None,
    }
}
