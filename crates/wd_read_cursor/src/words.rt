//! Words that are key words in their place, and may be names elsewhere.

ghost use Rattle.std.specs.Prelude.{◌≡◌};
ghost use Rattle.wd_read_cursor.specs.Tokens.{letters};

/// A key word that is not reserved.
#[derive(Clone, Copy, PartialEq, Eq)]
pub enum KeyWord {
    Between,
    Cube,
    Current,
    Exclude,
    First,
    Following,
    Grouping,
    Key,
    Last,
    Next,
    No,
    Nulls,
    Only,
    Others,
    Preceding,
    Rollup,
    Row,
    Sets,
    Ties,
    Unbounded,
}

impl KeyWord {
    pub fn letters(self) -> &'static str
        ensures { result.now ≡ letters self }
    {
        match self {
            KeyWord::Between => "between",
            KeyWord::Cube => "cube",
            KeyWord::Current => "current",
            KeyWord::Exclude => "exclude",
            KeyWord::First => "first",
            KeyWord::Following => "following",
            KeyWord::Grouping => "grouping",
            KeyWord::Key => "key",
            KeyWord::Last => "last",
            KeyWord::Next => "next",
            KeyWord::No => "no",
            KeyWord::Nulls => "nulls",
            KeyWord::Only => "only",
            KeyWord::Others => "others",
            KeyWord::Preceding => "preceding",
            KeyWord::Rollup => "rollup",
            KeyWord::Row => "row",
            KeyWord::Sets => "sets",
            KeyWord::Ties => "ties",
            KeyWord::Unbounded => "unbounded",
        }
    }
}
