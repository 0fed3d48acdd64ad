//! The kinds of the values of expressions.

ghost use Rattle.std.specs.Prelude.{◌≡◌};
ghost use Rattle.wd_casts.specs.Kinds as spec;

use wd_dialect_read::ColumnKind;

/// A kind of values, by the types of PostgreSQL.
#[derive(Clone, Copy)]
pub enum Kind {
    /// Whole numbers of 16 bits.
    Small,
    /// Whole numbers of 32 bits.
    Whole,
    /// Whole numbers of 64 bits.
    Big,
    Boolean,
    Text,
    /// Days from 1970-01-01 on.
    Date,
    /// Microseconds from the start of 1970-01-01 on.
    Timestamp,
    /// Spans of time.
    Interval,
}

/// Whether each value of the first kind is a value of the second, with the same meaning.
pub fn is_within(first: Kind, second: Kind) -> bool
    ensures { result ≡ spec.is_within first second }
{
    matches!(
        (first, second),
        (Kind::Small, Kind::Small | Kind::Whole | Kind::Big)
            | (Kind::Whole, Kind::Whole | Kind::Big)
            | (Kind::Big, Kind::Big)
            | (Kind::Boolean, Kind::Boolean)
            | (Kind::Text, Kind::Text)
            | (Kind::Date, Kind::Date)
            | (Kind::Timestamp, Kind::Timestamp)
            | (Kind::Interval, Kind::Interval)
    )
}

/// Whether a whole number is a value of the kind.
pub fn holds(kind: Kind, number: u64) -> bool
    ensures { result ≡ spec.holds kind number }
{
    match kind {
        Kind::Small => number < 32_768,
        Kind::Whole => number < 2_147_483_648,
        Kind::Big => number < 9_223_372_036_854_775_808,
        _ => false,
    }
}

/// The kind of a column's values.
pub fn kind_of_column(column: ColumnKind) -> Option<Kind>
    ensures { result ≡ spec.kind_of_column column }
{
    match column {
        ColumnKind::Small => Some(Kind::Small),
        ColumnKind::Whole => Some(Kind::Whole),
        ColumnKind::Big => Some(Kind::Big),
        ColumnKind::Boolean => Some(Kind::Boolean),
        ColumnKind::Text => Some(Kind::Text),
        ColumnKind::Date => Some(Kind::Date),
        ColumnKind::Timestamp => Some(Kind::Timestamp),
        _ => None,
    }
}

/// The kind of a type whose name is one word.
#[tactic(auto, unfolding(crate::specs::Kinds::kind_of_word))]
pub fn kind_of_word(word: &str) -> Option<Kind>
    ensures { result ≡ spec.kind_of_word word.now }
{
    match word {
        "smallint" | "int2" => Some(Kind::Small),
        "integer" | "int" | "int4" => Some(Kind::Whole),
        "bigint" | "int8" => Some(Kind::Big),
        "boolean" | "bool" => Some(Kind::Boolean),
        "text" | "varchar" => Some(Kind::Text),
        "date" => Some(Kind::Date),
        "timestamp" | "timestamptz" => Some(Kind::Timestamp),
        "interval" => Some(Kind::Interval),
        _ => None,
    }
}
