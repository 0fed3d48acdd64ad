//! What is said of a column after its type.

ghost use Rattle.std.specs.Prelude.{◌≡◌, false};
ghost use Rattle.wd_dialect_schema.specs.Meaning.{begins_null, is_deferrable, is_not, key_said, nulls_said, says_deferrable, says_not_null, type_of};

use wd_dialect_read::{ColumnKind, Mark, Note};
use wd_read_statements::{KeyWords, Nulls};
use wd_value::ColumnType;

/// The profile's type of a column.
pub fn type_of(kind: ColumnKind) -> ColumnType
    ensures { result ≡ type_of kind }
{
    match kind {
        ColumnKind::Small => ColumnType::SmallInt,
        ColumnKind::Whole | ColumnKind::Date => ColumnType::Integer,
        ColumnKind::Big | ColumnKind::Timestamp | ColumnKind::Decimal(Some(_)) =>
            ColumnType::BigInt,
        ColumnKind::Boolean => ColumnType::Boolean,
        ColumnKind::Text
        | ColumnKind::Decimal(None)
        | ColumnKind::Float
        | ColumnKind::Opaque
        | ColumnKind::Loose => ColumnType::Text,
    }
}

/// Whether a mark is NOT.
fn is_not(mark: Mark) -> bool
    ensures { result ≡ is_not mark }
{
    match mark {
        Mark::Not => true,
        _ => false,
    }
}

/// Whether the marks begin with NULL.
fn begins_null(marks: &[Mark]) -> bool
    ensures { result ≡ begins_null marks.now }
{
    match marks {
        [Mark::Null, ..] => true,
        _ => false,
    }
}

/// Whether NOT NULL is among the marks.
pub fn says_not_null(marks: &[Mark]) -> bool
    ensures { result ≡ says_not_null marks.now }
{
    let mut rest = marks;
    while let [mark, after @ ..] = rest {
        if is_not(*mark) && begins_null(after) {
            return true;
        }
        rest = after;
    }
    false
}

/// Whether a mark is DEFERRABLE.
fn is_deferrable(mark: Mark) -> bool
    ensures { result ≡ is_deferrable mark }
{
    match mark {
        Mark::Passed(Note::Deferrable) => true,
        _ => false,
    }
}

/// Whether DEFERRABLE is among the marks, without NOT right before it.
pub fn says_deferrable(marks: &[Mark]) -> bool
    ensures { result ≡ says_deferrable false marks.now }
{
    let mut after_not = false;
    let mut rest = marks;
    while let [mark, after @ ..] = rest {
        if is_deferrable(*mark) && !after_not {
            return true;
        }
        after_not = is_not(*mark);
        rest = after;
    }
    false
}

/// What UNIQUE says of NULLs, by the marks after it.
fn nulls_said(marks: &[Mark]) -> Nulls
    ensures { result ≡ nulls_said marks.now }
{
    match marks {
        [Mark::Nulls, Mark::Not, Mark::Distinct, ..] => Nulls::NotDistinct,
        [Mark::Nulls, Mark::Distinct, ..] => Nulls::Distinct,
        _ => Nulls::Unsaid,
    }
}

/// The key that a mark begins, by the marks after it.
pub fn key_said(mark: Mark, others: &[Mark]) -> Option<KeyWords>
    ensures { result ≡ key_said mark others.now }
{
    match mark {
        Mark::Primary => Some(KeyWords::Primary),
        Mark::Unique => Some(KeyWords::Unique(nulls_said(others))),
        _ => None,
    }
}
