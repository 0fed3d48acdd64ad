//! The kinds of a query's names: a name has the kind that all its uses agree on.

ghost use Rattle.std.specs.Prelude.{◌≡◌, IfOk};
ghost use Rattle.wd_casts.specs.Kinds as kinds;
ghost use Rattle.wd_casts.specs.Names as spec;
ghost use Rattle.wd_casts.specs.Seen.{kinds_seen};

use crate::kind::{Kind, kind_of_column};
use crate::names::uses;
use std::alloc::Global;
use wd_amounts::{KnownNames, NameValue};
use wd_dialect_read::{ColumnKind, Statement};
use wd_lex::Token;
use wd_value::OutOfMemory;

/// The kinds of the names of a query, where they are known.
pub type KnownKinds = KnownNames<Kind>;

fn is_same(first: Kind, second: Kind) -> bool
    ensures { result ≡ spec.is_same first second }
{
    matches!(
        (first, second),
        (Kind::Small, Kind::Small)
            | (Kind::Whole, Kind::Whole)
            | (Kind::Big, Kind::Big)
            | (Kind::Boolean, Kind::Boolean)
            | (Kind::Text, Kind::Text)
            | (Kind::Date, Kind::Date)
            | (Kind::Timestamp, Kind::Timestamp)
            | (Kind::Interval, Kind::Interval)
    )
}

/// The kind of values that are of the one or the other.
fn either(first: Option<Kind>, second: Option<Kind>) -> Option<Kind>
    ensures { result ≡ spec.either first second }
{
    match (first, second) {
        (Some(kind), Some(other)) => if is_same(kind, other) { first } else { None },
        _ => None,
    }
}

impl NameValue for Kind {
    ghost of_column = { kinds.kind_of_column };

    ghost either = { spec.either };

    fn of_column(column: ColumnKind) -> Option<Kind>
        ensures { result ≡ kinds.kind_of_column column }
    {
        kind_of_column(column)
    }

    fn either(first: Option<Kind>, second: Option<Kind>) -> Option<Kind>
        ensures { result ≡ spec.either first second }
    {
        either(first, second)
    }
}

/// The kinds of the names of a query over the tables of a schema.
pub fn known_kinds(
    alloc: Global,
    statements: &[Statement],
    tokens: &[Token],
) -> Result<KnownKinds, OutOfMemory>
    ensures { IfOk result (λ kinds. kinds_seen kinds ≡ spec.kind_named (spec.uses statements.now tokens.now)) }
{
    KnownNames::from_uses(alloc, &uses(alloc, statements, tokens)?)
}
