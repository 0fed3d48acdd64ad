//! Types of columns.

ghost use Rattle.std.specs.Prelude.{◌≡◌, map};
ghost use Rattle.wd_dialect_read.specs.Tokens.{kind_in, kind_named, with_modifier};

/// What the values of a column are.
#[derive(Clone, Copy)]
pub enum ColumnKind {
    /// Whole numbers of 16 bits.
    Small,
    /// Whole numbers of 32 bits.
    Whole,
    /// Whole numbers of 64 bits.
    Big,
    Boolean,
    Text,
    /// Days.
    Date,
    /// Microseconds.
    Timestamp,
    /// Decimals. With a known number of places after the point they are whole numbers of their last place; without it equal ones may
    /// look different.
    Decimal(Option<u64>),
    /// Floating numbers, whose sum depends on the order in which they are added.
    Float,
    /// Values that are only compared and sorted.
    Opaque,
    /// Values that are only compared and sorted, and of which two that are equal may look different, such as intervals and JSON.
    Loose,
}

// The types of PostgreSQL, by the first word of their names.
const KINDS: [(&[u8], ColumnKind); 37] = [
    (b"smallint", ColumnKind::Small),
    (b"int2", ColumnKind::Small),
    (b"smallserial", ColumnKind::Small),
    (b"integer", ColumnKind::Whole),
    (b"int", ColumnKind::Whole),
    (b"int4", ColumnKind::Whole),
    (b"serial", ColumnKind::Whole),
    (b"bigint", ColumnKind::Big),
    (b"int8", ColumnKind::Big),
    (b"bigserial", ColumnKind::Big),
    (b"boolean", ColumnKind::Boolean),
    (b"bool", ColumnKind::Boolean),
    (b"text", ColumnKind::Text),
    (b"varchar", ColumnKind::Text),
    (b"character", ColumnKind::Text),
    (b"char", ColumnKind::Text),
    (b"national", ColumnKind::Text),
    (b"nchar", ColumnKind::Text),
    (b"name", ColumnKind::Text),
    (b"date", ColumnKind::Date),
    (b"timestamp", ColumnKind::Timestamp),
    (b"timestamptz", ColumnKind::Timestamp),
    (b"numeric", ColumnKind::Decimal(None)),
    (b"decimal", ColumnKind::Decimal(None)),
    (b"dec", ColumnKind::Decimal(None)),
    (b"real", ColumnKind::Float),
    (b"float4", ColumnKind::Float),
    (b"double", ColumnKind::Float),
    (b"float8", ColumnKind::Float),
    (b"float", ColumnKind::Float),
    (b"uuid", ColumnKind::Opaque),
    (b"bytea", ColumnKind::Opaque),
    (b"time", ColumnKind::Opaque),
    (b"bit", ColumnKind::Opaque),
    (b"inet", ColumnKind::Opaque),
    (b"cidr", ColumnKind::Opaque),
    (b"macaddr", ColumnKind::Opaque),
];

/// What is in brackets after the name of a type.
#[derive(Clone, Copy)]
pub enum Modifier {
    Nothing,
    One(u64),
    Two(u64, u64),
    /// Empty brackets, as an array has them.
    Array,
}

/// The kind that a table has for a name; for other types, a kind whose equal values may look different.
fn kind_in(mut table: &[(&[u8], ColumnKind)], name: &[u8]) -> ColumnKind
    ensures { result ≡ kind_in (map (λ entry. (entry.0.now, entry.1)) table.entry.now) name.now }
{
    while let [entry, rest @ ..] = table {
        if entry.0 == name {
            return entry.1;
        }
        table = rest;
    }
    ColumnKind::Loose
}

/// The kind of the type with that name.
#[tactic(auto, unfolding(crate::specs::Tokens::kind_named))]
pub fn kind_named(name: &[u8]) -> ColumnKind
    ensures { result ≡ kind_named name.now }
{
    kind_in(&KINDS, name)
}

/// The kind of a type with what is in brackets after its name. For an array the number in square brackets is its length.
pub fn with_modifier(kind: ColumnKind, modifier: Modifier) -> ColumnKind
    ensures { result ≡ with_modifier kind modifier }
{
    match (kind, modifier) {
        (_, Modifier::Nothing) => kind,
        (_, Modifier::Array) => ColumnKind::Opaque,
        (ColumnKind::Decimal(_), Modifier::One(_)) => ColumnKind::Decimal(Some(0)),
        (ColumnKind::Decimal(_), Modifier::Two(_, scale)) => ColumnKind::Decimal(Some(scale)),
        (
            ColumnKind::Text | ColumnKind::Timestamp | ColumnKind::Float | ColumnKind::Loose,
            Modifier::One(_),
        ) => kind,
        _ => ColumnKind::Opaque,
    }
}
