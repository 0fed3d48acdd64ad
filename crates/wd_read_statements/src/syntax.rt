//! Schemas as they are written.

use wd_read_cursor::Name;

/// What follows UNIQUE.
#[derive(Clone, Copy)]
pub enum Nulls {
    /// Nothing, so that NULLs are distinct.
    Unsaid,
    /// NULLS DISTINCT
    Distinct,
    /// NULLS NOT DISTINCT
    NotDistinct,
}

/// The words that declare a key.
#[derive(Clone, Copy)]
pub enum KeyWords {
    Primary,
    Unique(Nulls),
}

/// A rule for a column.
#[derive(Clone, Copy)]
pub enum Rule {
    NotNull,
    Null,
    Key(KeyWords),
}

/// A rule for a column, and the constraint's name.
#[derive(Drop)]
pub struct ColumnRule {
    pub constraint: Option<Name>,
    pub rule: Rule,
}

/// A column's declaration.
#[derive(Drop)]
pub struct WrittenColumn {
    pub name: Name,
    pub kind: Name,
    pub rules: Vec<ColumnRule>,
}

/// A key that is an element of its own, beside the columns.
#[derive(Drop)]
pub struct WrittenKey {
    pub constraint: Option<Name>,
    pub words: KeyWords,
    pub columns: Vec<Name>,
}

/// An element between the brackets of a table.
#[derive(Drop)]
pub enum Element {
    Column(WrittenColumn),
    Key(WrittenKey),
}

/// A table's declaration.
#[derive(Drop)]
pub struct WrittenTable {
    pub name: Name,
    pub elements: Vec<Element>,
}
