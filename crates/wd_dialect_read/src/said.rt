//! What the statements of a schema say.

ghost use Rattle.std.specs.Prelude.{◌<◌, length};

use crate::kind::ColumnKind;
use wd_declaration::Identifier;
use wd_read_statements::KeyWords;

/// What is passed over: columns, keys and rows mean the same without it.
#[derive(Clone, Copy, PartialEq, Eq)]
pub enum Note {
    /// `DEFAULT` of a column.
    Default,
    /// `CHECK` of a column or a table.
    Check,
    /// `REFERENCES` of a column, `FOREIGN KEY` of a table.
    References,
    /// `GENERATED` of a column.
    Generated,
    /// `COLLATE` of a column: its texts may be in another order than that of their bytes.
    Collate,
    /// `EXCLUDE` of a table.
    Exclude,
    /// `LIKE` of a table: the columns of the other table.
    Like,
    /// `STORAGE` and `COMPRESSION` of a column.
    Storage,
    /// `DEFERRABLE` of a column or a key: such a key holds only at the end of a transaction.
    Deferrable,
    /// A statement that declares no table, or a change that adds nothing to one.
    Statement,
}

/// What a token outside brackets says after a column's type.
#[derive(Clone, Copy, PartialEq, Eq)]
pub enum Mark {
    Not,
    Null,
    Primary,
    Unique,
    Nulls,
    Distinct,
    /// `CONSTRAINT`, before the name of a rule.
    Constraint,
    /// The first word of a rule that is passed over.
    Passed(Note),
    /// Any other token.
    Other,
}

/// A column: its type, and what comes after it.
#[derive(Drop)]
pub struct SaidColumn {
    pub name: Identifier,
    pub kind: ColumnKind,
    pub marks: Vec<Mark>,
}

/// A key: its words, its columns, of which there is at least one, and what comes after them.
#[derive(Drop)]
pub struct SaidKey {
    pub words: KeyWords,
    pub columns: Vec<Identifier>,
    pub marks: Vec<Mark>,
    ghost some: { 0 < length columns.items },
}

/// An entry between two commas of a table's declaration.
#[derive(Drop)]
pub enum Item {
    Column(SaidColumn),
    Key(SaidKey),
    Passed(Note),
}

/// A table's declaration, or what is added to the table with that name.
#[derive(Drop)]
pub struct SaidTable {
    pub name: Identifier,
    pub items: Vec<Item>,
}

/// A statement.
#[derive(Drop)]
pub enum Statement {
    /// A table's declaration.
    Table(SaidTable),
    /// Changes of a table.
    Changed(SaidTable),
    /// A statement that is passed over.
    Passed(Note),
}
