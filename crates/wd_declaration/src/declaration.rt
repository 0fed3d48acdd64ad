//! Declarations of tables.

ghost use Rattle.std.specs.Prelude.{◌<◌, length};

use crate::identifier::Identifier;
use wd_read_statements::KeyWords;
use wd_value::ColumnType;

/// The declaration of a column.
#[derive(Drop)]
pub struct DeclaredColumn {
    pub name: Identifier,
    pub kind: ColumnType,
    pub not_null: bool,
}

/// The declaration of a key over at least one column.
#[derive(Drop)]
pub struct DeclaredKey {
    pub words: KeyWords,
    pub columns: Vec<Identifier>,
    ghost some: { 0 < length columns.items },
}

/// What a table's declaration has between its brackets.
#[derive(Drop)]
pub enum DeclaredElement {
    Column(DeclaredColumn),
    Key(DeclaredKey),
}

/// The declaration of a table of at least one column or key.
#[derive(Drop)]
pub struct Declaration {
    pub name: Identifier,
    pub elements: Vec<DeclaredElement>,
    ghost some: { 0 < length elements.items },
}
