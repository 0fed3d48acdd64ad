use wd_value::{ColumnType, Text};

/// A column of a table.
#[derive(Drop)]
pub struct Column {
    pub name: Text,
    pub kind: ColumnType,
    /// Whether NULL is forbidden. True also for the columns of the primary key.
    pub not_null: bool,
}

/// A key of a table: no two of its rows may be equal on these columns.
#[derive(Drop)]
pub struct Key {
    /// The numbers of the columns, from 0.
    pub columns: Vec<u16>,
    pub primary: bool,
    /// Whether rows with a NULL in the key never count as equal on it.
    pub nulls_distinct: bool,
}

/// A table of a schema.
#[derive(Drop)]
pub struct Table {
    pub name: Text,
    pub columns: Vec<Column>,
    pub keys: Vec<Key>,
}
