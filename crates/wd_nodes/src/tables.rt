//! The tables that the Scans of a plan read where they are.

ghost use Rattle.std.specs.Prelude.{◌≡◌};
ghost use Rattle.wd_nodes.specs.Relation.{stored_rows_of};
ghost use Rattle.wd_nodes.specs.Tables.{tables_kept};
ghost use Rattle.wd_value.specs.Rows.{instance_of, table_at};

use crate::stored::StoredRows;
use std::marker::Model;
use wd_columns::{Columns, OwnRows, RowSource};
use wd_value::Row;

/// How tables are kept.
#[derive(Drop)]
enum KeptTables<'a> {
    ByRow(&'a [Vec<Row>]),
    ByColumn(&'a [Columns]),
    Own(&'a [OwnRows]),
}

/// The tables of an instance, which are kept row by row or column by column, or are rows of their own. Contracts see the instance.
#[derive(Drop)]
pub struct Tables<'a> {
    kept: KeptTables<'a>,
}

impl<'a> Model for Tables<'a> {
    ghost use Rattle.wd_value.specs.Rows.{Instance};

    ghost Value = { Instance };

    ghost use Rattle.wd_nodes.specs.Tables.{tables_kept};

    ghost view = { λ t. tables_kept t.kept };
}

impl<'a> Tables<'a> {
    /// Tables that are lists of rows.
    pub fn of_rows(tables: &'a [Vec<Row>]) -> Tables<'a>
        ensures { result ≡ instance_of tables.now }
    {
        Tables {
            kept: KeptTables::ByRow(tables),
        }
    }

    /// Tables that are kept column by column.
    pub fn of_columns(tables: &'a [Columns]) -> Tables<'a>
        ensures { result ≡ tables.now }
    {
        Tables {
            kept: KeptTables::ByColumn(tables),
        }
    }

    /// Tables that are rows of their own.
    pub fn of_own(tables: &'a [OwnRows]) -> Tables<'a>
        ensures { result ≡ tables.now }
    {
        Tables {
            kept: KeptTables::Own(tables),
        }
    }

    /// The table with this number, without rows past the last table.
    pub fn table(&self, number: u16) -> RowSource<'_>
        ensures { result ≡ table_at self.now number }
    {
        table_in(&self.kept, number as usize)
    }

    /// Stored rows to be read where they are.
    pub fn source<'b, 't: 'b>(&'t self, stored: &'b StoredRows) -> RowSource<'b>
        ensures { result ≡ stored_rows_of self.now stored.now }
    {
        source_in(&self.kept, stored)
    }
}

fn source_in<'a>(kept: &'a KeptTables, stored: &'a StoredRows) -> RowSource<'a>
    ensures { result ≡ stored_rows_of (tables_kept kept.now) stored.now }
{
    match stored {
        StoredRows::Table(number) => table_in(kept, *number as usize),
        StoredRows::Own(rows) => rows.source(),
    }
}

fn table_in<'a>(kept: &'a KeptTables, number: usize) -> RowSource<'a>
    ensures { result ≡ table_at (tables_kept kept.now) number }
{
    match kept {
        KeptTables::ByRow(tables) => list_in(tables, number),
        KeptTables::ByColumn(tables) => columns_in(tables, number),
        KeptTables::Own(tables) => own_in(tables, number),
    }
}

fn list_in<'a>(tables: &'a [Vec<Row>], number: usize) -> RowSource<'a>
    ensures { result ≡ table_at (instance_of tables.now) number }
{
    let rows = match tables.get(number) {
        Some(rows) => rows.as_slice(),
        None => &[],
    };
    RowSource::of_rows(rows)
}

fn columns_in<'a>(tables: &'a [Columns], number: usize) -> RowSource<'a>
    ensures { result ≡ table_at tables.now number }
{
    match tables.get(number) {
        Some(columns) => RowSource::of_columns(columns),
        None => RowSource::of_rows(&[]),
    }
}

fn own_in<'a>(tables: &'a [OwnRows], number: usize) -> RowSource<'a>
    ensures { result ≡ table_at tables.now number }
{
    match tables.get(number) {
        Some(rows) => rows.source(),
        None => RowSource::of_rows(&[]),
    }
}
