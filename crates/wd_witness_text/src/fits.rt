//! Whether a witness's tables are those of a schema.

ghost use Rattle.std.specs.Prelude.{◌≡◌, ◌==◌, map, length, All, Any, IfOk, IfErr};
ghost use Rattle.std.specs.List.{list_all};
ghost use Rattle.wd_schema.specs.Schemas.{schema_of};
ghost use Rattle.wd_value.specs.Rows.{rows_of};
ghost use Rattle.wd_witness_text.specs.Refusals.{RefusesTable};
ghost use Rattle.wd_witness_text.specs.Witnesses.{IsTableOf, table_rows};

use crate::error::WitnessTextError;
use std::collections::BTreeMap;
use wd_schema::Schema;
use wd_value::Row;

/// The most rows of a table.
const MOST_ROWS: usize = 64;

fn have_length(rows: &[Row], columns: usize) -> bool
    ensures { result ≡ list_all (λ row. length row.items == columns) rows.now }
{
    for row in rows {
        if row.len() != columns {
            return false;
        }
    }
    true
}

fn fit_table(schema: &Schema, name: &str, rows: &[Row]) -> Result<(), WitnessTextError>
    ensures ok { IfOk result (λ _. IsTableOf (schema_of schema.now) (record { name = name.now; rows = rows_of rows.now })) }
    ensures refused { IfErr result (λ e. RefusesTable (schema_of schema.now) e (record { name = name.now; rows = rows_of rows.now })) }
{
    let Some(table) = schema.table(name) else {
        return Err(WitnessTextError::UnknownTable);
    };
    if rows.len() > MOST_ROWS {
        return Err(WitnessTextError::TooManyRows);
    }
    if !have_length(rows, table.columns.len()) {
        return Err(WitnessTextError::RowLength);
    }
    Ok(())
}

/// Accepts tables of the schema, each with at most 64 rows that have a value for each column.
pub(crate) fn fit_tables(
    schema: &Schema,
    tables: &BTreeMap<String, Vec<Row>>,
) -> Result<(), WitnessTextError>
    ensures ok { IfOk result (λ _. All (IsTableOf (schema_of schema.now)) (map table_rows tables.now.entries)) }
    ensures refused { IfErr result (λ e. Any (RefusesTable (schema_of schema.now) e) (map table_rows tables.now.entries)) }
{
    for (name, rows) in tables.iter() {
        fit_table(schema, name.as_str(), rows)?;
    }
    Ok(())
}
