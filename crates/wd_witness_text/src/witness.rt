//! The contents of a witness: the rows of tables, and two choices of orderings over them.

ghost use Rattle.std.specs.Prelude.{◌≡◌, map, IfOk};
ghost use Rattle.wd_schema.specs.Schemas.{schema_of};
ghost use Rattle.wd_value.specs.Rows.{instance_of, rows_of};
ghost use Rattle.wd_witness_text.specs.Witnesses as spec;
ghost use Rattle.wd_witness_text.specs.Witnesses.{instance_under, table_rows, witness_of};

use std::alloc::Global;
use std::collections::BTreeMap;
use wd_plan::Choice;
use wd_schema::Schema;
use wd_value::{Instance, OutOfMemory, Row, copy_row};

/// Tables over which a plan has two answers: one under each choice.
#[derive(Drop)]
pub struct Witness {
    /// The rows of tables by the tables' names. A table that is not named is empty.
    pub tables: BTreeMap<String, Vec<Row>>,
    pub first: Choice,
    pub second: Choice,
}

impl Witness {
    /// The rows of the schema's tables, in order of declaration: those under a table's name, and no rows for a table that the witness
    /// does not name.
    pub fn instance(&self, alloc: Global, schema: &Schema) -> Result<Instance, OutOfMemory>
        ensures { IfOk result (λ v. instance_of v.items ≡ instance_under (schema_of schema.now) (witness_of self.now)) }
    {
        let mut instance = Vec::with_capacity(alloc, schema.tables.len())?;
        for table in schema.tables.values() {
            let rows = copy_rows(alloc, rows_named(&self.tables, table.name.as_str()))?;
            instance.push(rows)?;
        }
        Ok(instance)
    }
}

/// The rows under a name; empty where no table has it.
fn rows_named<'a>(tables: &'a BTreeMap<String, Vec<Row>>, name: &str) -> &'a [Row]
    ensures { rows_of result.now ≡ spec.rows_named name.now (map table_rows tables.now.entries) }
{
    match tables.get(name) {
        Some(rows) => rows,
        None => &[],
    }
}

fn copy_rows(alloc: Global, rows: &[Row]) -> Result<Vec<Row>, OutOfMemory>
    ensures { IfOk result (λ v. rows_of v.items ≡ rows_of rows.now) }
{
    let mut copied = Vec::with_capacity(alloc, rows.len())?;
    for row in rows {
        copied.push(copy_row(alloc, row)?)?;
    }
    Ok(copied)
}
