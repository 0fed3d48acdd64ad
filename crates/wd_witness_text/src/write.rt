//! A witness's text.

ghost use Rattle.std.specs.Prelude.{◌≡◌, map, All, IfOk};
ghost use Rattle.serde_json.specs.View.{view};
ghost use Rattle.wd_value.specs.Rows.{rows_of};
ghost use Rattle.wd_witness_text.specs.Json.{value_json, row_json, rows_json, tables_json, choice_json, witness_members_json, witness_json, witness_text, Spells};
ghost use Rattle.wd_witness_text.specs.Witnesses.{AllFit64, Fits64, positions_of, table_rows, witness_of};

use crate::witness::Witness;
use serde_json::{Map, Value as Json, put};
use std::alloc::Global;
use std::collections::BTreeMap;
use wd_json::list_value;
use wd_value::{OutOfMemory, Row, Value};

fn json_of_value(alloc: Global, value: &Value) -> Result<Json, OutOfMemory>
    ensures json { IfOk result (λ j. view j ≡ value_json value.now) }
    ensures fits { Fits64 value.now }
{
    match value {
        Value::Null => Ok(Json::Null),
        Value::Int(n) => Ok(Json::from(*n)),
        Value::Text(text) => Ok(Json::try_from_str(alloc, text.as_str())?),
        Value::Bool(b) => Ok(Json::Bool(*b)),
    }
}

fn json_of_row(alloc: Global, row: &[Value]) -> Result<Json, OutOfMemory>
    ensures json { IfOk result (λ j. view j ≡ row_json row.now) }
    ensures fits { IfOk result (λ _. All Fits64 row.now) }
{
    let mut list = Vec::with_capacity(alloc, row.len())?;
    for value in row {
        let item = json_of_value(alloc, value)?;
        list.push(item)?;
    }
    Ok(Json::Array(list))
}

fn json_of_rows(alloc: Global, rows: &[Row]) -> Result<Json, OutOfMemory>
    ensures json { IfOk result (λ j. view j ≡ rows_json (rows_of rows.now)) }
    ensures fits { IfOk result (λ _. All (All Fits64) (rows_of rows.now)) }
{
    let mut list = Vec::with_capacity(alloc, rows.len())?;
    for row in rows {
        let item = json_of_row(alloc, row)?;
        list.push(item)?;
    }
    Ok(Json::Array(list))
}

fn json_of_tables(alloc: Global, tables: &BTreeMap<String, Vec<Row>>) -> Result<Json, OutOfMemory>
    ensures json { IfOk result (λ j. view j ≡ tables_json (map table_rows tables.now.entries)) }
    ensures fits { IfOk result (λ _. All (λ t. All (All Fits64) t.rows) (map table_rows tables.now.entries)) }
{
    let mut members = Map::new(alloc);
    for (name, rows) in tables.iter() {
        let item = json_of_rows(alloc, rows)?;
        put(&mut members, alloc, name.as_str(), item)?;
    }
    Ok(Json::Object(members))
}

fn json_of_choice(alloc: Global, orderings: &[Vec<u64>]) -> Result<Json, OutOfMemory>
    ensures { IfOk result (λ j. view j ≡ choice_json (positions_of orderings.now)) }
{
    list_value(alloc, orderings)
}

fn json_of_members(
    alloc: Global,
    first: Json,
    second: Json,
    tables: Json,
) -> Result<Json, OutOfMemory>
    ensures { IfOk result (λ j. view j ≡ witness_members_json (view first) (view second) (view tables)) }
{
    let mut map = Map::new(alloc);
    put(&mut map, alloc, "first", first)?;
    put(&mut map, alloc, "second", second)?;
    put(&mut map, alloc, "tables", tables)?;
    Ok(Json::Object(map))
}

fn json_of_witness(alloc: Global, witness: &Witness) -> Result<Json, OutOfMemory>
    ensures json { IfOk result (λ j. view j ≡ witness_json (witness_of witness.now)) }
    ensures fits { IfOk result (λ _. AllFit64 (witness_of witness.now)) }
{
    let first = json_of_choice(alloc, &witness.first.orderings)?;
    let second = json_of_choice(alloc, &witness.second.orderings)?;
    let tables = json_of_tables(alloc, &witness.tables)?;
    json_of_members(alloc, first, second, tables)
}

impl Witness {
    /// The witness's text: JSON without white space, members and tables in alphabetical order. `read_witness` reads it back. An error
    /// only where memory runs out.
    pub fn to_json(&self, alloc: Global) -> Result<Vec<u8>, OutOfMemory>
        ensures text { IfOk result (λ b. b.items ≡ witness_text (witness_of self.now)) }
        ensures spells { IfOk result (λ b. Spells (witness_of self.now) b.items) }
        ensures fits { IfOk result (λ _. AllFit64 (witness_of self.now)) }
    {
        let value = json_of_witness(alloc, self)?;
        Ok(value.to_vec(alloc)?)
    }
}
