//! The tables of a witness from a text's tokens.

ghost use Rattle.std.specs.Prelude.{◌≡◌, map, None, option_map, IfOk, IfErr, ⊤};
ghost use Rattle.serde_json.specs.Data.{Members, object};
ghost use Rattle.wd_json_tokens.specs.Values.{value_at};
ghost use Rattle.wd_json_tokens.specs.declared.unread.Unread.TheVariants as unread;
ghost use Rattle.wd_witness_text.specs.Json.{tables_json};
ghost use Rattle.wd_witness_text.specs.Reading.{IsFitting, TakesFitting, TablesFit, HoldsTables};
ghost use Rattle.wd_witness_text.specs.Witnesses.{table_rows};

use crate::parts::TablePart;
use json::Reader;
use std::alloc::Global;
use std::collections::BTreeMap;
use wd_json_tokens::{Slots, Unread, read_object};
use wd_value::Row;

/// What was read of tables: the rows under each name, and `None` where its last value is of another form.
#[derive(Drop)]
struct TableSlots {
    tables: BTreeMap<String, Option<Vec<Row>>>,
}

impl Slots for TableSlots {
    ghost Names = { ⊤ };

    ghost names = { λ s. tt };

    ghost Holds = { λ s ms. HoldsTables s.tables.entries ms };

    fn read_member(
        &mut self,
        alloc: Global,
        reader: &mut Reader<'_>,
        depth: usize,
        name: &str,
    ) -> Result<(), Unread> {
        let name = String::from_str(alloc, name)?;
        let rows = Vec::read(alloc, reader, depth)?;
        drop(self.tables.insert(name, rows)?);
        Ok(())
    }
}

/// The rows of tables by their names, from an object of such members. Of equal names the last counts.
pub(crate) fn read_tables(
    alloc: Global,
    reader: &mut Reader<'_>,
    depth: usize,
) -> Result<Option<BTreeMap<String, Vec<Row>>>, Unread>
    ensures ok { IfOk result (λ o. TakesFitting tables_json TablesFit (option_map (λ m. map table_rows m.entries) o) depth reader.old reader.new) }
    ensures refused { IfErr result (λ e. e ≡ unread.NotJson → value_at depth reader.old ≡ None) }
{
    let mut slots = TableSlots {
        tables: BTreeMap::new(alloc),
    };
    if read_object(alloc, reader, depth, &mut slots)? {
        all_tables(alloc, slots)
    } else {
        Ok(None)
    }
}

/// The tables that were read, and `None` where the rows of one are of another form.
fn all_tables(
    alloc: Global,
    found: TableSlots,
) -> Result<Option<BTreeMap<String, Vec<Row>>>, Unread>
    ensures ok { IfOk result (λ o. (ms : Members) → HoldsTables found.tables.entries ms → IsFitting tables_json TablesFit (option_map (λ m. map table_rows m.entries) o) (object ms)) }
    ensures refused { IfErr result (λ e. e ≡ unread.OutOfMemory) }
{
    let mut tables = BTreeMap::new(alloc);
    for (name, rows) in found.tables {
        match rows {
            Some(rows) => drop(tables.insert(name, rows)?),
            None => return Ok(None),
        }
    }
    Ok(Some(tables))
}
