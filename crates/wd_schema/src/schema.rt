//! Schemas.

ghost use Rattle.std.specs.Prelude.{◌≡◌, map, All};
ghost use Rattle.std.specs.String.{string_bytes};
ghost use Rattle.wd_schema.specs.Tables as spec;
ghost use Rattle.wd_schema.specs.WellFormed.{IsWellFormed};

use crate::table::Table;
use indexmap::IndexMap;

/// The tables of a schema by their names, in order of declaration.
#[derive(Drop)]
pub struct Schema {
    pub tables: IndexMap<String, Table>,

    // Each table is stored under its own name.
    ghost named: { All (λ entry. string_bytes entry.0 ≡ entry.1.name) tables.entries },

    // At most 64 tables of at most 256 columns and 64 keys each; keys name columns.
    ghost well_formed: { IsWellFormed (map (λ entry. spec.table_of entry.1) tables.entries) },
}

impl Schema {
    ghost use Rattle.std.specs.Prelude.{option_map};
    ghost use Rattle.wd_schema.specs.Schemas.{schema_of, table_named};
    ghost use Rattle.wd_schema.specs.Tables.{table_of};

    /// The table of that name. Takes no memory.
    pub fn table(&self, name: &str) -> Option<&Table>
        ensures { option_map (λ t. table_of t.now) result ≡ table_named name.now (schema_of self.now) }
    {
        self.tables.get(name)
    }
}
