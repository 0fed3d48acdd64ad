use crate::escape::unescape;
use crate::failure::Failure;
use std::alloc::Global;
use wd_schema::{Schema, read_schema};

/// The text of the schema that earlier lines gave.
#[derive(Drop)]
pub struct SchemaText {
    pub bytes: Vec<u8>,
}

impl SchemaText {
    /// The schema without tables.
    pub fn new(alloc: Global) -> SchemaText {
        SchemaText {
            bytes: Vec::new(alloc),
        }
    }

    /// From here on the schema is this one. Gives how many tables it has.
    pub fn set(&mut self, alloc: Global, line: &str) -> Result<String, Failure> {
        self.bytes = unescape(alloc, line)?;
        let count = self.tables(alloc)?.tables.len();
        Ok(format!(in alloc; "tables: {count}")?)
    }

    /// The tables of the schema.
    pub fn tables(&self, alloc: Global) -> Result<Schema, Failure> {
        Ok(read_schema(alloc, &self.bytes)?)
    }
}
