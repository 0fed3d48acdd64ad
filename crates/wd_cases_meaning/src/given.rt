//! What earlier lines gave: a schema, and data of tables.
use std::alloc::Global;
use wd_cases::{Failure, NamedTexts, SchemaText};

#[derive(Drop)]
pub struct Given {
    pub schema: SchemaText,
    /// The data under names, which may be tables'.
    pub data: NamedTexts,
}

impl Given {
    /// The schema without tables, and no data.
    pub fn new(alloc: Global) -> Given {
        Given {
            schema: SchemaText::new(alloc),
            data: NamedTexts::new(alloc),
        }
    }

    /// `schema TEXT`: from here on the schema is this one, and there is no data.
    pub fn set_schema(&mut self, alloc: Global, text: &str) -> Result<String, Failure> {
        *self = Given::new(alloc);
        self.schema.set(alloc, text)
    }

    /// `data NAME TEXT` is further data, and `data` alone takes all data away.
    pub fn set_data(&mut self, alloc: Global, text: &str) -> Result<String, Failure> {
        let count = self.data.set(alloc, text)?;
        Ok(format!(in alloc; "given: {count}")?)
    }
}
