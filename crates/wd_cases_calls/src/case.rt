//! Which call each word of a line asks for.
use crate::judged;
use std::alloc::Global;
use wd_cases::{Cases, Failure, SchemaText, unescape};

/// The texts of a schema and a query, which earlier lines gave.
#[derive(Drop)]
pub struct CallCases {
    pub schema: SchemaText,
    pub query: Vec<u8>,
}

impl CallCases {
    /// The schema without tables, and no query.
    pub fn new(alloc: Global) -> CallCases {
        CallCases {
            schema: SchemaText::new(alloc),
            query: Vec::new(alloc),
        }
    }

    /// `query TEXT`: from here on the query is this one. Gives how many orderings its plan has.
    fn set_query(&mut self, alloc: Global, text: &str) -> Result<String, Failure> {
        self.query = unescape(alloc, text)?;
        judged::orderings(alloc, self)
    }
}

impl Cases for CallCases {
    fn answer(&mut self, alloc: Global, word: &str, text: &str) -> Result<String, Failure> {
        match word {
            "schema" => self.schema.set(alloc, text),
            "query" => self.set_query(alloc, text),
            "analyse" => judged::analyse_case(alloc, self),
            "seek" => judged::seek_case(alloc, self),
            "refute" => judged::refute_case(alloc, self, text),
            "decide" => judged::decide_case(alloc, self),
            "run" => judged::ran(alloc, self, text),
            _ => Err(Failure::NoCase),
        }
    }
}
