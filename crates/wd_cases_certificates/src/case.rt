//! Which call each word of a line asks for.
use crate::{closures, facts, refusal, sets, text, verdict};
use std::alloc::Global;
use wd_cases::{Cases, Failure, SchemaText, unescape};

/// The texts of a schema and a query, which earlier lines gave.
#[derive(Drop)]
pub struct CertificateCases {
    pub schema: SchemaText,
    pub query: Vec<u8>,
}

impl CertificateCases {
    /// The schema without tables, and no query.
    pub fn new(alloc: Global) -> CertificateCases {
        CertificateCases {
            schema: SchemaText::new(alloc),
            query: Vec::new(alloc),
        }
    }

    /// `query TEXT`: from here on the query is this one. Gives the nodes of its plan.
    fn set_query(&mut self, alloc: Global, text: &str) -> Result<String, Failure> {
        self.query = unescape(alloc, text)?;
        verdict::nodes(alloc, self)
    }
}

impl Cases for CertificateCases {
    fn answer(&mut self, alloc: Global, word: &str, text: &str) -> Result<String, Failure> {
        match word {
            "certificate" => text::certificate(alloc, text),
            "again" => text::again(alloc, text),
            "schema" => self.schema.set(alloc, text),
            "query" => self.set_query(alloc, text),
            "verify" => verdict::verify_text(alloc, self, text),
            "why" => verdict::why(alloc, self, text),
            "verdict" => verdict::verdict(alloc, self, text),
            "given" => facts::facts_at(alloc, self, text),
            "set" => sets::set(alloc, text),
            "closure" => closures::close_case(alloc, text),
            "refusal" => refusal::refusal(alloc, text),
            "laws" => refusal::laws(alloc),
            _ => Err(Failure::NoCase),
        }
    }
}
