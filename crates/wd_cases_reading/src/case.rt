//! Which call each word of a line asks for.
use crate::{phrase, refusal, rows, schema, statement, token, tree};
use std::alloc::Global;
use wd_cases::{Cases, Failure, SchemaText, tokens_of};
use wd_lex::Token;

/// What earlier lines gave.
#[derive(Drop)]
pub struct ReadingCases {
    schema: SchemaText,
}

impl ReadingCases {
    /// The schema without tables.
    pub fn new(alloc: Global) -> ReadingCases {
        ReadingCases {
            schema: SchemaText::new(alloc),
        }
    }
}

impl Cases for ReadingCases {
    fn answer(&mut self, alloc: Global, word: &str, text: &str) -> Result<String, Failure> {
        match word {
            "tokens" => token::tokens(alloc, text),
            "tables" => schema::tables(alloc, text),
            "schema" => self.schema.set(alloc, text),
            "table" => schema::table(alloc, &self.schema, text),
            "meets" => schema::meets_case(alloc, &self.schema, text),
            "load" => rows::load_case(alloc, &self.schema, text),
            "why" => rows::explain_case(alloc, &self.schema, text),
            "answer" => rows::answer(alloc, text),
            "memory" => refusal::want_of_memory(alloc, text),
            "laws" => refusal::laws(alloc),
            _ => over_text(alloc, word, text),
        }
    }
}

fn over_text(alloc: Global, word: &str, text: &str) -> Result<String, Failure> {
    let tokens = tokens_of(alloc, text)?;
    over_tokens(alloc, word, &tokens)
}

fn over_tokens(alloc: Global, word: &str, tokens: &[Token]) -> Result<String, Failure> {
    match word {
        "eat" => phrase::eat_case(alloc, tokens),
        "expect" => phrase::expect_case(alloc, tokens),
        "eat_name" => phrase::eaten_name(alloc, tokens),
        "name_at" => phrase::name(alloc, tokens),
        "query" => tree::query(alloc, tokens),
        "items" => tree::items(alloc, tokens),
        "window" => tree::window(alloc, tokens),
        "limits" => tree::limits(alloc, tokens),
        "statements" => statement::statements(alloc, tokens),
        _ => Err(Failure::NoCase),
    }
}
