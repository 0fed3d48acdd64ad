//! Which call each word of a line asks for.
use crate::given::Given;
use crate::tree::query_of;
use crate::{plan, refusal, run};
use std::alloc::Global;
use wd_cases::{Cases, Failure};
use wd_syntax::Query;

impl Cases for Given {
    /// Runs, and lines that later ones build on.
    fn answer(&mut self, alloc: Global, word: &str, text: &str) -> Result<String, Failure> {
        match word {
            "schema" => self.set_schema(alloc, text),
            "data" => self.set_data(alloc, text),
            "run" => run::ran(alloc, self, text),
            "memory" => refusal::want_of_memory(text),
            "laws" => refusal::laws(alloc),
            _ => over_text(alloc, self, word, text),
        }
    }
}

fn over_text(alloc: Global, given: &Given, word: &str, text: &str) -> Result<String, Failure> {
    let query = query_of(alloc, text)?;
    over_query(alloc, given, word, &query)
}

fn over_query(alloc: Global, given: &Given, word: &str, query: &Query) -> Result<String, Failure> {
    match word {
        "plan" => plan::plan(alloc, given, query),
        "refusal" => plan::refusal(alloc, given, query),
        "orderings" => plan::orderings(alloc, given, query),
        _ => Err(Failure::NoCase),
    }
}
