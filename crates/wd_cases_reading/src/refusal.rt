//! The refusals of the readers by their numbers and places, and the laws of their crates.
use std::alloc::Global;
use wd_cases::Failure;
use wd_lex::LexError;
use wd_parse::ParseError;
use wd_schema::SchemaError;
use wd_tables::DataError;

pub fn of_rows(error: &DataError) -> Failure {
    Failure::refused(error.number(), error.place())
}

/// `memory CALL`: the number, the place and the message of the answer of a call that runs out of memory.
pub fn want_of_memory(alloc: Global, call: &str) -> Result<String, Failure> {
    match call {
        "lex" => Failure::from(LexError::OutOfMemory).explained(alloc, &LexError::OutOfMemory),
        "parse" => Failure::from(ParseError::OutOfMemory).explained(
            alloc,
            &ParseError::OutOfMemory,
        ),
        "read_schema" => Err(Failure::from(SchemaError::OutOfMemory)),
        "load" => Err(of_rows(&DataError::OutOfMemory)),
        _ => Err(Failure::NoCase),
    }
}

/// `laws`: the laws of the crates are functions, which return.
pub fn laws(alloc: Global) -> Result<String, Failure> {
    wd_lex::laws::one_list_of_tokens();
    wd_lex::laws::one_answer();
    wd_lex::laws::has_answer();
    wd_lex::laws::longest_front();
    wd_lex::laws::comments_come_first();
    wd_parse::laws::one_tree();
    wd_read_statements::laws::one_tree();
    wd_read_statements::laws::one_place();
    wd_schema::laws::one_meaning();
    Ok(String::from_str(alloc, "hold")?)
}
