//! The refusals of texts, by their numbers and places.
use crate::failure::Failure;
use wd_lex::LexError;
use wd_parse::ParseError;
use wd_resolve_operand::ResolveError;
use wd_schema::SchemaError;

impl From<LexError> for Failure {
    fn from(error: LexError) -> Failure {
        Failure::refused(error.number(), error.place())
    }
}

impl From<ParseError> for Failure {
    fn from(error: ParseError) -> Failure {
        Failure::refused(error.number(), error.place())
    }
}

impl From<SchemaError> for Failure {
    fn from(error: SchemaError) -> Failure {
        Failure::refused(error.number(), error.place())
    }
}

impl From<ResolveError> for Failure {
    fn from(error: ResolveError) -> Failure {
        Failure::refused(error.number(), error.place())
    }
}
