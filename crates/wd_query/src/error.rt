//! Why a schema's text or a query's text is refused.

ghost use Rattle.std.specs.Prelude.{◌≡◌};
ghost use Rattle.wd_query.specs.Causes.{query_number, query_place, text_number, text_place};

use thiserror::Error;
use wd_lex::LexError;
use wd_parse::ParseError;
use wd_resolve::ResolveError;
use wd_schema::SchemaError;

/// Why a query's text is refused.
#[derive(Debug, Drop, Error)]
pub enum QueryError {
    /// 101 to 107: the text cannot be split into tokens.
    #[error(transparent)]
    Tokens(LexError),
    /// 201 and 202: the tokens are not a query, or pass a limit.
    #[error(transparent)]
    Tree(ParseError),
    /// 401 to 419: the query has no plan.
    #[error(transparent)]
    Meaning(ResolveError),
}

/// Why a schema's text and a query's text have no plan.
#[derive(Debug, Drop, Error)]
pub enum TextError {
    #[error(transparent)]
    Schema(SchemaError),
    #[error(transparent)]
    Query(QueryError),
}

impl QueryError {
    /// The refusal's number, or `None` where memory ran out.
    pub fn number(&self) -> Option<u32>
        ensures { result ≡ query_number self.now }
    {
        match self {
            QueryError::Tokens(error) => error.number(),
            QueryError::Tree(error) => error.number(),
            QueryError::Meaning(error) => error.number(),
        }
    }

    /// The byte or the token that the refusal is about.
    pub fn place(&self) -> Option<u64>
        ensures { result ≡ query_place self.now }
    {
        match self {
            QueryError::Tokens(error) => error.place(),
            QueryError::Tree(error) => error.place(),
            QueryError::Meaning(error) => error.place(),
        }
    }
}

impl TextError {
    /// The refusal's number, or `None` where memory ran out.
    pub fn number(&self) -> Option<u32>
        ensures { result ≡ text_number self.now }
    {
        match self {
            TextError::Schema(error) => error.number(),
            TextError::Query(error) => error.number(),
        }
    }

    /// The byte or the token that the refusal is about.
    pub fn place(&self) -> Option<u64>
        ensures { result ≡ text_place self.now }
    {
        match self {
            TextError::Schema(error) => error.place(),
            TextError::Query(error) => error.place(),
        }
    }
}
