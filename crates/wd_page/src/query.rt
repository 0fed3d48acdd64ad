//! What there is to show of a query.

use std::collections::BTreeMap;
use wd_certificate::Certificate;
use wd_lex::Span;
use wd_lines::{Kind, Standing};
use wd_plan::{Outcome, Plan};
use wd_schema::Schema;
use wd_ties::TableColumn;
use wd_value::{Row, Text};

/// A statement of a file.
#[derive(Clone, Copy)]
pub struct Query<'p, 't, 'e> {
    pub path: &'p str,
    /// The line on which the statement begins, from 1.
    pub line: u64,
    pub text: &'t [u8],
    /// How its finding counts.
    pub standing: Standing,
    /// Why the statement is excused, if it is.
    pub excused: Option<&'e [u8]>,
}

/// What was found of a query that was read.
#[derive(Clone, Copy)]
pub struct Judged<'a> {
    pub kind: Kind,
    pub schema: &'a Schema,
    pub plan: &'a Plan,
    /// Whether the plan is not the query's own but a simpler one with the same answers.
    pub is_simpler: bool,
    /// The names of the answer's columns.
    pub names: &'a [Text],
    /// What justifies each call and each limit, where the query is deterministic.
    pub certificate: Option<&'a Certificate>,
    /// The rows over which the query has two answers, by the names of the tables, if they are known.
    pub tables: Option<&'a BTreeMap<String, Vec<Row>>>,
    /// The columns of these tables by which the rows tie that the two choices order differently.
    pub ties: &'a [TableColumn],
    /// The two answers.
    pub answers: Option<(&'a Outcome, &'a Outcome)>,
}

/// Why a text is not read.
#[derive(Clone, Copy)]
pub struct Refusal<'p, 't> {
    /// The file of the text: the query's, or the schema's.
    pub path: &'p str,
    pub text: &'t [u8],
    pub number: u32,
    /// The bytes that the refusal is about, if it names a place.
    pub span: Option<Span>,
    pub sentence: &'static str,
    pub remedy: &'static str,
}
