//! What a command line requests.

/// Who reads the findings.
#[derive(Clone, Copy, Debug, PartialEq, Eq)]
pub enum Format {
    /// A person: blocks of lines.
    Text,
    /// A program: a line of JSON for each block.
    Json,
    /// A GitHub workflow: an annotation for each block.
    Github,
}

impl Format {
    /// The format of a word on the command line; that of a person for any other word.
    pub(crate) fn named(word: Option<&str>) -> Format {
        match word {
            Some("json") => Format::Json,
            Some("github") => Format::Github,
            _ => Format::Text,
        }
    }
}

/// Whether colours are used.
#[derive(Clone, Copy, Debug, PartialEq, Eq)]
pub enum Colour {
    /// Where a terminal shows the text.
    Auto,
    Always,
    Never,
}

impl Colour {
    /// The colours of a word on the command line; `auto` for any other word.
    pub(crate) fn named(word: Option<&str>) -> Colour {
        match word {
            Some("always") => Colour::Always,
            Some("never") => Colour::Never,
            _ => Colour::Auto,
        }
    }

    /// Whether colours are used on a stream.
    pub fn is_on(self, is_terminal: bool) -> bool {
        match self {
            Colour::Always => true,
            Colour::Never => false,
            Colour::Auto => is_terminal,
        }
    }
}

/// What is requested.
#[derive(Drop)]
pub enum Asked<'a> {
    /// The SQL that prints a database's schema.
    Catalog,
    /// A lock of the certificates of queries.
    Lock(FilesRequest<'a>),
    /// The text over which queries are checked, of each schema.
    Respelled(FilesRequest<'a>),
    /// A report on queries.
    Report(Request<'a>),
}

/// Files, and the schema, of a request.
#[derive(Drop)]
pub struct FilesRequest<'a> {
    /// The path of the schema, if one is given.
    pub schema: Option<&'a str>,
    /// The paths of queries and of folders.
    pub paths: Vec<&'a str>,
}

/// A request for a report.
#[derive(Drop)]
pub struct Request<'a> {
    /// The path of the schema, if one is given.
    pub schema: Option<&'a str>,
    /// Who reads the findings.
    pub format: Format,
    /// Whether files are written with the keys that mend their statements.
    pub is_fix: bool,
    /// Whether queries that may tie pass.
    pub allows_unknown: bool,
    /// The path of the page, if one is requested.
    pub html: Option<&'a str>,
    /// The path of the baseline, if one is given.
    pub baseline: Option<&'a str>,
    /// Whether the baseline is written and not read.
    pub writes_baseline: bool,
    pub colour: Colour,
    /// The paths of queries and of folders.
    pub paths: Vec<&'a str>,
}
