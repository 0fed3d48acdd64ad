//! What is reported about a schema that is read as PostgreSQL's tools write it.

use std::alloc::{AllocError, Global};
use wd_dialect_schema::{ColumnKind, Item, Mark, Note, SaidTable, Statement};

// The names of what is passed over, as they are reported.
const RULES: [(Note, &str); 8] = [
    (Note::Default, "DEFAULT"),
    (Note::Check, "CHECK"),
    (Note::References, "REFERENCES"),
    (Note::Generated, "GENERATED"),
    (Note::Exclude, "EXCLUDE"),
    (Note::Like, "LIKE"),
    (Note::Deferrable, "DEFERRABLE keys"),
    (Note::Statement, "other statements"),
];

/// What is assumed about columns of some types.
#[derive(Clone, Copy)]
enum Granted {
    /// That equal values are the same.
    Same,
    /// Which unit numbers count.
    Units,
}

impl Granted {
    /// Whether this is assumed about columns of a kind.
    fn concerns(self, kind: ColumnKind) -> bool {
        match self {
            Granted::Same => matches!(
                kind,
                ColumnKind::Loose | ColumnKind::Float | ColumnKind::Decimal(None)
            ),
            Granted::Units => matches!(
                kind,
                ColumnKind::Date | ColumnKind::Timestamp | ColumnKind::Decimal(Some(_))
            ),
        }
    }
}

/// The lines that are reported for a schema with these statements: what is passed over, each kind once, and what is assumed.
pub fn note_lines(alloc: Global, statements: &[Statement]) -> Result<Vec<String>, AllocError> {
    let mut lines = Vec::new(alloc);
    if let Some(line) = passed_line(alloc, statements)? {
        lines.push(line)?;
    }
    if passes(statements, Note::Collate) {
        let line = "note: texts are taken to be in the order of their bytes, whatever COLLATE says";
        lines.push(String::from_str(alloc, line)?)?;
    }
    if has_column(statements, Granted::Same) {
        let line =
            "note: values that are equal and may look different, as of json, interval, real and numeric without a scale, are taken to be the same";
        lines.push(String::from_str(alloc, line)?)?;
    }
    if has_column(statements, Granted::Units) {
        let line =
            "note: dates count days, timestamps microseconds, and numeric(p, s) units of its last place";
        lines.push(String::from_str(alloc, line)?)?;
    }
    Ok(lines)
}

/// The line that names what is passed over, if something is.
fn passed_line(alloc: Global, statements: &[Statement]) -> Result<Option<String>, AllocError> {
    let mut line = String::new(alloc);
    for (note, words) in RULES.iter() {
        if passes(statements, *note) {
            line.push_str(if line.is_empty() {
                "note: passed over "
            } else {
                ", "
            })?;
            line.push_str(words)?;
        }
    }
    if line.is_empty() {
        return Ok(None);
    }
    line.push_str(": less is known of the rows, so rows shown may break these")?;
    Ok(Some(line))
}

/// What a statement declares of a table, if it does.
fn table_in(statement: &Statement) -> Option<&SaidTable> {
    match statement {
        Statement::Table(table) | Statement::Changed(table) => Some(table),
        Statement::Passed(_) => None,
    }
}

/// Whether something of this kind is passed over in statements.
fn passes(statements: &[Statement], note: Note) -> bool {
    statements.iter().any(|statement| match table_in(statement) {
        Some(table) => table.items.iter().any(|item| is_passed(item, note)),
        None => note == Note::Statement,
    })
}

/// Whether something of this kind is passed over in one entry.
fn is_passed(item: &Item, note: Note) -> bool {
    match item {
        Item::Column(column) => column.marks.contains(&Mark::Passed(note)),
        Item::Key(key) => key.marks.contains(&Mark::Passed(note)),
        Item::Passed(other) => *other == note,
    }
}

/// Whether statements declare a column about which this is assumed.
fn has_column(statements: &[Statement], granted: Granted) -> bool {
    statements.iter().any(|statement| match table_in(statement) {
        Some(table) => table.items.iter().any(|item| match item {
            Item::Column(column) => granted.concerns(column.kind),
            _ => false,
        }),
        None => false,
    })
}
