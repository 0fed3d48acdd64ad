//! The lists of sort keys that are tried for a query, as they are written in it.

use std::alloc::Global;
use wd_lex::{Terminal, Token, TokenKind, lex};
use wd_plan::Plan;
use wd_schema::{Schema, Table};
use wd_value::OutOfMemory;

/// The most names of keys that are paired.
const MOST_PAIRED: usize = 16;

/// The lists of sort keys that may be tried for a query's text, whose plan over a schema is given: first those of one column, then of
/// two, then of three; among those of one length the keys of the tables first, and then the columns of longer keys. A column is named
/// as it is and after each name of a table that the query writes.
pub fn candidates(
    alloc: Global,
    schema: &Schema,
    plan: &Plan,
    query: &[u8],
) -> Result<Vec<String>, OutOfMemory> {
    match lex(alloc, query) {
        Ok(tokens) => candidates_of(alloc, schema, plan, &tokens),
        Err(_) => Ok(Vec::new(alloc)),
    }
}

/// The lists that may be tried for a query of these tokens.
fn candidates_of(
    alloc: Global,
    schema: &Schema,
    plan: &Plan,
    tokens: &[Token],
) -> Result<Vec<String>, OutOfMemory> {
    let tables = tables_read(alloc, schema, plan)?;
    let prefixes = prefixes(alloc, tokens, &tables)?;
    let mut found = Vec::new(alloc);
    add_candidates(alloc, tokens, &tables, &prefixes, &mut found)?;
    Ok(found)
}

/// Adds the lists in the order in which they are tried.
fn add_candidates(
    alloc: Global,
    tokens: &[Token],
    tables: &[&Table],
    prefixes: &[String],
    found: &mut Vec<String>,
) -> Result<(), OutOfMemory> {
    add_keys_of_all(alloc, tables, 1, prefixes, found)?;
    let keys = found.len();
    for table in tables {
        add_parts(alloc, table, prefixes, found)?;
    }
    for table in tables {
        add_columns(alloc, table, prefixes, found)?;
    }
    add_aliases(alloc, tokens, found)?;
    add_keys_of_all(alloc, tables, 2, prefixes, found)?;
    add_pairs(alloc, keys.min(MOST_PAIRED), found)?;
    add_keys_of_all(alloc, tables, 3, prefixes, found)
}

/// The tables that a plan reads, each once, in the order in which it reads them.
fn tables_read<'a>(
    alloc: Global,
    schema: &'a Schema,
    plan: &Plan,
) -> Result<Vec<&'a Table>, OutOfMemory> {
    let mut numbers = Vec::new(alloc);
    add_scans(plan, &mut numbers)?;
    let mut tables = Vec::with_capacity(alloc, numbers.len())?;
    for number in &numbers {
        if let Some((_, table)) = schema.tables.get_index(usize::from(*number)) {
            tables.push(table)?;
        }
    }
    Ok(tables)
}

/// Adds the numbers of the tables that a plan reads.
fn add_scans(plan: &Plan, numbers: &mut Vec<u16>) -> Result<(), OutOfMemory> {
    match plan {
        Plan::Scan { table, .. } => {
            if !numbers.iter().any(|number| *number == *table) {
                numbers.push(*table)?;
            }
            Ok(())
        }
        Plan::Join { left, right, .. } => {
            add_scans(left, numbers)?;
            add_scans(right, numbers)
        }
        Plan::Filter { input, .. }
        | Plan::Map { input, .. }
        | Plan::Group { input, .. }
        | Plan::Window { input, .. }
        | Plan::Distinct { input }
        | Plan::Limit { input, .. } => add_scans(input, numbers),
    }
}

/// What may come before a column's name: nothing, each name that the query writes before a dot, and the tables' names.
fn prefixes(
    alloc: Global,
    tokens: &[Token],
    tables: &[&Table],
) -> Result<Vec<String>, OutOfMemory> {
    let mut found = Vec::new(alloc);
    found.push(String::new(alloc))?;
    for number in 1..tokens.len() {
        if let TokenKind::Terminal(Terminal::Dot) = &tokens[number].kind {
            if let Some(name) = name_of(&tokens[number - 1]) {
                add_prefix(alloc, name, &mut found)?;
            }
        }
    }
    for table in tables {
        add_prefix(alloc, table.name.as_str(), &mut found)?;
    }
    Ok(found)
}

/// Adds a table's name with a dot, where it is new.
fn add_prefix(alloc: Global, name: &str, found: &mut Vec<String>) -> Result<(), OutOfMemory> {
    let mut prefix = write_name(alloc, name)?;
    prefix.push('.')?;
    add_new(prefix, found)
}

/// Adds a text where it is new.
fn add_new(text: String, found: &mut Vec<String>) -> Result<(), OutOfMemory> {
    if !found.iter().any(|other| other.as_str() == text.as_str()) {
        found.push(text)?;
    }
    Ok(())
}

/// The name that a token is.
fn name_of(token: &Token) -> Option<&str> {
    match &token.kind {
        TokenKind::Word(name) | TokenKind::Quoted(name) => Some(name.as_str()),
        _ => None,
    }
}

/// A name as it is written in a query: as it is, or in quotes where it would be read otherwise.
fn write_name(alloc: Global, name: &str) -> Result<String, OutOfMemory> {
    if is_word(alloc, name) {
        return Ok(String::from_str(alloc, name)?);
    }
    let mut quoted = String::from_str(alloc, "\"")?;
    for c in name.chars() {
        if c == '"' {
            quoted.push('"')?;
        }
        quoted.push(c)?;
    }
    quoted.push('"')?;
    Ok(quoted)
}

/// Whether a name is read as it is without quotes.
fn is_word(alloc: Global, name: &str) -> bool {
    match lex(alloc, name.as_bytes()) {
        Ok(tokens) => is_one_word(&tokens, name),
        Err(_) => false,
    }
}

/// Whether the tokens are this one word.
fn is_one_word(tokens: &[Token], name: &str) -> bool {
    match tokens {
        [token] => match &token.kind {
            TokenKind::Word(word) => word.as_str() == name,
            _ => false,
        },
        _ => false,
    }
}

/// Adds the tables' keys of `length` columns.
fn add_keys_of_all(
    alloc: Global,
    tables: &[&Table],
    length: usize,
    prefixes: &[String],
    found: &mut Vec<String>,
) -> Result<(), OutOfMemory> {
    for table in tables {
        add_keys(alloc, table, length, prefixes, found)?;
    }
    Ok(())
}

/// Adds a table's keys of `length` columns.
fn add_keys(
    alloc: Global,
    table: &Table,
    length: usize,
    prefixes: &[String],
    found: &mut Vec<String>,
) -> Result<(), OutOfMemory> {
    for key in &table.keys {
        if key.columns.len() == length {
            let names = names_at(alloc, table, &key.columns)?;
            add_named(alloc, &names, prefixes, found)?;
        }
    }
    Ok(())
}

/// Adds the columns of a table's keys, one by one.
fn add_parts(
    alloc: Global,
    table: &Table,
    prefixes: &[String],
    found: &mut Vec<String>,
) -> Result<(), OutOfMemory> {
    for key in &table.keys {
        for number in &key.columns {
            let names = names_at(alloc, table, &[*number])?;
            add_named(alloc, &names, prefixes, found)?;
        }
    }
    Ok(())
}

/// Adds a table's columns, one by one.
fn add_columns(
    alloc: Global,
    table: &Table,
    prefixes: &[String],
    found: &mut Vec<String>,
) -> Result<(), OutOfMemory> {
    for column in &table.columns {
        add_named(alloc, &[column.name.as_str()], prefixes, found)?;
    }
    Ok(())
}

/// The names of a table's columns with these numbers.
fn names_at<'a>(
    alloc: Global,
    table: &'a Table,
    numbers: &[u16],
) -> Result<Vec<&'a str>, OutOfMemory> {
    let mut names = Vec::with_capacity(alloc, numbers.len())?;
    for number in numbers {
        if let Some(column) = table.columns.get(usize::from(*number)) {
            names.push(column.name.as_str())?;
        }
    }
    Ok(names)
}

/// Adds the columns of these names, with each prefix.
fn add_named(
    alloc: Global,
    names: &[&str],
    prefixes: &[String],
    found: &mut Vec<String>,
) -> Result<(), OutOfMemory> {
    for prefix in prefixes {
        let list = list_columns(alloc, names, prefix.as_str())?;
        add_new(list, found)?;
    }
    Ok(())
}

/// The columns of these names, with a prefix, as a list.
fn list_columns(alloc: Global, names: &[&str], prefix: &str) -> Result<String, OutOfMemory> {
    let mut list = String::new(alloc);
    for name in names {
        if !list.is_empty() {
            list.push_str(", ")?;
        }
        list.push_str(prefix)?;
        let name = write_name(alloc, name)?;
        list.push_str(name.as_str())?;
    }
    Ok(list)
}

/// Adds the names that the query gives by AS.
fn add_aliases(
    alloc: Global,
    tokens: &[Token],
    found: &mut Vec<String>,
) -> Result<(), OutOfMemory> {
    for number in 1..tokens.len() {
        if let TokenKind::Terminal(Terminal::As) = &tokens[number - 1].kind {
            if let Some(name) = name_of(&tokens[number]) {
                let name = write_name(alloc, name)?;
                add_new(name, found)?;
            }
        }
    }
    Ok(())
}

/// Adds the pairs of the first `keys` lists that were found.
fn add_pairs(alloc: Global, keys: usize, found: &mut Vec<String>) -> Result<(), OutOfMemory> {
    let mut pairs = Vec::new(alloc);
    for (number, first) in found.iter().take(keys).enumerate() {
        for second in found.iter().take(keys).skip(number) {
            if second.as_str() != first.as_str() {
                pairs.push(format!(in alloc; "{first}, {second}")?)?;
            }
        }
    }
    for pair in pairs {
        add_new(pair, found)?;
    }
    Ok(())
}
