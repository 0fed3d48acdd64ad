use std::alloc::{AllocError, Global};
use wd_cases::Failure;
use wd_lex::Token;
use wd_read_statements::{
    ColumnRule, Element, KeyWords, Name, Nulls, Rule, Statements, WrittenColumn, WrittenKey,
    WrittenTable, read_statements,
};

fn rule_word(rule: Rule) -> &'static str {
    match rule {
        Rule::NotNull => " not-null",
        Rule::Null => " null",
        Rule::Key(words) => key_words(words),
    }
}

fn key_words(words: KeyWords) -> &'static str {
    match words {
        KeyWords::Primary => " primary",
        KeyWords::Unique(Nulls::Unsaid) => " unique",
        KeyWords::Unique(Nulls::Distinct) => " distinct",
        KeyWords::Unique(Nulls::NotDistinct) => " not-distinct",
    }
}

/// A name, in double quotes where it is quoted.
fn push_name(out: &mut String, name: &Name) -> Result<(), AllocError> {
    let text = name.text.as_str();
    let quote = if name.quoted { "\"" } else { "" };
    write!(out, "{quote}{text}{quote}")
}

fn push_constraint(out: &mut String, constraint: &Option<Name>) -> Result<(), AllocError> {
    let Some(name) = constraint else {
        return Ok(());
    };
    out.push_str(" as ")?;
    push_name(out, name)
}

fn push_rule(out: &mut String, rule: &ColumnRule) -> Result<(), AllocError> {
    push_constraint(out, &rule.constraint)?;
    out.push_str(rule_word(rule.rule))
}

fn push_column(out: &mut String, column: &WrittenColumn) -> Result<(), AllocError> {
    out.push(' ')?;
    push_name(out, &column.name)?;
    out.push(' ')?;
    push_name(out, &column.kind)?;
    for rule in &column.rules {
        push_rule(out, rule)?;
    }
    Ok(())
}

fn push_key(out: &mut String, key: &WrittenKey) -> Result<(), AllocError> {
    push_constraint(out, &key.constraint)?;
    out.push_str(key_words(key.words))?;
    for column in &key.columns {
        out.push(' ')?;
        push_name(out, column)?;
    }
    Ok(())
}

fn push_table(out: &mut String, table: &WrittenTable) -> Result<(), AllocError> {
    push_name(out, &table.name)?;
    for element in &table.elements {
        out.push(',')?;
        match element {
            Element::Column(column) => push_column(out, column)?,
            Element::Key(key) => push_key(out, key)?,
        }
    }
    out.push_str("; ")
}

/// The tables with their columns and keys, and the place of the token that ends them.
fn push_statements(out: &mut String, statements: &Statements) -> Result<(), AllocError> {
    for table in &statements.tables {
        push_table(out, table)?;
    }
    out.push_str(if statements.ended { "ended" } else { "open" })?;
    match statements.unexpected {
        Some(place) => write!(out, ", stopped at {place}"),
        None => Ok(()),
    }
}

/// `statements TEXT`
pub fn statements(alloc: Global, tokens: &[Token]) -> Result<String, Failure> {
    let statements = read_statements(alloc, tokens)?;
    statements_shown(alloc, &statements)
}

fn statements_shown(alloc: Global, statements: &Statements) -> Result<String, Failure> {
    let mut out = String::new(alloc);
    push_statements(&mut out, statements)?;
    Ok(out)
}
