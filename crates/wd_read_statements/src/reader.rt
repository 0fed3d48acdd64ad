//! Reads tokens as schemas.

ghost use Rattle.std.specs.Prelude.{◌≡◌, map, None, IfOk, IfSome};
ghost use Rattle.wd_lex.specs.Lexed.{kinds_of};
ghost use Rattle.wd_read_cursor.specs.Cursor.{list_at, name_at};
ghost use Rattle.wd_read_cursor.specs.Given.{Gives};
ghost use Rattle.wd_read_statements.specs.Grammar.{AreStatements, IsSchema, IsUnexpected, spell_schema};
ghost use Rattle.wd_read_statements.specs.Reading.{begins_key, column_at, column_rule_at, constraint_at, element_at, ends_column, key_at, nulls_at, rule_at, rules_at, statement_at, stop_at, table_at, words_at};
ghost use Rattle.wd_read_statements.specs.Written.{column_tree, key_tree, schema_tree, table_tree};

use crate::syntax::{
    ColumnRule, Element, KeyWords, Nulls, Rule, WrittenColumn, WrittenKey, WrittenTable,
};
use std::alloc::Global;
use wd_lex::{Terminal, Token};
use wd_read_cursor::{
    KeyWord, Name, Reader, Refusal, eat, eat_word, expect, expect_word, list_at, name_at,
    token_place,
};
use wd_value::OutOfMemory;

/// `[NULLS [NOT] DISTINCT]`
#[tactic(auto, unfolding(crate::specs::Reading::nulls_at))]
fn read_nulls(tokens: &[Token]) -> Result<(Nulls, &[Token]), Refusal>
    ensures { Gives (λ x. (x.0, kinds_of x.1.now)) result (nulls_at (kinds_of tokens.now)) }
{
    let Some(rest) = eat_word(tokens, KeyWord::Nulls) else {
        return Ok((Nulls::Unsaid, tokens));
    };
    match eat(rest, Terminal::Not) {
        Some(rest) => Ok((Nulls::NotDistinct, expect(rest, Terminal::Distinct)?)),
        None => Ok((Nulls::Distinct, expect(rest, Terminal::Distinct)?)),
    }
}

/// The words of a key: PRIMARY KEY, or UNIQUE with its words about NULLs.
#[tactic(auto, unfolding(crate::specs::Reading::words_at))]
fn read_words(tokens: &[Token]) -> Result<(KeyWords, &[Token]), Refusal>
    ensures { Gives (λ x. (x.0, kinds_of x.1.now)) result (words_at (kinds_of tokens.now)) }
{
    match eat(tokens, Terminal::Primary) {
        Some(rest) => Ok((KeyWords::Primary, expect_word(rest, KeyWord::Key)?)),
        None => {
            let rest = expect(tokens, Terminal::Unique)?;
            let (nulls, rest) = read_nulls(rest)?;
            Ok((KeyWords::Unique(nulls), rest))
        }
    }
}

/// A rule for a column: NOT NULL, NULL or the words of a key.
#[tactic(auto, unfolding(crate::specs::Reading::rule_at))]
fn read_rule(tokens: &[Token]) -> Result<(Rule, &[Token]), Refusal>
    ensures { Gives (λ x. (x.0, kinds_of x.1.now)) result (rule_at (kinds_of tokens.now)) }
{
    if let Some(rest) = eat(tokens, Terminal::Not) {
        return Ok((Rule::NotNull, expect(rest, Terminal::Null)?));
    }
    if let Some(rest) = eat(tokens, Terminal::Null) {
        return Ok((Rule::Null, rest));
    }
    let (words, rest) = read_words(tokens)?;
    Ok((Rule::Key(words), rest))
}

/// `[CONSTRAINT name]`
#[tactic(auto, unfolding(crate::specs::Reading::constraint_at))]
fn read_constraint(alloc: Global, tokens: &[Token]) -> Result<(Option<Name>, &[Token]), Refusal>
    ensures { Gives (λ x. (x.0, kinds_of x.1.now)) result (constraint_at (kinds_of tokens.now)) }
{
    match eat(tokens, Terminal::Constraint) {
        Some(rest) => {
            let (name, rest) = name_at(alloc, rest)?;
            Ok((Some(name), rest))
        }
        None => Ok((None, tokens)),
    }
}

#[tactic(auto, unfolding(crate::specs::Reading::column_rule_at))]
fn read_column_rule(alloc: Global, tokens: &[Token]) -> Result<(ColumnRule, &[Token]), Refusal>
    ensures { Gives (λ x. (x.0, kinds_of x.1.now)) result (column_rule_at (kinds_of tokens.now)) }
{
    let (constraint, rest) = read_constraint(alloc, tokens)?;
    let (rule, rest) = read_rule(rest)?;
    Ok((ColumnRule { constraint, rule }, rest))
}

/// Whether a column's declaration ends: the tokens begin with a comma or a closing bracket.
#[tactic(auto, unfolding(crate::specs::Reading::ends_column))]
fn ends_column(tokens: &[Token]) -> bool
    ensures { result ≡ ends_column (kinds_of tokens.now) }
{
    eat(tokens, Terminal::Comma).is_some() || eat(tokens, Terminal::RightBracket).is_some()
}

/// The rules of a column, up to the comma or bracket that ends it.
#[tactic(auto, unfolding(crate::specs::Reading::rules_at))]
fn read_rules(alloc: Global, tokens: &[Token]) -> Result<(Vec<ColumnRule>, &[Token]), Refusal>
    ensures { Gives (λ x. (x.0.items, kinds_of x.1.now)) result (rules_at (kinds_of tokens.now)) }
{
    let mut rules = Vec::new(alloc);
    let mut rest = tokens;
    for _ in 0..tokens.len() {
        if ends_column(rest) {
            break;
        }
        let (rule, after) = read_column_rule(alloc, rest)?;
        rules.push(rule)?;
        rest = after;
    }
    Ok((rules, rest))
}

/// Reads the names of a key's columns.
struct Names;

impl Reader for Names {
    ghost use Rattle.wd_read_cursor.specs.declared.name.Name.{Name as NameTree};

    type Item = Name;

    ghost Tree = { NameTree };

    ghost tree = { λ name. name };

    ghost item = { λ names. name_at };

    fn read<'t>(&self, alloc: Global, tokens: &'t [Token]) -> Result<(Name, &'t [Token]), Refusal> {
        name_at(alloc, tokens)
    }
}

#[tactic(auto, unfolding(crate::specs::Reading::column_at))]
fn read_column(alloc: Global, tokens: &[Token]) -> Result<(WrittenColumn, &[Token]), Refusal>
    ensures { Gives (λ x. (column_tree x.0, kinds_of x.1.now)) result (column_at (kinds_of tokens.now)) }
{
    let (name, rest) = name_at(alloc, tokens)?;
    let (kind, rest) = name_at(alloc, rest)?;
    let (rules, rest) = read_rules(alloc, rest)?;
    Ok((WrittenColumn { name, kind, rules }, rest))
}

#[tactic(auto, unfolding(crate::specs::Reading::key_at))]
fn read_key(alloc: Global, tokens: &[Token]) -> Result<(WrittenKey, &[Token]), Refusal>
    ensures { Gives (λ x. (key_tree x.0, kinds_of x.1.now)) result (key_at (kinds_of tokens.now)) }
{
    let (constraint, rest) = read_constraint(alloc, tokens)?;
    let (words, rest) = read_words(rest)?;
    let rest = expect(rest, Terminal::LeftBracket)?;
    let (columns, rest) = list_at(alloc, &Names, Terminal::Comma, rest)?;
    let rest = expect(rest, Terminal::RightBracket)?;
    let key = WrittenKey {
        constraint,
        words,
        columns,
    };
    Ok((key, rest))
}

/// Whether the tokens begin a key that is an element of its own.
#[tactic(auto, unfolding(crate::specs::Reading::begins_key))]
fn begins_key(tokens: &[Token]) -> bool
    ensures { result ≡ begins_key (kinds_of tokens.now) }
{
    eat(tokens, Terminal::Constraint).is_some()
        || eat(tokens, Terminal::Primary).is_some()
        || eat(tokens, Terminal::Unique).is_some()
}

/// Reads the columns and keys of a table.
struct Elements;

impl Reader for Elements {
    ghost use Rattle.wd_read_statements.specs.Written.{ElementTree, element_tree};

    type Item = Element;

    ghost Tree = { ElementTree };

    ghost tree = { element_tree };

    ghost item = { λ elements. element_at };

    #[tactic(auto, unfolding(crate::specs::Reading::element_at))]
    fn read<'t>(
        &self,
        alloc: Global,
        tokens: &'t [Token],
    ) -> Result<(Element, &'t [Token]), Refusal> {
        if begins_key(tokens) {
            let (key, rest) = read_key(alloc, tokens)?;
            Ok((Element::Key(key), rest))
        } else {
            let (column, rest) = read_column(alloc, tokens)?;
            Ok((Element::Column(column), rest))
        }
    }
}

/// The declaration of a table.
#[tactic(auto, unfolding(crate::specs::Reading::table_at))]
fn read_table(alloc: Global, tokens: &[Token]) -> Result<(WrittenTable, &[Token]), Refusal>
    ensures { Gives (λ x. (table_tree x.0, kinds_of x.1.now)) result (table_at (kinds_of tokens.now)) }
{
    let rest = expect(tokens, Terminal::Create)?;
    let rest = expect(rest, Terminal::Table)?;
    let (name, rest) = name_at(alloc, rest)?;
    let rest = expect(rest, Terminal::LeftBracket)?;
    let (elements, rest) = list_at(alloc, &Elements, Terminal::Comma, rest)?;
    let rest = expect(rest, Terminal::RightBracket)?;
    Ok((WrittenTable { name, elements }, rest))
}

/// A table's declaration, and whether a semicolon comes after it.
#[derive(Drop)]
struct Statement {
    table: WrittenTable,
    semicolon: bool,
}

/// A statement up to and including its semicolon, or up to the end of the tokens.
#[tactic(auto, unfolding(crate::specs::Reading::statement_at))]
fn read_statement(alloc: Global, tokens: &[Token]) -> Result<(Statement, &[Token]), Refusal>
    ensures { Gives (λ x. ((table_tree x.0.table, x.0.semicolon), kinds_of x.1.now)) result (statement_at (kinds_of tokens.now)) }
{
    let (table, rest) = read_table(alloc, tokens)?;
    let (semicolon, rest) = read_stop(rest)?;
    Ok((Statement { table, semicolon }, rest))
}

/// The semicolon after a statement, or the end of the tokens.
#[tactic(auto, unfolding(crate::specs::Reading::stop_at))]
fn read_stop(tokens: &[Token]) -> Result<(bool, &[Token]), Refusal>
    ensures { Gives (λ x. (x.0, kinds_of x.1.now)) result (stop_at (kinds_of tokens.now)) }
{
    if tokens.is_empty() {
        return Ok((false, tokens));
    }
    let rest = expect(tokens, Terminal::Semicolon)?;
    Ok((true, rest))
}

/// The tables that tokens declare.
#[derive(Drop)]
pub struct Statements {
    pub tables: Vec<WrittenTable>,
    /// Whether a semicolon comes after the last.
    pub ended: bool,
    /// The number of the token after the tables where no schema continues, if there is one.
    pub unexpected: Option<u64>,
}

/// All statements of a schema that the tokens begin with, up to the first that cannot be read.
pub fn read_statements(alloc: Global, tokens: &[Token]) -> Result<Statements, OutOfMemory>
    ensures statements { IfOk result (λ s. AreStatements (kinds_of tokens.now) (map table_tree s.tables.items)) }
    ensures schema { IfOk result (λ s. s.unexpected ≡ None → IsSchema (schema_tree s.tables.items s.ended)) }
    ensures spelled { IfOk result (λ s. s.unexpected ≡ None → kinds_of tokens.now ≡ spell_schema (schema_tree s.tables.items s.ended)) }
    ensures unexpected { IfOk result (λ s. IfSome s.unexpected (IsUnexpected (kinds_of tokens.now))) }
{
    let mut tables = Vec::new(alloc);
    let mut ended = false;
    let mut rest = tokens;
    while !rest.is_empty() {
        match read_statement(alloc, rest) {
            Ok((statement, after)) => {
                let Statement { table, semicolon } = statement;
                tables.push(table)?;
                ended = semicolon;
                rest = after;
            }
            Err(refusal) => {
                let Some(left) = refusal.left() else {
                    return Err(OutOfMemory);
                };
                let unexpected = Some(token_place(tokens, left));
                return Ok(Statements {
                    tables,
                    ended,
                    unexpected,
                });
            }
        }
    }
    Ok(Statements {
        tables,
        ended,
        unexpected: None,
    })
}
