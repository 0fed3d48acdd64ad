use std::alloc::{AllocError, Global};
use wd_cases::Failure;
use wd_lex::Token;
use wd_parse::{Alias, Expr, Item, Link, Literal, Quantifier, Query, Window, parse};

/// `query TEXT`: whether it is read, or why not.
pub fn query(alloc: Global, tokens: &[Token]) -> Result<String, Failure> {
    match parse(alloc, tokens).err() {
        None => Ok(String::from_str(alloc, "read")?),
        Some(error) => Failure::from(error).explained(alloc, &error),
    }
}

/// `items TEXT`: the trees of a query's select list, each chain of operators or of tests in square
/// brackets.
pub fn items(alloc: Global, tokens: &[Token]) -> Result<String, Failure> {
    let query = parse(alloc, tokens)?;
    items_shown(alloc, &query)
}

fn items_shown(alloc: Global, query: &Query) -> Result<String, Failure> {
    let mut out = String::new(alloc);
    push_items(&mut out, query)?;
    Ok(out)
}

fn push_items(out: &mut String, query: &Query) -> Result<(), AllocError> {
    out.push_str(match query.select.quantifier {
        None => "",
        Some(Quantifier::All) => "ALL ",
        Some(Quantifier::Distinct) => "DISTINCT ",
    })?;
    for (place, item) in query.select.items.iter().enumerate() {
        out.push_str(if place > 0 { ", " } else { "" })?;
        push_item(out, item)?;
    }
    out.push_str(if query.semicolon { ";" } else { "" })
}

fn push_item(out: &mut String, item: &Item) -> Result<(), AllocError> {
    match item {
        Item::All => out.push('*'),
        Item::AllOf(table) => {
            let table = table.text.as_str();
            write!(out, "{table}.*")
        }
        Item::Expr(tree, alias) => {
            push_expression(tree, out)?;
            push_alias(out, alias)
        }
    }
}

fn push_alias(out: &mut String, alias: &Option<Alias>) -> Result<(), AllocError> {
    let Some(alias) = alias else {
        return Ok(());
    };
    let word = if alias.with_as { " AS" } else { "" };
    let quote = if alias.name.quoted { "\"" } else { "" };
    let name = alias.name.text.as_str();
    write!(out, "{word} {quote}{name}{quote}")
}

/// Chains, tests, brackets, numbers and columns; of another expression that it is one.
fn push_expression(tree: &Expr, out: &mut String) -> Result<(), AllocError> {
    match tree {
        Expr::Literal(Literal::Number(number)) => write!(out, "{number}"),
        Expr::Column(name) => out.push_str(name.text.as_str()),
        Expr::Bracket(inside) => {
            out.push('(')?;
            push_expression(inside, out)?;
            out.push(')')
        }
        Expr::Chain(first, before, last) => {
            out.push('[')?;
            push_expression(first, out)?;
            for Link { operator, operand } in before {
                write!(out, " {operator:?} ")?;
                push_expression(operand, out)?;
            }
            write!(out, " {:?} ", last.operator)?;
            push_expression(&last.operand, out)?;
            out.push(']')
        }
        Expr::Tests(operand, before, last) => {
            out.push('[')?;
            push_expression(operand, out)?;
            push_tests(out, before)?;
            push_tests(out, &[*last])?;
            out.push(']')
        }
        _ => out.push_str("other"),
    }
}

fn push_tests(out: &mut String, nots: &[bool]) -> Result<(), AllocError> {
    for not in nots {
        out.push_str(if *not { " IS NOT NULL" } else { " IS NULL" })?;
    }
    Ok(())
}

/// `window QUERY`: the directions and places of NULLs of its named windows, and their frames.
pub fn window(alloc: Global, tokens: &[Token]) -> Result<String, Failure> {
    let query = parse(alloc, tokens)?;
    window_shown(alloc, &query)
}

fn window_shown(alloc: Global, query: &Query) -> Result<String, Failure> {
    let mut out = String::new(alloc);
    for named in &query.select.windows {
        push_window(&mut out, &named.window)?;
    }
    Ok(out)
}

fn push_window(out: &mut String, window: &Window) -> Result<(), AllocError> {
    for key in &window.order {
        let direction = key.direction;
        let nulls = key.nulls;
        write!(out, "{direction:?} {nulls:?} ")?;
    }
    let frame = window.frame;
    write!(out, "{frame:?}")
}

/// `limits QUERY`: its offset and count.
pub fn limits(alloc: Global, tokens: &[Token]) -> Result<String, Failure> {
    let query = parse(alloc, tokens)?;
    limits_shown(alloc, &query)
}

fn limits_shown(alloc: Global, query: &Query) -> Result<String, Failure> {
    let limits = query.select.limits;
    Ok(format!(in alloc; "{limits:?}")?)
}
