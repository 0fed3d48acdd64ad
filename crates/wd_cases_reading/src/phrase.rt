//! What the calls of wd_read_cursor give at the front of a text's tokens, and how many tokens are left
//! after it.
use std::alloc::Global;
use wd_cases::Failure;
use wd_lex::{Terminal, Token, TokenKind};
use wd_read_cursor::{Name, Refusal, eat, eat_name, expect, name_at};

fn show_refusal(alloc: Global, refusal: Refusal) -> Result<String, Failure> {
    Ok(match refusal {
        Refusal::Unexpected { left } => format!(in alloc; "unexpected, {left} left")?,
        Refusal::PastLimit { left } => format!(in alloc; "past a limit, {left} left")?,
        Refusal::OutOfMemory => String::from_str(alloc, "out of memory")?,
    })
}

fn none(alloc: Global) -> Result<String, Failure> {
    Ok(String::from_str(alloc, "none")?)
}

fn show_rest(alloc: Global, rest: &[Token]) -> Result<String, Failure> {
    let count = rest.len();
    Ok(format!(in alloc; "{count} left")?)
}

/// A name, in double quotes where it is quoted.
fn show_name(alloc: Global, name: &Name, rest: &[Token]) -> Result<String, Failure> {
    let text = name.text.as_str();
    let quote = if name.quoted { "\"" } else { "" };
    let count = rest.len();
    Ok(format!(in alloc; "{quote}{text}{quote}, {count} left")?)
}

/// The terminal that stands first, and the tokens after it.
fn first_terminal(tokens: &[Token]) -> Result<(Terminal, &[Token]), Failure> {
    match tokens.split_first() {
        Some(
            (
                Token {
                    kind: TokenKind::Terminal(terminal),
                    ..
                },
                rest,
            ),
        ) => Ok((*terminal, rest)),
        _ => Err(Failure::NoCase),
    }
}

/// `eat TERMINAL TEXT`
pub fn eat_case(alloc: Global, tokens: &[Token]) -> Result<String, Failure> {
    let (terminal, tokens) = first_terminal(tokens)?;
    match eat(tokens, terminal) {
        Some(rest) => show_rest(alloc, rest),
        None => none(alloc),
    }
}

/// `expect TERMINAL TEXT`
pub fn expect_case(alloc: Global, tokens: &[Token]) -> Result<String, Failure> {
    let (terminal, tokens) = first_terminal(tokens)?;
    match expect(tokens, terminal) {
        Ok(rest) => show_rest(alloc, rest),
        Err(refusal) => show_refusal(alloc, refusal),
    }
}

/// `eat_name TEXT`
pub fn eaten_name(alloc: Global, tokens: &[Token]) -> Result<String, Failure> {
    match eat_name(alloc, tokens) {
        Ok(Some((name, rest))) => show_name(alloc, &name, rest),
        Ok(None) => none(alloc),
        Err(refusal) => show_refusal(alloc, refusal),
    }
}

/// `name_at TEXT`
pub fn name(alloc: Global, tokens: &[Token]) -> Result<String, Failure> {
    match name_at(alloc, tokens) {
        Ok((name, rest)) => show_name(alloc, &name, rest),
        Err(refusal) => show_refusal(alloc, refusal),
    }
}
