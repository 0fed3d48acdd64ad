//! The statements of a text.

ghost use Rattle.std.specs.Prelude.{◌≡◌, ◌≤◌, ◌++◌, [], false, length, IfOk};
ghost use Rattle.wd_lex.specs.Lexed.{AreInOrder};
ghost use Rattle.wd_source.specs.Statements.{AreStatements, StandInOrder, if_begun, statements_from};
ghost use Rattle.wd_source.specs.Statements as spec;

use std::alloc::Global;
use wd_lex::{LexError, Span, Terminal, Token, TokenKind, lex};
use wd_value::OutOfMemory;

/// The places of the statements of a text, in order: each with the semicolon that ends it, and with the white space and the comments
/// before it. White space and comments alone are no statement. Semicolons in comments and within quotes end no statement. A text without
/// tokens, because of a refusal of 101 to 107, is one statement.
pub fn statements(alloc: Global, text: &[u8]) -> Result<Vec<Span>, OutOfMemory>
    ensures are { IfOk result (λ found. AreStatements text.now found.items) }
    ensures order { IfOk result (λ found. StandInOrder 0 found.items (length text.now)) }
{
    match lex(alloc, text) {
        Ok(tokens) => statements_of(alloc, text.len() as u64, tokens.as_slice()),
        Err(LexError::OutOfMemory) => Err(OutOfMemory),
        Err(_) => Ok(vec![in alloc;
            Span {
                start: 0,
                end: text.len() as u64
            },
        ]?),
    }
}

/// Whether a token is a semicolon.
fn is_semicolon(kind: &TokenKind) -> bool
    ensures { result ≡ spec.is_semicolon kind.now }
{
    matches!(kind, TokenKind::Terminal(Terminal::Semicolon))
}

/// Adds the range between two places, if a statement has begun in it.
fn add_begun(found: &mut Vec<Span>, begun: bool, start: u64, end: u64) -> Result<(), OutOfMemory>
    requires { start ≤ end }
    ensures added { IfOk result (λ _. found.new.items ≡ found.old.items ++ if_begun begun (record { start = start; end = end }) []) }
    ensures order { IfOk result (λ _. StandInOrder 0 found.old.items start → StandInOrder 0 found.new.items end) }
{
    if begun {
        found.push(Span { start, end })?;
    }
    Ok(())
}

/// The statements of the tokens of a text that ends at a byte.
fn statements_of(alloc: Global, end: u64, tokens: &[Token]) -> Result<Vec<Span>, OutOfMemory>
    requires { AreInOrder 0 tokens.now end }
    ensures are { IfOk result (λ found. found.items ≡ statements_from end 0 false tokens.now) }
    ensures order { IfOk result (λ found. StandInOrder 0 found.items end) }
{
    let mut found = Vec::new(alloc);
    let mut start = 0;
    let mut begun = false;
    for token in tokens {
        if is_semicolon(&token.kind) {
            add_begun(&mut found, begun, start, token.span.end)?;
            start = token.span.end;
            begun = false;
        } else {
            begun = true;
        }
    }
    add_begun(&mut found, begun, start, end)?;
    Ok(found)
}
