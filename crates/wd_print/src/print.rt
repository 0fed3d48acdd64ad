//! Prints a token at the end of a text. A token is printed into a text of its own and then appended, so that the text stays as it was
//! where memory runs out.

ghost use Rattle.std.specs.Prelude.{◌≡◌, ◌<◌, ◌++◌, OnErr, OnOk};
ghost use Rattle.std.specs.String.{string_bytes};
ghost use Rattle.wd_lex.specs.declared.token.TokenKind.{TokenKind};
ghost use Rattle.wd_lex.specs.Pieces.{doubled};
ghost use Rattle.wd_print.specs.Printed.{printed_token};

use crate::terminals::{gap, letters};
use std::alloc::AllocError;
use std::fmt::Write;
use wd_lex::Terminal;

/// Prints a reserved word or a symbol.
pub fn push_terminal(text: &mut String, terminal: Terminal) -> Result<(), AllocError>
    ensures printed { OnOk result (string_bytes text.new ≡ string_bytes text.old ++ printed_token (TokenKind.Terminal terminal)) }
    ensures kept { OnErr result (string_bytes text.new ≡ string_bytes text.old) }
{
    let mut token = String::new(*text.allocator());
    add_terminal(&mut token, terminal)?;
    text.push_str(token.as_str())
}

/// Adds a reserved word or a symbol to the text of a token.
fn add_terminal(text: &mut String, terminal: Terminal) -> Result<(), AllocError>
    ensures { OnOk result (string_bytes text.new ≡ string_bytes text.old ++ printed_token (TokenKind.Terminal terminal)) }
{
    text.push_str(letters(terminal))?;
    text.push(gap(terminal))?;
    Ok(())
}

/// Prints a word that is not reserved.
pub fn push_word(text: &mut String, word: &str) -> Result<(), AllocError>
    ensures printed { OnOk result (string_bytes text.new ≡ string_bytes text.old ++ printed_token (TokenKind.Word word.now)) }
    ensures kept { OnErr result (string_bytes text.new ≡ string_bytes text.old) }
{
    let mut token = String::new(*text.allocator());
    add_word(&mut token, word)?;
    text.push_str(token.as_str())
}

/// Adds a word to the text of a token.
fn add_word(text: &mut String, word: &str) -> Result<(), AllocError>
    ensures { OnOk result (string_bytes text.new ≡ string_bytes text.old ++ printed_token (TokenKind.Word word.now)) }
{
    text.push_str(word)?;
    text.push(' ')
}

/// Prints a name in quotes.
pub fn push_name(text: &mut String, name: &str) -> Result<(), AllocError>
    ensures printed { OnOk result (string_bytes text.new ≡ string_bytes text.old ++ printed_token (TokenKind.Quoted name.now)) }
    ensures kept { OnErr result (string_bytes text.new ≡ string_bytes text.old) }
{
    let mut token = String::new(*text.allocator());
    add_name(&mut token, name)?;
    text.push_str(token.as_str())
}

/// Adds a name in quotes to the text of a token.
fn add_name(text: &mut String, name: &str) -> Result<(), AllocError>
    ensures { OnOk result (string_bytes text.new ≡ string_bytes text.old ++ printed_token (TokenKind.Quoted name.now)) }
{
    text.push('"')?;
    push_doubled(text, '"', name)?;
    text.push_str("\" ")
}

/// Prints a text in single quotes.
pub fn push_literal(text: &mut String, literal: &str) -> Result<(), AllocError>
    ensures printed { OnOk result (string_bytes text.new ≡ string_bytes text.old ++ printed_token (TokenKind.Literal literal.now)) }
    ensures kept { OnErr result (string_bytes text.new ≡ string_bytes text.old) }
{
    let mut token = String::new(*text.allocator());
    add_literal(&mut token, literal)?;
    text.push_str(token.as_str())
}

/// Adds a text in single quotes to the text of a token.
fn add_literal(text: &mut String, literal: &str) -> Result<(), AllocError>
    ensures { OnOk result (string_bytes text.new ≡ string_bytes text.old ++ printed_token (TokenKind.Literal literal.now)) }
{
    text.push('\'')?;
    push_doubled(text, '\'', literal)?;
    text.push_str("' ")
}

/// Prints a number, in decimal digits.
pub fn push_number(text: &mut String, number: u64) -> Result<(), AllocError>
    ensures printed { OnOk result (string_bytes text.new ≡ string_bytes text.old ++ printed_token (TokenKind.Number number)) }
    ensures kept { OnErr result (string_bytes text.new ≡ string_bytes text.old) }
{
    let mut token = String::new(*text.allocator());
    add_number(&mut token, number)?;
    text.push_str(token.as_str())
}

/// Adds a number to the text of a token.
fn add_number(text: &mut String, number: u64) -> Result<(), AllocError>
    ensures { OnOk result (string_bytes text.new ≡ string_bytes text.old ++ printed_token (TokenKind.Number number)) }
{
    write!(text, "{number}")?;
    text.push(' ')
}

/// Adds the text between quotes, with each quote in it doubled.
fn push_doubled(text: &mut String, quote: char, inside: &str) -> Result<(), AllocError>
    requires { quote < 128 }
    ensures { OnOk result (string_bytes text.new ≡ string_bytes text.old ++ doubled quote inside.now) }
{
    let mut rest = inside;
    while let Some((before, after)) = rest.split_once(quote) {
        text.push_str(before)?;
        text.push(quote)?;
        text.push(quote)?;
        rest = after;
    }
    text.push_str(rest)?;
    Ok(())
}
