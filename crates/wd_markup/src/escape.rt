//! Texts as they appear in HTML.

ghost use Rattle.std.specs.Prelude.{◌≡◌, ◌++◌, ◌<◌, [], ◌∷◌, IfOk, OnOk, string_bytes};
ghost use Rattle.wd_markup.specs.Escapes as spec;

use std::alloc::{AllocError, Global};

/// A text, escaped.
pub(crate) fn escape_text(alloc: Global, text: &[u8]) -> Result<String, AllocError>
    ensures { IfOk result (λ s. string_bytes s ≡ spec.escaped text.now) }
{
    let lossy = String::from_utf8_lossy(alloc, text)?;
    escape_chars(alloc, lossy.as_str())
}

/// The characters of a text, escaped.
fn escape_chars(alloc: Global, text: &str) -> Result<String, AllocError>
    ensures { IfOk result (λ s. string_bytes s ≡ spec.escaped_chars text.now) }
{
    let mut more = String::new(alloc);
    for c in text.chars() {
        push_escaped(&mut more, c)?;
    }
    Ok(more)
}

/// Appends a character, escaped.
fn push_escaped(text: &mut String, c: char) -> Result<(), AllocError>
    ensures { OnOk result (string_bytes text.new ≡ string_bytes text.old ++ spec.escaped_char c) }
{
    match c {
        '&' => text.push_str("&amp;"),
        '<' => text.push_str("&lt;"),
        '>' => text.push_str("&gt;"),
        '"' => text.push_str("&quot;"),
        '\'' => text.push_str("&#39;"),
        '\r' => text.push_str(" "),
        _ => push_seen(text, c),
    }
}

/// Appends a character, or its name where it is invisible.
fn push_seen(text: &mut String, c: char) -> Result<(), AllocError>
    ensures { OnOk result (string_bytes text.new ≡ string_bytes text.old ++ spec.seen c) }
{
    let code = c as u32;
    if is_control(code) || is_unseen(code) {
        push_name(text, code)
    } else {
        text.push(c)
    }
}

/// Whether this is a control character other than a tab, a line feed or a return.
fn is_control(code: u32) -> bool
    ensures { result ≡ spec.is_control code }
{
    (code < 32 && code != 9 && code != 10 && code != 13) || is_within(0x7F, 0x9F, code)
}

/// Whether this character is invisible or changes the direction of a text.
fn is_unseen(code: u32) -> bool
    ensures { result ≡ spec.is_unseen code }
{
    code == 0xAD
        || code == 0x61C
        || code == 0x180E
        || code == 0x200B
        || is_within(0x200E, 0x200F, code)
        || is_within(0x2028, 0x202E, code)
        || is_within(0x2060, 0x206F, code)
        || code == 0xFEFF
        || is_within(0xFFF9, 0xFFFB, code)
}

/// Whether a character is in a range, both ends included.
fn is_within(first: u32, last: u32, code: u32) -> bool
    ensures { result ≡ spec.is_within first last code }
{
    first <= code && code <= last
}

/// Appends the name of a character, by its number of four digits.
fn push_name(text: &mut String, code: u32) -> Result<(), AllocError>
    ensures { OnOk result (string_bytes text.new ≡ string_bytes text.old ++ spec.named code) }
{
    text.push_str("&#10214;U+")?;
    push_digit(text, code / 4096 % 16)?;
    push_digit(text, code / 256 % 16)?;
    push_digit(text, code / 16 % 16)?;
    push_digit(text, code % 16)?;
    text.push_str("&#10215;")?;
    Ok(())
}

/// Appends a digit of a number to the base of 16.
fn push_digit(text: &mut String, digit: u32) -> Result<(), AllocError>
    requires { digit < 16 }
    ensures { OnOk result (string_bytes text.new ≡ string_bytes text.old ++ spec.hex_digit digit ∷ []) }
{
    text.push(hex_digit(digit))
}

/// A digit of a number to the base of 16.
fn hex_digit(digit: u32) -> char
    requires { digit < 16 }
    ensures value { result ≡ spec.hex_digit digit }
    ensures ascii { result < 128 }
{
    let code = if digit < 10 { 48 + digit } else { 55 + digit };
    code as u8 as char
}
