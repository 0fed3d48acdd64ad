//! Classes of characters.

ghost use Rattle.std.specs.Prelude.{◌≡◌};
ghost use Rattle.wd_lex.specs.Characters as spec;
ghost use Rattle.wd_dialect_text.specs.Masked as mask;

/// Whether an unquoted word begins with this byte.
pub fn begins_word(byte: u8) -> bool
    ensures { result ≡ spec.begins_word byte }
{
    byte.is_ascii_alphabetic() || byte == b'_'
}

/// Whether an unquoted word may continue with this byte.
pub fn goes_on_word(byte: u8) -> bool
    ensures { result ≡ spec.goes_on_word byte }
{
    byte.is_ascii_alphanumeric() || byte == b'_' || byte == b'$'
}

/// Whether a line ends with this byte.
pub fn is_line_end(byte: u8) -> bool
    ensures { result ≡ spec.is_line_end byte }
{
    byte == b'\n' || byte == b'\r'
}

/// Whether the byte is a character of an operator that the profile does not have.
pub fn is_foreign(byte: u8) -> bool
    ensures { result ≡ mask.is_foreign byte }
{
    byte == b'!'
        || byte == b'#'
        || byte == b'&'
        || byte == b':'
        || byte == b'?'
        || byte == b'@'
        || byte == b'^'
        || byte == b'`'
        || byte == b'{'
        || byte == b'|'
        || byte == b'}'
        || byte == b'~'
}
