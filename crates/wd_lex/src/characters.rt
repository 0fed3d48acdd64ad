//! Classes of characters, and the longest front of one class.

ghost use Rattle.std.specs.Prelude.{◌≡◌, ◌≤◌, length};
ghost use Rattle.std.specs.List.{prefix_len, take_while};
ghost use Rattle.wd_lex.specs.Characters as spec;
ghost use Rattle.wd_lex.specs.Reading.{is_in, drop_while};

/// What a run of characters is made of.
#[derive(Clone, Copy)]
pub enum Class {
    /// White space.
    Blank,
    /// All bytes but the ends of lines.
    Line,
    /// What a word may continue with.
    Word,
    Digit,
}

pub fn is_blank(b: u8) -> bool
    ensures { result ≡ spec.is_blank b }
{
    matches!(b, b'\t' | b'\n' | 0x0C | b'\r' | b' ')
}

pub fn begins_word(b: u8) -> bool
    ensures { result ≡ spec.begins_word b }
{
    b.is_ascii_alphabetic() || b == b'_'
}

pub fn spoils_number(b: u8) -> bool
    ensures { result ≡ spec.spoils_number b }
{
    b.is_ascii_alphabetic() || b == b'_' || b == b'.'
}

fn is_in(class: Class, b: u8) -> bool
    ensures { result ≡ is_in class b }
{
    match class {
        Class::Blank => is_blank(b),
        Class::Line => b != b'\n' && b != b'\r',
        Class::Word => b.is_ascii_alphanumeric() || b == b'_' || b == b'$',
        Class::Digit => b.is_ascii_digit(),
    }
}

fn run_len(class: Class, bytes: &[u8]) -> usize
    ensures value { result ≡ prefix_len (is_in class) bytes.now }
    ensures within { result ≤ length bytes.now }
{
    let mut len = 0;
    while len < bytes.len() && is_in(class, bytes[len]) {
        len += 1;
    }
    len
}

/// The longest front of the class, and what follows it.
pub fn split_run(class: Class, text: &str) -> (&str, &str)
    ensures front { result.0.now ≡ take_while (is_in class) text.now }
    ensures back { result.1.now ≡ drop_while (is_in class) text.now }
{
    let len = run_len(class, text.as_bytes());
    text.split_at(len)
}
