//! What a line comment says to `wdreport`.

ghost use Rattle.std.specs.Prelude.{◌≡◌, option_map};
ghost use Rattle.wd_lex.specs.Characters as characters;
ghost use Rattle.wd_lex.specs.Reading.{drop_while};
ghost use Rattle.wd_excuse.specs.Lines as spec;

use crate::gap::{blanks, is_blank};

/// What follows the white space at the front.
fn skip_blanks(bytes: &[u8]) -> &[u8]
    ensures { result.now ≡ drop_while characters.is_blank bytes.now }
{
    &bytes[blanks(bytes)..]
}

/// The bytes without white space at their start and end.
fn trim(bytes: &[u8]) -> &[u8]
    ensures { result.now ≡ spec.trimmed bytes.now }
{
    skip_blanks(bytes).trim_ascii_end()
}

/// What follows a word at the start, in upper or lower case, after any white space.
fn following<'t>(bytes: &'t [u8], word: &[u8]) -> Option<&'t [u8]>
    ensures { option_map (λ x. x.now) result ≡ spec.following word.now bytes.now }
{
    let rest = skip_blanks(bytes);
    if rest.len() < word.len() {
        return None;
    }
    let (front, rest) = rest.split_at(word.len());
    if front.eq_ignore_ascii_case(word) {
        Some(rest)
    } else {
        None
    }
}

/// The bytes, if they begin with white space.
fn expect_blank(bytes: &[u8]) -> Option<&[u8]>
    ensures { option_map (λ x. x.now) result ≡ spec.spaced bytes.now }
{
    match bytes {
        [first, ..] if is_blank(*first) => Some(bytes),
        _ => None,
    }
}

/// What a line comment says to the program, by what follows its `--`; `None` where it is not meant for the program.
pub(crate) fn words_to_program(line: &[u8]) -> Option<&[u8]>
    ensures { option_map (λ x. x.now) result ≡ spec.words_to_program line.now }
{
    following(following(line, b"wdreport")?, b":")
}

/// What follows `may depend` and a comma, if the words begin with these.
fn after_may_depend(words: &[u8]) -> Option<&[u8]>
    ensures { option_map (λ x. x.now) result ≡ spec.after_may_depend words.now }
{
    let may = expect_blank(following(words, b"may")?)?;
    following(following(may, b"depend")?, b",")
}

/// The reason for which words to the program excuse a query; `None` where they are no excuse, or give no reason.
pub(crate) fn reason_in(words: &[u8]) -> Option<&[u8]>
    ensures { option_map (λ x. x.now) result ≡ spec.reason_in words.now }
{
    let reason = trim(after_may_depend(words)?);
    if reason.is_empty() {
        None
    } else {
        Some(reason)
    }
}
