//! Texts that are cut after each byte, or have one byte changed, each put to a word as a case.
use std::alloc::Global;
use wd_cases::{Cases, Failure, unescape};

/// What each byte of a text is changed to: a digit, what begins a text and an object of JSON, and what is no UTF-8.
const CHANGES: [u8; 4] = [b'0', b'"', b'{', 0xFF];

/// The word that texts are put to, what stands before each of them there, and the least and the greatest number by which they may be
/// refused.
#[derive(Clone, Copy)]
struct Asked<'a> {
    word: &'a str,
    before: &'a str,
    least: u32,
    greatest: u32,
}

/// A way to alter a text.
#[derive(Clone, Copy)]
enum Alteration {
    /// The text ends before the place.
    Cut,
    /// The byte at the place is this one.
    Change(u8),
}

/// `altered LEAST GREATEST WORD [BEFORE] : TEXT`: whether each beginning of the text, and the text with each of its bytes changed, is
/// answered under the word, or refused by a number from the least to the greatest. Gives how many texts there were, or the first that
/// is not.
pub fn try_altered<C: Cases>(alloc: Global, cases: &mut C, text: &str) -> Result<String, Failure> {
    let (asked, text) = request_of(text).ok_or(Failure::NoCase)?;
    let text = unescape(alloc, text)?;
    let mut count = 0u64;
    for place in 0..text.len() {
        if let Some(found) = alter_at(alloc, cases, asked, &text, place)? {
            return Ok(found);
        }
        count = count.saturating_add(1 + CHANGES.len() as u64);
    }
    Ok(format!(in alloc; "{count} texts")?)
}

/// What is asked, and the text.
fn request_of(text: &str) -> Option<(Asked<'_>, &str)> {
    let (head, text) = text.split_once(" : ")?;
    let (least, head) = head.split_once(' ')?;
    let (greatest, head) = head.split_once(' ')?;
    let (word, before) = head.split_once(' ').unwrap_or((head, ""));
    let asked = Asked {
        word,
        before,
        least: least.parse().ok()?,
        greatest: greatest.parse().ok()?,
    };
    Some((asked, text))
}

/// The first of the texts altered at a place that is not answered as it may be, with what it gives.
fn alter_at<C: Cases>(
    alloc: Global,
    cases: &mut C,
    asked: Asked<'_>,
    text: &[u8],
    place: usize,
) -> Result<Option<String>, Failure> {
    if let Some(found) = judge(alloc, cases, asked, text, place, Alteration::Cut)? {
        return Ok(Some(found));
    }
    for byte in CHANGES {
        if let Some(found) = judge(alloc, cases, asked, text, place, Alteration::Change(byte))? {
            return Ok(Some(found));
        }
    }
    Ok(None)
}

/// An altered text and what it gives, where that is no answer and no such refusal.
fn judge<C: Cases>(
    alloc: Global,
    cases: &mut C,
    asked: Asked<'_>,
    text: &[u8],
    place: usize,
    alteration: Alteration,
) -> Result<Option<String>, Failure> {
    let line = line_of(alloc, asked.before, text, place, alteration)?;
    let given = match cases.answer(alloc, asked.word, line.as_str()) {
        Ok(given) => given,
        Err(failure) => failure.shown(alloc)?,
    };
    if is_within(asked, given.as_str()) {
        return Ok(None);
    }
    Ok(Some(format!(in alloc; "{line}: {given}")?))
}

/// The altered text as a line writes it, each byte by its number.
fn line_of(
    alloc: Global,
    before: &str,
    text: &[u8],
    place: usize,
    alteration: Alteration,
) -> Result<String, Failure> {
    let mut line = String::from_str(alloc, before)?;
    if !before.is_empty() {
        line.push(' ')?;
    }
    for (at, byte) in text.iter().enumerate() {
        match alteration {
            Alteration::Cut if at >= place => break,
            Alteration::Change(changed) if at == place => push_byte(&mut line, changed)?,
            _ => push_byte(&mut line, *byte)?,
        }
    }
    Ok(line)
}

fn push_byte(line: &mut String, byte: u8) -> Result<(), Failure> {
    Ok(write!(line, "\\x{byte:02x}")?)
}

/// Whether what a text gives is an answer, or a refusal by one of the numbers.
fn is_within(asked: Asked<'_>, given: &str) -> bool {
    if given.contains("out of memory") || given.contains("no such case") {
        return false;
    }
    match number_in(given) {
        Some(number) => asked.least <= number && number <= asked.greatest,
        None => !given.contains("refused"),
    }
}

/// The number of the refusal that is given.
fn number_in(given: &str) -> Option<u32> {
    let (_, after) = given.split_once("refused ")?;
    let (number, _) = after.split_once(' ').unwrap_or((after, ""));
    number.parse().ok()
}
