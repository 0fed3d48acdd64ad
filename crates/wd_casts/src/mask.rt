//! The masked text: `::` as `%%`, and the point in a number as a blank.

ghost use Rattle.std.specs.Prelude.{◌≡◌, false, length, IfOk, IfSome};
ghost use Rattle.std.specs.Option.{option_map};
ghost use Rattle.wd_casts.specs.Masked as spec;

use std::alloc::{AllocError, Global};
use wd_dialect_text::{State, step};

/// Whether a sign is outside of quotes and comments.
fn is_outside(state: State) -> bool
    ensures { result ≡ spec.is_outside state }
{
    matches!(state, State::Between | State::Word | State::Number)
}

/// Whether a byte in this state is the quote of a text E'..'.
fn is_prefix(state: State) -> bool
    ensures { result ≡ spec.is_prefix state }
{
    matches!(state, State::Prefix)
}

/// Whether a byte in this state comes right after a digit of a number, or after a point after its digits.
fn is_numeric(state: State) -> bool
    ensures { result ≡ spec.is_numeric state }
{
    matches!(state, State::Number)
}

/// Whether a byte and the next could be mistaken for a `::` that is masked.
fn is_doubtful(byte: u8, next: u8) -> bool
    ensures { result ≡ spec.is_doubtful byte next }
{
    (byte == b'%' && (next == b'%' || next == b':')) || (byte == b':' && next == b'%')
}

/// Whether a byte is white space between a number and a digit, which could be mistaken for a point that is masked.
fn splits_number(state: State, byte: u8, next: u8) -> bool
    ensures { result ≡ spec.splits_number state byte next }
{
    is_numeric(state)
        && matches!(byte, b'\t' | b'\n' | 0x0c | b'\r' | b' ')
        && next.is_ascii_digit()
}

/// Whether a byte is a point between a number and a digit.
fn is_point(state: State, byte: u8, next: u8) -> bool
    ensures { result ≡ spec.is_point state byte next }
{
    is_numeric(state) && byte == b'.' && next.is_ascii_digit()
}

/// Whether the text has no bytes that could be mistaken, and no text E'..'.
#[tactic(auto, unfolding(crate::specs::Masked::is_plain))]
fn is_plain(text: &[u8]) -> bool
    ensures { result ≡ spec.is_plain State.Between text.now }
{
    let mut state = State::Between;
    let mut rest = text;
    while let [byte, after @ ..] = rest {
        let next = after.first().copied().unwrap_or(0);
        if is_prefix(state)
            || (is_outside(state) && is_doubtful(*byte, next))
            || splits_number(state, *byte, next)
        {
            return false;
        }
        let (_, following) = step(state, *byte, next);
        state = following;
        rest = after;
    }
    true
}

/// The byte that replaces a byte, and whether the next byte is the second of `::`.
fn byte_for(is_second: bool, state: State, byte: u8, next: u8) -> (u8, bool)
    ensures { result ≡ spec.byte_for is_second state byte next }
{
    if is_second {
        (b'%', false)
    } else if is_outside(state) && byte == b':' && next == b':' {
        (b'%', true)
    } else if is_point(state, byte, next) {
        (b' ', false)
    } else {
        (byte, false)
    }
}

/// The bytes with `%%` for each `::`, and a blank for the point in a number.
#[tactic(auto, unfolding(crate::specs::Masked::masked_from))]
fn with_percents(alloc: Global, text: &[u8]) -> Result<Vec<u8>, AllocError>
    ensures masked { IfOk result (λ found. found.items ≡ spec.masked_from false State.Between text.now) }
    ensures places { IfOk result (λ found. length found.items ≡ length text.now) }
{
    let mut found = Vec::with_capacity(alloc, text.len())?;
    let mut state = State::Between;
    let mut is_second = false;
    let mut rest = text;
    while let [byte, after @ ..] = rest {
        let next = after.first().copied().unwrap_or(0);
        let (other, is_next_second) = byte_for(is_second, state, *byte, next);
        found.push(other)?;
        let (_, following) = step(state, *byte, next);
        state = following;
        is_second = is_next_second;
        rest = after;
    }
    Ok(found)
}

/// The query as the profile's lexer can read it: outside of quotes and comments each `::` appears as `%%` and the point in a number as
/// a blank, and all else as it is. `None` where, outside of quotes and comments, two percent signs are side by side, or one is next to
/// a colon, or two numbers have only white space between them; and where the query has a text E'..'.
#[tactic(auto, unfolding(crate::specs::Masked::masked))]
pub fn mask_query(alloc: Global, text: &[u8]) -> Result<Option<Vec<u8>>, AllocError>
    ensures masked { IfOk result (λ found. option_map (λ v. v.items) found ≡ spec.masked text.now) }

    // Each byte stays at its place.
    ensures places { IfOk result (λ found. IfSome found (λ v. length v.items ≡ length text.now)) }
{
    if is_plain(text) {
        let found = with_percents(alloc, text)?;
        Ok(Some(found))
    } else {
        Ok(None)
    }
}
