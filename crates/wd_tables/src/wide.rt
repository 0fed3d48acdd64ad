//! Records with more fields than the table has columns, found before they are read: a reader keeps the end of each field of a record, in
//! eight bytes, before it says how many fields there are. Such a record is refused as a header by 701 where its fields are UTF-8, else by
//! 705; as a later record by 705 in its turn, as reading would refuse it.

ghost use Rattle.std.specs.Prelude.{◌≡◌, ◌↔◌, ◌<◌, true, length, IfOk, IfSome, IsUtf8};
ghost use Rattle.csv.specs.Reading.{strip_bom};
ghost use Rattle.csv.specs.Records.{AllText};
ghost use Rattle.wd_tables.specs.Data.{header_of, records_of};
ghost use Rattle.wd_tables.specs.Wide.{IsStep, IsWide};
ghost use Rattle.wd_tables.specs.declared.wide.Effect.TheVariants as effects;
ghost use Rattle.wd_tables.specs.declared.wide.Place.TheVariants as places;

use std::alloc::Global;
use wd_value::OutOfMemory;

/// A text with fewer commas is not searched: the ends of a record's fields take less than a gigabyte there.
const MANY_COMMAS: usize = 33_554_432;

/// The state of a scan between two bytes of a text.
#[derive(Clone, Copy)]
enum Place {
    RecordStart,
    FieldStart,
    InField,
    InQuotes,
    AfterQuote,
    AfterReturn,
}

/// The effect of a byte on a record.
#[derive(Clone, Copy)]
enum Effect {
    Passes,
    JoinsField,
    EndsField,
    EndsRecord,
}

/// The number of a record that has more than `most` fields, if one is found. A text with few commas is not searched.
pub fn wide_record(text: &[u8], most: usize) -> Option<u64>
    ensures { IfSome result (λ n. IsWide text.now most n) }
{
    if text.len() < MANY_COMMAS || commas(text) < MANY_COMMAS {
        return None;
    }
    first_wide(text, most)
}

fn commas(text: &[u8]) -> usize {
    text.iter().filter(|byte| **byte == b',').count()
}

// The number of the first record with more than `most` fields.
fn first_wide(text: &[u8], most: usize) -> Option<u64>
    ensures { IfSome result (λ n. IsWide text.now most n) }
{
    let mut place = Place::RecordStart;
    let mut number: u64 = 0;
    let mut ended: usize = 0;
    for byte in without_mark(text) {
        let (next, effect) = step(place, *byte);
        place = next;
        match effect {
            Effect::EndsField => {
                ended += 1;
                if ended >= most {
                    return Some(number);
                }
            }
            Effect::EndsRecord => {
                number += 1;
                ended = 0;
            }
            Effect::Passes | Effect::JoinsField => {}
        }
    }
    None
}

/// Whether each field of a text's first record is in UTF-8; unspecified for a text without records.
pub fn has_text_header(alloc: Global, text: &[u8]) -> Result<bool, OutOfMemory>
    ensures { IfOk result (λ is_text. 0 < length (records_of text.now) → (is_text ≡ true) ↔ AllText (header_of text.now)) }
{
    let mut place = Place::RecordStart;
    let mut field = Vec::new(alloc);
    for byte in without_mark(text) {
        let (next, effect) = step(place, *byte);
        place = next;
        match effect {
            Effect::JoinsField => field.push(*byte)?,
            Effect::EndsField => {
                if !is_text(&field) {
                    return Ok(false);
                }
                field.clear();
            }
            Effect::EndsRecord => return Ok(is_text(&field)),
            Effect::Passes => {}
        }
    }
    Ok(is_text(&field))
}

fn is_text(bytes: &[u8]) -> bool
    ensures { (result ≡ true) ↔ IsUtf8 bytes.now }
{
    std::str::from_utf8(bytes).is_ok()
}

// The text without a byte order mark at its start.
fn without_mark(text: &[u8]) -> &[u8]
    ensures { result.now ≡ strip_bom text.now }
{
    if text.starts_with(&[0xEF, 0xBB, 0xBF]) {
        &text[3..]
    } else {
        text
    }
}

// The next state of a scan, and the effect of the byte.
fn step(place: Place, byte: u8) -> (Place, Effect)
    ensures step { IsStep place byte result.0 result.1 }
    ensures opens { result.1 ≡ effects.EndsField → result.0 ≡ places.FieldStart }
{
    match (place, byte) {
        (Place::InQuotes, b'"') => (Place::AfterQuote, Effect::Passes),
        (Place::InQuotes, _) => (Place::InQuotes, Effect::JoinsField),
        (Place::AfterQuote, b'"') => (Place::InQuotes, Effect::JoinsField),
        (Place::RecordStart | Place::FieldStart | Place::AfterReturn, b'"') => (
            Place::InQuotes,
            Effect::Passes,
        ),
        (Place::RecordStart | Place::AfterReturn, b'\r' | b'\n') => (
            Place::RecordStart,
            Effect::Passes,
        ),
        (_, b',') => (Place::FieldStart, Effect::EndsField),
        (_, b'\r') => (Place::AfterReturn, Effect::EndsRecord),
        (_, b'\n') => (Place::RecordStart, Effect::EndsRecord),
        _ => (Place::InField, Effect::JoinsField),
    }
}
