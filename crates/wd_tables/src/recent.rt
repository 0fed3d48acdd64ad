ghost use Rattle.std.specs.Prelude.{◌≡◌, IfOk};

use std::alloc::Global;
use wd_value::{OutOfMemory, Text};

/// How many texts are remembered: one for each number of 16 bits.
const PLACES: usize = 65_536;

/// An odd number whose products spread over their high bits: 2^64 over the golden ratio.
const SPREADING: u64 = 0x9E37_79B9_7F4A_7C15;

/// Texts that were read before, one at each place. An equal text that is read later shares the bytes.
#[derive(Drop)]
pub struct RecentTexts {
    texts: Vec<Text>,
}

impl RecentTexts {
    /// The empty text at each place.
    pub fn new(alloc: Global) -> Result<RecentTexts, OutOfMemory> {
        let empty = Text::from_str(alloc, "")?;
        let mut texts = Vec::with_capacity(alloc, PLACES)?;
        for _ in 0..PLACES {
            texts.push(empty.copy()?)?;
        }
        Ok(RecentTexts { texts })
    }

    /// The text of a field: the one at its place if that is equal, or else a new one, which takes the place.
    pub fn text_of(&mut self, alloc: Global, field: &str) -> Result<Text, OutOfMemory>
        ensures { IfOk result (λ t. t ≡ field.now) }
    {
        match self.texts.get_mut(place_of(field.as_bytes())) {
            Some(recent) => {
                if recent.as_bytes() != field.as_bytes() {
                    *recent = Text::from_str(alloc, field)?;
                }
                Ok(recent.copy()?)
            }
            None => Ok(Text::from_str(alloc, field)?),
        }
    }
}

// The place of a text, by its last eight bytes, which usually differ between the texts of a column, and for a shorter text also by its
// length.
fn place_of(text: &[u8]) -> usize {
    let mut end = text.len() as u64;
    for byte in text.iter().rev().take(8) {
        end = end.wrapping_mul(256).wrapping_add(u64::from(*byte));
    }
    (end.wrapping_mul(SPREADING) >> 48) as usize
}
