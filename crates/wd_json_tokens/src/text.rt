//! The value of a whole text.

ghost use Rattle.std.specs.Prelude.{◌≡◌, option_map, IfOk, IfErr};
ghost use Rattle.serde_json.specs.Data.{Data};
ghost use Rattle.wd_json.specs.Json.{IsJsonOf};
ghost use Rattle.wd_json_tokens.specs.Forms.{IsForm};
ghost use Rattle.wd_json_tokens.specs.declared.unread.Unread.TheVariants as unread;

use crate::forms::FromTokens;
use crate::unread::Unread;
use json::{Reader, Scratch};
use std::alloc::Global;

/// How deep lists and objects may nest in a text.
const MAX_DEPTH: usize = 127;

/// The value of this type whose JSON form the bytes are, and `None` where they are JSON of another form; refused where they are no JSON in
/// UTF-8.
pub fn read_text<T: FromTokens>(alloc: Global, bytes: &[u8]) -> Result<Option<T>, Unread>
    ensures ok { IfOk result (λ o. (d : Data) × IsJsonOf d bytes.now × IsForm T.json (option_map T.said o) d) }
    ensures refused { IfErr result (λ e. e ≡ unread.NotJson → (d : Data) → ¬ IsJsonOf d bytes.now) }
{
    let Ok(text) = std::str::from_utf8(bytes) else {
        return Err(Unread::NotJson);
    };
    let mut scratch = Scratch::new(alloc);
    let mut reader = Reader::new(text, &mut scratch)?;
    let value = T::read(alloc, &mut reader, MAX_DEPTH)?;
    if reader.next().is_some() {
        return Err(Unread::NotJson);
    }
    Ok(value)
}
