//! The first token of a value, and what it says of the value.

ghost use Rattle.std.specs.Prelude.{◌≡◌, None, IfOk, OnErr};
ghost use Rattle.wd_json_tokens.specs.Values.{value_at};
ghost use Rattle.wd_json_tokens.specs.Tops.{Begins, Passes};

use crate::number::number;
use crate::skip::{skip_items, skip_members};
use json::{Invalid, Reader, Token};
use serde_json::Number;

/// A JSON value as it is seen at its top.
#[derive(Clone, Copy)]
pub enum Top<'a> {
    Null,
    Bool(bool),
    Number(Number),
    Text(&'a str),
    List,
    Object,
}

/// Takes the first token of a value whose lists and objects nest at most `depth` deep: the whole value where it is no list and no object.
pub(crate) fn begin<'a>(reader: &mut Reader<'a>, depth: usize) -> Result<Top<'a>, Invalid>
    ensures ok { IfOk result (λ t. Begins depth reader.old t reader.new) }
    ensures refused { OnErr result (value_at depth reader.old ≡ None) }
{
    let token = reader.next().ok_or(Invalid)?;
    match token {
        Token::Null => Ok(Top::Null),
        Token::Bool(b) => Ok(Top::Bool(b)),
        Token::Number(text) => Ok(Top::Number(number(text).ok_or(Invalid)?)),
        Token::String(text) => Ok(Top::Text(text)),
        Token::BeginArray => if depth > 0 {
            Ok(Top::List)
        } else {
            Err(Invalid)
        },
        Token::BeginObject => if depth > 0 {
            Ok(Top::Object)
        } else {
            Err(Invalid)
        },
        Token::EndObject | Token::EndArray | Token::Key(_) | Token::Bad => Err(Invalid),
    }
}

/// Takes a value whose lists and objects nest at most `depth` deep, and says what is seen of it.
pub fn take_top<'a>(reader: &mut Reader<'a>, depth: usize) -> Result<Top<'a>, Invalid>
    ensures ok { IfOk result (λ t. Passes depth reader.old t reader.new) }
    ensures refused { OnErr result (value_at depth reader.old ≡ None) }
{
    let top = begin(reader, depth)?;
    match top {
        Top::List => skip_items(reader, depth - 1)?,
        Top::Object => skip_members(reader, depth - 1)?,
        _ => (),
    }
    Ok(top)
}
