//! Types that are read from tokens, and the simple ones among them.

ghost use Rattle.std.specs.Prelude.{◌≡◌, ℕ, List, map, Option, None, option_map, string_bytes, IfOk, IfErr};
ghost use Rattle.serde_json.specs.Data.{Data, string};
ghost use Rattle.wd_json.specs.Json.{number_json, list_json, optional_json};
ghost use Rattle.wd_json_tokens.specs.Values.{value_at};
ghost use Rattle.wd_json_tokens.specs.Forms.{Takes};
ghost use Rattle.wd_json_tokens.specs.declared.unread.Unread.TheVariants as unread;

use crate::list::read_list;
use crate::tops::{Top, take_top};
use crate::unread::Unread;
use json::Reader;
use std::alloc::Global;

/// A type whose values have a JSON form and are read from a text's tokens.
pub trait FromTokens: Drop {
    // What contracts see of a value, and the JSON value of that.
    ghost Said: { Type 0 };

    ghost said: { Self → Self.Said };

    ghost json: { Self.Said → Data };

    /// Takes the next JSON value, whose lists and objects nest at most `depth` deep: the value of this type with that form, and `None`
    /// where no value has it.
    fn read(alloc: Global, reader: &mut Reader<'_>, depth: usize) -> Result<Option<Self>, Unread>
        ensures ok { IfOk result (λ o. Takes Self.json (option_map Self.said o) depth reader.old reader.new) }
        ensures refused { IfErr result (λ e. e ≡ unread.NotJson → value_at depth reader.old ≡ None) };
}

impl FromTokens for u64 {
    ghost Said = { ℕ };

    ghost said = { λ n. n };

    ghost json = { number_json };

    fn read(_alloc: Global, reader: &mut Reader<'_>, depth: usize) -> Result<Option<u64>, Unread> {
        match take_top(reader, depth)? {
            Top::Number(number) => Ok(number.as_u64()),
            _ => Ok(None),
        }
    }
}

impl FromTokens for Option<u64> {
    ghost Said = { Option ℕ };

    ghost said = { λ o. o };

    ghost json = { optional_json };

    fn read(
        _alloc: Global,
        reader: &mut Reader<'_>,
        depth: usize,
    ) -> Result<Option<Option<u64>>, Unread> {
        match take_top(reader, depth)? {
            Top::Number(number) => Ok(number.as_u64().map(Some)),
            Top::Null => Ok(Some(None)),
            _ => Ok(None),
        }
    }
}

impl FromTokens for String {
    ghost Said = { List ℕ };

    ghost said = { λ s. string_bytes s };

    ghost json = { λ s. string s };

    fn read(
        alloc: Global,
        reader: &mut Reader<'_>,
        depth: usize,
    ) -> Result<Option<String>, Unread> {
        match take_top(reader, depth)? {
            Top::Text(text) => Ok(Some(String::from_str(alloc, text)?)),
            _ => Ok(None),
        }
    }
}

impl<T: FromTokens> FromTokens for Vec<T> {
    ghost Said = { List T.Said };

    ghost said = { λ v. map T.said v.items };

    ghost json = { list_json T.json };

    fn read(
        alloc: Global,
        reader: &mut Reader<'_>,
        depth: usize,
    ) -> Result<Option<Vec<T>>, Unread> {
        read_list(alloc, reader, depth)
    }
}
