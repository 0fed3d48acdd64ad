//! Values, rows and lists of rows from a text's tokens. What is read has whole numbers of 64 bits, of which `FromTokens` says nothing, so
//! these parts have a trait of their own.

ghost use Rattle.std.specs.Prelude.{◌≡◌, List, map, All, None, option_map, IfOk, IfErr};
ghost use Rattle.serde_json.specs.Data.{Data, array, number as number_data};
ghost use Rattle.serde_json.specs.View.{items_of, number_view};
ghost use Rattle.wd_json.specs.Json.{list_json};
ghost use Rattle.wd_json_tokens.specs.Lists.{HoldsList};
ghost use Rattle.wd_json_tokens.specs.Values.{value_at};
ghost use Rattle.wd_json_tokens.specs.declared.unread.Unread.TheVariants as unread;
ghost use Rattle.wd_value.specs.declared.value.Value.{Value as SpecValue};
ghost use Rattle.wd_witness_text.specs.Json.{value_json};
ghost use Rattle.wd_witness_text.specs.Reading.{IsFitting, TakesFitting};
ghost use Rattle.wd_witness_text.specs.Witnesses.{Fits64};

use json::Reader;
use serde_json::Number;
use std::alloc::Global;
use wd_json_tokens::{Elements, Top, Unread, read_elements, skip_value, take_top, trimmed};
use wd_value::{Text, Value};

/// A part of a table, whose whole numbers have 64 bits: a value, a row or the rows.
pub(crate) trait TablePart: Drop {
    // What contracts see of a part, the JSON value of that, and that its whole numbers have 64 bits.
    ghost Said: { Type 0 };

    ghost said: { Self → Self.Said };

    ghost json: { Self.Said → Data };

    ghost Fits: { Self.Said → Type 0 };

    /// Takes the next JSON value, whose lists and objects nest at most `depth` deep: the part with that form, and `None` where no part has
    /// it.
    fn read(alloc: Global, reader: &mut Reader<'_>, depth: usize) -> Result<Option<Self>, Unread>
        ensures ok { IfOk result (λ o. TakesFitting Self.json Self.Fits (option_map Self.said o) depth reader.old reader.new) }
        ensures refused { IfErr result (λ e. e ≡ unread.NotJson → value_at depth reader.old ≡ None) };
}

impl TablePart for Value {
    ghost Said = { SpecValue };

    ghost said = { λ v. v };

    ghost json = { value_json };

    ghost Fits = { Fits64 };

    fn read(alloc: Global, reader: &mut Reader<'_>, depth: usize) -> Result<Option<Value>, Unread> {
        match take_top(reader, depth)? {
            Top::Null => Ok(Some(Value::Null)),
            Top::Bool(b) => Ok(Some(Value::Bool(b))),
            Top::Number(number) => Ok(whole_number(number)),
            Top::Text(text) => Ok(Some(Value::Text(Text::from_str(alloc, text)?))),
            Top::List | Top::Object => Ok(None),
        }
    }
}

/// A whole number of 64 bits, written without a fraction or an exponent.
fn whole_number(number: Number) -> Option<Value>
    ensures { IsFitting value_json Fits64 result (number_data (number_view number)) }
{
    number.as_i64().map(Value::Int)
}

/// The parts that were read, up to the first of another form.
#[derive(Drop)]
struct Parts<T> {
    parts: Vec<T>,
    has_other: bool,
}

impl<T: TablePart> Elements for Parts<T> {
    ghost Holds = { λ s ds. HoldsList T.json T.Fits (map T.said s.parts.items) s.has_other ds };

    fn read_element(
        &mut self,
        alloc: Global,
        reader: &mut Reader<'_>,
        depth: usize,
    ) -> Result<(), Unread> {
        if self.has_other {
            skip_value(reader, depth)?;
            return Ok(());
        }
        match T::read(alloc, reader, depth)? {
            Some(part) => self.parts.push(part)?,
            None => self.has_other = true,
        }
        Ok(())
    }
}

impl<T: TablePart> TablePart for Vec<T> {
    ghost Said = { List T.Said };

    ghost said = { λ v. map T.said v.items };

    ghost json = { list_json T.json };

    ghost Fits = { All T.Fits };

    fn read(
        alloc: Global,
        reader: &mut Reader<'_>,
        depth: usize,
    ) -> Result<Option<Vec<T>>, Unread> {
        let mut found = Parts {
            parts: Vec::new(alloc),
            has_other: false,
        };
        if read_elements(alloc, reader, depth, &mut found)? {
            Ok(all_parts(found))
        } else {
            Ok(None)
        }
    }
}

/// The parts that were read, and `None` where an element is of another form.
fn all_parts<T: TablePart>(found: Parts<T>) -> Option<Vec<T>>
    ensures { (ds : List Data) → HoldsList T.json T.Fits (map T.said found.parts.items) found.has_other ds
        → IsFitting (list_json T.json) (All T.Fits) (option_map (λ v. map T.said v.items) result) (array (items_of ds)) }
{
    if found.has_other {
        None
    } else {
        Some(trimmed(found.parts))
    }
}
