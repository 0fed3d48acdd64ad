//! Lists of values that are all of one type.

ghost use Rattle.std.specs.Prelude.{◌≡◌, List, [], ◌∷◌, ◌++◌, map, None, option_map, IfOk, IfErr, OnOk, ⊤};
ghost use Rattle.serde_json.specs.Data.{Data, array};
ghost use Rattle.serde_json.specs.View.{items_of};
ghost use Rattle.wd_json.specs.Json.{list_json};
ghost use Rattle.wd_json_tokens.specs.Values.{value_at};
ghost use Rattle.wd_json_tokens.specs.Forms.{IsForm, Takes};
ghost use Rattle.wd_json_tokens.specs.Lists.{HoldsList};
ghost use Rattle.wd_json_tokens.specs.declared.unread.Unread.TheVariants as unread;

use crate::elements::{Elements, read_elements};
use crate::forms::FromTokens;
use crate::skip::skip_value;
use crate::unread::Unread;
use json::Reader;
use std::alloc::Global;

/// A list of fewer elements keeps no spare room.
const SHORT: usize = 1024;

/// How many elements a list has room for when its first one comes: texts have millions of lists of one, and a larger first room of a list
/// is not given back in part.
const FIRST_ROOM: usize = 2;

/// The elements that were read, up to the first of another form.
#[derive(Drop)]
struct Found<T> {
    items: Vec<T>,
    has_other: bool,
}

/// Appends an element.
fn append<T: Drop>(list: &mut Vec<T>, element: T) -> Result<(), Unread>
    ensures appended { OnOk result (list.new.items ≡ list.old.items ++ element ∷ []) }
    ensures refused { IfErr result (λ e. e ≡ unread.OutOfMemory) }
{
    if list.is_empty() {
        list.reserve_exact(FIRST_ROOM)?;
    }
    list.push(element)?;
    Ok(())
}

impl<T: FromTokens> Elements for Found<T> {
    ghost Holds = { λ s ds. HoldsList T.json (λ _. ⊤) (map T.said s.items.items) s.has_other ds };

    fn read_element(
        &mut self,
        alloc: Global,
        reader: &mut Reader<'_>,
        depth: usize,
    ) -> Result<(), Unread> {
        if self.has_other {
            skip_value(reader, depth)?;
            return Ok(());
        }
        match T::read(alloc, reader, depth)? {
            Some(item) => append(&mut self.items, item)?,
            None => self.has_other = true,
        }
        Ok(())
    }
}

/// The elements of a list, and `None` where the next value is no list or one of its elements is of another form.
pub(crate) fn read_list<T: FromTokens>(
    alloc: Global,
    reader: &mut Reader<'_>,
    depth: usize,
) -> Result<Option<Vec<T>>, Unread>
    ensures ok { IfOk result (λ o. Takes (list_json T.json) (option_map (λ v. map T.said v.items) o) depth reader.old reader.new) }
    ensures refused { IfErr result (λ e. e ≡ unread.NotJson → value_at depth reader.old ≡ None) }
{
    let mut found = Found {
        items: Vec::new(alloc),
        has_other: false,
    };
    if read_elements(alloc, reader, depth, &mut found)? {
        Ok(whole_list(found))
    } else {
        Ok(None)
    }
}

/// The list of the elements that were read, and `None` where one is of another form.
fn whole_list<T: FromTokens>(found: Found<T>) -> Option<Vec<T>>
    ensures { (ds : List Data) → HoldsList T.json (λ _. ⊤) (map T.said found.items.items) found.has_other ds
        → IsForm (list_json T.json) (option_map (λ v. map T.said v.items) result) (array (items_of ds)) }
{
    if found.has_other {
        None
    } else {
        Some(trimmed(found.items))
    }
}

/// The list without its spare room where it is short, so that a text of many short lists takes little more than their elements.
pub fn trimmed<T: Drop>(list: Vec<T>) -> Vec<T>
    ensures { result.items ≡ list.items }
{
    let mut list = list;
    if list.len() < SHORT {
        list.shrink_to_fit();
    }
    list
}
