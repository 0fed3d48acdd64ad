//! Lists, element by element, into a place of the caller's.

ghost use Rattle.std.specs.Prelude.{◌≡◌, ◌≢◌, ◌-◌, ◌<◌, List, [], ◌∷◌, ◌++◌, Some, None, IfOk, IfErr, OnOk, OnErr};
ghost use Rattle.std.specs.Bool.{MatchBool};
ghost use Rattle.serde_json.specs.Data.{Data, Items, array};
ghost use Rattle.serde_json.specs.View.{items_of};
ghost use Rattle.wd_json_tokens.specs.Values.{value_at, items_at, list_at};
ghost use Rattle.wd_json_tokens.specs.declared.unread.Unread.TheVariants as unread;

use crate::skip::skip_members;
use crate::tops::{Top, begin};
use crate::unread::Unread;
use json::{Invalid, Reader};
use std::alloc::Global;

/// A place for what is kept of a list's elements.
pub trait Elements {
    // The elements that were put there are these, in their order.
    ghost Holds: { Self → List Data → Type 0 };

    /// Takes the next element.
    fn read_element(
        &mut self,
        alloc: Global,
        reader: &mut Reader<'_>,
        depth: usize,
    ) -> Result<(), Unread>
        ensures ok { OnOk result ((d : Data) × (value_at depth reader.old ≡ Some (d, reader.new))
            × ((ds : List Data) → Holds self.old ds → Holds self.new (ds ++ d ∷ []))) }
        ensures refused { IfErr result (λ e. e ≡ unread.NotJson → value_at depth reader.old ≡ None) };
}

/// Reads the elements of a list into the empty place. Not so where the next value is no list: it is passed over then.
pub fn read_elements<E: Elements>(
    alloc: Global,
    reader: &mut Reader<'_>,
    depth: usize,
    elements: &mut E,
) -> Result<bool, Unread>
    requires { E.Holds elements.old [] }
    ensures ok { IfOk result (λ is_list. MatchBool is_list
        ((ds : List Data) × (value_at depth reader.old ≡ Some (array (items_of ds), reader.new)) × E.Holds elements.new ds)
        ((d : Data) × (value_at depth reader.old ≡ Some (d, reader.new)) × ((ds : Items) → d ≢ array ds))) }
    ensures refused { IfErr result (λ e. e ≡ unread.NotJson → value_at depth reader.old ≡ None) }
{
    if open_list(reader, depth)? {
        read_all(alloc, reader, depth - 1, elements)?;
        Ok(true)
    } else {
        Ok(false)
    }
}

/// Takes the bracket of a list, or a whole value that is no list.
fn open_list(reader: &mut Reader<'_>, depth: usize) -> Result<bool, Invalid>
    ensures ok { IfOk result (λ is_list. MatchBool is_list
        ((0 < depth) × (value_at depth reader.old ≡ list_at (depth - 1) reader.new))
        ((d : Data) × (value_at depth reader.old ≡ Some (d, reader.new)) × ((ds : Items) → d ≢ array ds))) }
    ensures refused { OnErr result (value_at depth reader.old ≡ None) }
{
    match begin(reader, depth)? {
        Top::List => Ok(true),
        Top::Object => {
            skip_members(reader, depth - 1)?;
            Ok(false)
        }
        _ => Ok(false),
    }
}

/// Reads the elements up to the end of their list.
fn read_all<E: Elements>(
    alloc: Global,
    reader: &mut Reader<'_>,
    depth: usize,
    elements: &mut E,
) -> Result<(), Unread>
    requires { E.Holds elements.old [] }
    ensures ok { OnOk result ((ds : List Data) × (items_at depth reader.old ≡ Some (items_of ds, reader.new)) × E.Holds elements.new ds) }
    ensures refused { IfErr result (λ e. e ≡ unread.NotJson → items_at depth reader.old ≡ None) }
{
    'items: while !reader.take_end_array() {
        elements.read_element(alloc, reader, depth)?;
    }
    Ok(())
}
