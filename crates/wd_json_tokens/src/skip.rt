//! Passing over values, which are checked to be JSON and not kept.

ghost use Rattle.std.specs.Prelude.{◌≡◌, Some, None, OnOk, OnErr};
ghost use Rattle.serde_json.specs.Data.{Data, Items, Members, no_members};
ghost use Rattle.wd_json_tokens.specs.Values.{value_at, items_at, members_at};

use crate::tops::{Top, begin};
use json::{Invalid, Reader};

/// Takes a value whose lists and objects nest at most `depth` deep.
#[cycle(skip)]
pub fn skip_value(reader: &mut Reader<'_>, depth: usize) -> Result<(), Invalid>
    ensures ok { OnOk result ((d : Data) × (value_at depth reader.old ≡ Some (d, reader.new))) }
    ensures refused { OnErr result (value_at depth reader.old ≡ None) }
{
    match begin(reader, depth)? {
        Top::List => skip_items(reader, depth - 1),
        Top::Object => skip_members(reader, depth - 1),
        _ => Ok(()),
    }
}

/// Takes what is left of a list.
#[cycle(skip)]
pub(crate) fn skip_items(reader: &mut Reader<'_>, depth: usize) -> Result<(), Invalid>
    ensures ok { OnOk result ((ds : Items) × (items_at depth reader.old ≡ Some (ds, reader.new))) }
    ensures refused { OnErr result (items_at depth reader.old ≡ None) }
{
    'items: while !reader.take_end_array() {
        skip_value(reader, depth)?;
    }
    Ok(())
}

/// Takes what is left of an object.
#[cycle(skip)]
pub(crate) fn skip_members(reader: &mut Reader<'_>, depth: usize) -> Result<(), Invalid>
    ensures ok { OnOk result ((ms : Members) × (members_at depth no_members reader.old ≡ Some (ms, reader.new))) }
    ensures refused { OnErr result (members_at depth no_members reader.old ≡ None) }
{
    'members: while let Some(_) = reader.next_key()? {
        skip_value(reader, depth)?;
    }
    Ok(())
}
