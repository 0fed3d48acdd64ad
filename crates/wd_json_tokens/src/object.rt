//! Objects, member by member.

ghost use Rattle.std.specs.Prelude.{◌≡◌, ◌≢◌, ◌-◌, ◌<◌, Some, None, IfOk, IfErr, OnOk, OnErr};
ghost use Rattle.std.specs.Bool.{MatchBool};
ghost use Rattle.serde_json.specs.Data.{Data, object, Members, no_members, put};
ghost use Rattle.wd_json_tokens.specs.Values.{value_at, members_at, object_at};
ghost use Rattle.wd_json_tokens.specs.declared.unread.Unread.TheVariants as unread;

use crate::skip::skip_items;
use crate::tops::{Top, begin};
use crate::unread::Unread;
use json::{Invalid, Reader};
use std::alloc::Global;

/// Places for what is kept of an object's members.
pub trait Slots {
    // What stays while members are read, as the names of those that are kept.
    ghost Names: { Type 0 };

    ghost names: { Self → Self.Names };

    // The members that were put there, each name once, are these.
    ghost Holds: { Self → Members → Type 0 };

    /// Takes the value of a member with this name, in place of an earlier one with the same name.
    fn read_member(
        &mut self,
        alloc: Global,
        reader: &mut Reader<'_>,
        depth: usize,
        name: &str,
    ) -> Result<(), Unread>
        ensures ok { OnOk result ((d : Data) × (value_at depth reader.old ≡ Some (d, reader.new))
            × ((ms : Members) → Holds self.old ms → Holds self.new (put name.now d ms))) }
        ensures kept { OnOk result (names self.new ≡ names self.old) }
        ensures refused { IfErr result (λ e. e ≡ unread.NotJson → value_at depth reader.old ≡ None) };
}

/// Reads the members of an object into the empty slots. Not so where the next value is no object: it is passed over then.
pub fn read_object<S: Slots>(
    alloc: Global,
    reader: &mut Reader<'_>,
    depth: usize,
    slots: &mut S,
) -> Result<bool, Unread>
    requires { S.Holds slots.old no_members }
    ensures ok { IfOk result (λ is_object. MatchBool is_object
        ((ms : Members) × (value_at depth reader.old ≡ Some (object ms, reader.new)) × S.Holds slots.new ms)
        ((d : Data) × (value_at depth reader.old ≡ Some (d, reader.new)) × ((ms : Members) → d ≢ object ms))) }
    ensures kept { OnOk result (S.names slots.new ≡ S.names slots.old) }
    ensures refused { IfErr result (λ e. e ≡ unread.NotJson → value_at depth reader.old ≡ None) }
{
    if open_object(reader, depth)? {
        read_members(alloc, reader, depth - 1, slots)?;
        Ok(true)
    } else {
        Ok(false)
    }
}

/// Takes the brace of an object, or a whole value that is no object.
fn open_object(reader: &mut Reader<'_>, depth: usize) -> Result<bool, Invalid>
    ensures ok { IfOk result (λ is_object. MatchBool is_object
        ((0 < depth) × (value_at depth reader.old ≡ object_at (depth - 1) reader.new))
        ((d : Data) × (value_at depth reader.old ≡ Some (d, reader.new)) × ((ms : Members) → d ≢ object ms))) }
    ensures refused { OnErr result (value_at depth reader.old ≡ None) }
{
    match begin(reader, depth)? {
        Top::Object => Ok(true),
        Top::List => {
            skip_items(reader, depth - 1)?;
            Ok(false)
        }
        _ => Ok(false),
    }
}

fn read_members<S: Slots>(
    alloc: Global,
    reader: &mut Reader<'_>,
    depth: usize,
    slots: &mut S,
) -> Result<(), Unread>
    requires { S.Holds slots.old no_members }
    ensures ok { OnOk result ((ms : Members) × (members_at depth no_members reader.old ≡ Some (ms, reader.new)) × S.Holds slots.new ms) }
    ensures kept { OnOk result (S.names slots.new ≡ S.names slots.old) }
    ensures refused { IfErr result (λ e. e ≡ unread.NotJson → members_at depth no_members reader.old ≡ None) }
{
    'members: while let Some(name) = reader.next_key()? {
        slots.read_member(alloc, reader, depth, name)?;
    }
    Ok(())
}
