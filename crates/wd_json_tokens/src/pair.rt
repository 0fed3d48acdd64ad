//! Objects of exactly two members.

ghost use Rattle.std.specs.Prelude.{◌≡◌, ◌≢◌, ℕ, List, option_map, None, IfOk, IfErr};
ghost use Rattle.serde_json.specs.Data.{object, Members, no_members};
ghost use Rattle.wd_json_tokens.specs.Values.{value_at};
ghost use Rattle.wd_json_tokens.specs.Forms.{IsForm, Takes};
ghost use Rattle.wd_json_tokens.specs.Pairs.{ComesBefore, HoldsPair, pair_json, both_seen, slot_seen};
ghost use Rattle.wd_json_tokens.specs.declared.unread.Unread.TheVariants as unread;

use crate::forms::FromTokens;
use crate::object::{Slots, read_object};
use crate::skip::skip_value;
use crate::unread::Unread;
use json::Reader;
use std::alloc::Global;

/// What was read of two members by these names. A value is there once its member was found, and it is `None` where it is of another form.
#[derive(Drop)]
struct Pair<'n, A, B> {
    first_name: &'n str,
    second_name: &'n str,
    first: Option<Option<A>>,
    second: Option<Option<B>>,
    has_other: bool,
}

impl<A: FromTokens, B: FromTokens> Slots for Pair<'_, A, B> {
    ghost Names = { List ℕ × List ℕ };

    ghost names = { λ s. (s.first_name.now, s.second_name.now) };

    ghost Holds = { λ s ms. ComesBefore s.first_name.now s.second_name.now
        × HoldsPair s.first_name.now s.second_name.now A.json B.json (slot_seen A.said s.first) (slot_seen B.said s.second) s.has_other ms };

    fn read_member(
        &mut self,
        alloc: Global,
        reader: &mut Reader<'_>,
        depth: usize,
        name: &str,
    ) -> Result<(), Unread> {
        if name == self.first_name {
            self.first = Some(A::read(alloc, reader, depth)?);
        } else if name == self.second_name {
            self.second = Some(B::read(alloc, reader, depth)?);
        } else {
            skip_value(reader, depth)?;
            self.has_other = true;
        }
        Ok(())
    }
}

/// The values of an object that has these two members and no other, and `None` where the next value is no such object.
pub fn read_pair<A: FromTokens, B: FromTokens>(
    alloc: Global,
    reader: &mut Reader<'_>,
    depth: usize,
    first_name: &str,
    second_name: &str,
) -> Result<Option<(A, B)>, Unread>
    requires { ComesBefore first_name.now second_name.now }
    ensures ok { IfOk result (λ o. Takes (pair_json first_name.now second_name.now A.json B.json) (option_map (both_seen A.said B.said) o)
        depth reader.old reader.new) }
    ensures refused { IfErr result (λ e. e ≡ unread.NotJson → value_at depth reader.old ≡ None) }
{
    let mut pair = Pair {
        first_name,
        second_name,
        first: None,
        second: None,
        has_other: false,
    };
    if read_object(alloc, reader, depth, &mut pair)? {
        Ok(both(pair))
    } else {
        Ok(None)
    }
}

/// The values of both members, and `None` where one is missing, is of another form or has another name.
fn both<A: FromTokens, B: FromTokens>(pair: Pair<'_, A, B>) -> Option<(A, B)>
    ensures { (ms : Members) → let s = pair.entry in
        HoldsPair s.first_name.now s.second_name.now A.json B.json (slot_seen A.said s.first) (slot_seen B.said s.second) s.has_other ms
        → IsForm (pair_json s.first_name.now s.second_name.now A.json B.json) (option_map (both_seen A.said B.said) result) (object ms) }
{
    if pair.has_other {
        None
    } else {
        pair.first.flatten().zip(pair.second.flatten())
    }
}
