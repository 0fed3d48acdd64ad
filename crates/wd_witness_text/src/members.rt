//! The members of a witness from a text's tokens.

ghost use Rattle.std.specs.Prelude.{◌≡◌, map, None, option_map, IfOk, IfErr, ⊤};
ghost use Rattle.serde_json.specs.Data.{Members, object};
ghost use Rattle.wd_json_tokens.specs.Values.{value_at};
ghost use Rattle.wd_json_tokens.specs.declared.unread.Unread.TheVariants as unread;
ghost use Rattle.wd_witness_text.specs.Json.{witness_json};
ghost use Rattle.wd_witness_text.specs.Reading.{IsFitting, TakesFitting};
ghost use Rattle.wd_witness_text.specs.Slots.{HoldsSlots};
ghost use Rattle.wd_witness_text.specs.Witnesses.{AllFit64, witness_of};

use crate::named::read_tables;
use crate::witness::Witness;
use json::Reader;
use std::alloc::Global;
use std::collections::BTreeMap;
use wd_json_tokens::{FromTokens, Slots, Unread, read_object, skip_value};
use wd_plan::Choice;
use wd_value::Row;

/// What was read of a witness's members. A value is there once its member was found, and it is `None` where it is of another form.
#[derive(Drop)]
struct WitnessSlots {
    first: Option<Option<Vec<Vec<u64>>>>,
    second: Option<Option<Vec<Vec<u64>>>>,
    tables: Option<Option<BTreeMap<String, Vec<Row>>>>,
    has_other: bool,
}

impl Slots for WitnessSlots {
    ghost Names = { ⊤ };

    ghost names = { λ s. tt };

    ghost Holds = { HoldsSlots };

    fn read_member(
        &mut self,
        alloc: Global,
        reader: &mut Reader<'_>,
        depth: usize,
        name: &str,
    ) -> Result<(), Unread> {
        if name == "first" {
            self.first = Some(Vec::read(alloc, reader, depth)?);
        } else if name == "second" {
            self.second = Some(Vec::read(alloc, reader, depth)?);
        } else if name == "tables" {
            self.tables = Some(read_tables(alloc, reader, depth)?);
        } else {
            skip_value(reader, depth)?;
            self.has_other = true;
        }
        Ok(())
    }
}

/// The witness of the members that were read, and `None` where one is missing, is of another form or has another name.
fn witness_of_slots(slots: WitnessSlots) -> Option<Witness>
    ensures { (ms : Members) → HoldsSlots slots ms → IsFitting witness_json AllFit64 (option_map witness_of result) (object ms) }
{
    if slots.has_other {
        return None;
    }
    let choices = slots.first.flatten().zip(slots.second.flatten());
    match choices.zip(slots.tables.flatten()) {
        Some((choices, tables)) => {
            let (first, second) = choices;
            Some(Witness {
                tables,
                first: Choice { orderings: first },
                second: Choice { orderings: second },
            })
        }
        None => None,
    }
}

/// Takes the next JSON value: the witness with that form, and `None` where no witness has it.
pub(crate) fn read_members(
    alloc: Global,
    reader: &mut Reader<'_>,
    depth: usize,
) -> Result<Option<Witness>, Unread>
    ensures ok { IfOk result (λ o. TakesFitting witness_json AllFit64 (option_map witness_of o) depth reader.old reader.new) }
    ensures refused { IfErr result (λ e. e ≡ unread.NotJson → value_at depth reader.old ≡ None) }
{
    let mut slots = WitnessSlots {
        first: None,
        second: None,
        tables: None,
        has_other: false,
    };
    if read_object(alloc, reader, depth, &mut slots)? {
        Ok(witness_of_slots(slots))
    } else {
        Ok(None)
    }
}
