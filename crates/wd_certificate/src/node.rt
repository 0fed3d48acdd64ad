//! A node from a text's tokens, member by member.

ghost use Rattle.std.specs.Prelude.{option_map, ⊤};
ghost use Rattle.serde_json.specs.Data.{Members, object};
ghost use Rattle.wd_json_tokens.specs.Forms.{IsForm};
ghost use Rattle.wd_certificate.specs.Certificates.{NodeRecord, node_of};
ghost use Rattle.wd_certificate.specs.Json.{node_json};
ghost use Rattle.wd_certificate.specs.Members.{HoldsSlots};

use crate::certificate::{Kept, Node, Rule, Trace};
use json::Reader;
use std::alloc::Global;
use wd_json_tokens::{FromTokens, Slots, Unread, read_object, skip_value};

/// What was read of a node's members. A value is there once its member was found, and it is `None` where it is of another form.
#[derive(Drop)]
struct NodeSlots {
    calls: Option<Option<Vec<Rule>>>,
    keep: Option<Option<Vec<Kept>>>,
    limit: Option<Option<Option<u64>>>,
    traces: Option<Option<Vec<Trace>>>,
    has_other: bool,
}

impl Slots for NodeSlots {
    ghost Names = { ⊤ };

    ghost names = { λ s. tt };

    ghost Holds = { HoldsSlots };

    fn read_member(
        &mut self,
        alloc: Global,
        reader: &mut Reader<'_>,
        depth: usize,
        name: &str,
    ) -> Result<(), Unread> {
        if name == "calls" {
            self.calls = Some(Vec::read(alloc, reader, depth)?);
        } else if name == "keep" {
            self.keep = Some(Vec::read(alloc, reader, depth)?);
        } else if name == "limit" {
            self.limit = Some(Option::read(alloc, reader, depth)?);
        } else if name == "traces" {
            self.traces = Some(Vec::read(alloc, reader, depth)?);
        } else {
            skip_value(reader, depth)?;
            self.has_other = true;
        }
        Ok(())
    }
}

/// The node of the members that were read, and `None` where one is missing, is of another form or has another name.
fn node_of_slots(slots: NodeSlots) -> Option<Node>
    ensures { (ms : Members) → HoldsSlots slots ms → IsForm node_json (option_map node_of result) (object ms) }
{
    if slots.has_other {
        return None;
    }
    let lists = slots.calls.flatten().zip(slots.keep.flatten());
    match lists.zip(slots.limit.flatten().zip(slots.traces.flatten())) {
        Some((lists, others)) => {
            let (calls, keep) = lists;
            let (limit, traces) = others;
            Some(Node {
                calls,
                keep,
                limit,
                traces,
            })
        }
        None => None,
    }
}

impl FromTokens for Node {
    ghost Said = { NodeRecord };

    ghost said = { node_of };

    ghost json = { node_json };

    fn read(alloc: Global, reader: &mut Reader<'_>, depth: usize) -> Result<Option<Node>, Unread> {
        let mut slots = NodeSlots {
            calls: None,
            keep: None,
            limit: None,
            traces: None,
            has_other: false,
        };
        if read_object(alloc, reader, depth, &mut slots)? {
            Ok(node_of_slots(slots))
        } else {
            Ok(None)
        }
    }
}
