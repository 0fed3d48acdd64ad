//! Facts, and those that the steps of a plan give: conditions, the outputs of a Map, the calls of a Window, and Groups.
//!
//! `facts` has their types. `conditions`, `maps`, `calls` and `groups` append the facts of one step each, made with `members`; `apart`
//! says whether GROUPING distinguishes the sets of a Group, and `moved` renumbers the facts of an input. Each public function appends all
//! of its facts or, where memory runs out, none. Facts are read off a step's form alone: no rows are looked at.
#![tactic(auto)]

mod apart;
mod calls;
mod conditions;
mod facts;
mod groups;
mod maps;
mod members;
mod moved;

pub use calls::add_calls;
pub use conditions::{add_conjuncts, add_join_conjuncts};
pub use facts::{Facts, Given, Member};
pub use groups::{group_facts, restrict_members};
pub use maps::{add_outputs, copy_of, is_column};
pub use members::{add_key, copied_facts, first_columns};
pub use moved::{add_moved_facts, moved_member};
