//! The place of the cause of a refusal that names no place: 401 to 419 of a query, 301 to 308 of a schema.
//!
//! Of the parts of a text that may be the cause, those from some part on are replaced by something allowed, and the text is checked again
//! (`asked`): a part is the cause where the text is refused by that number as long as the part is there, and is not refused with it
//! replaced, too. `search` finds such a part by halving, so that a text of any length is checked about twenty times.
#![tactic(auto)]

mod asked;
mod search;

pub use search::{query_place, schema_place};
