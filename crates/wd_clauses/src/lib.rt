//! Parts of queries, token by token, for equations that respell a query: how far a clause reaches (`level`), the parts of a list
//! between commas (`list`), names (`name`), and tokens that are appended to those written so far (`write`), at most 65,536 in all.
#![tactic(auto)]

mod error;
mod level;
mod list;
mod name;
mod write;

pub use error::RespellError;
pub use level::{Stop, closing, split};
pub use list::parts;
pub use name::{is_name, is_same_name};
pub use write::{add, add_all, add_copy, added_terminal, copy_token, copy_tokens};
