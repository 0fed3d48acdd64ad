//! Values of a known form read from a JSON text token by token, with no tree of the text between.
//!
//! `tops` takes the first token of a value, with `number` for the numbers, and `skip` passes over what is not kept. `elements` reads lists
//! and `object` objects, each part into a place of the caller's. `forms` has the trait of the types that are read, and the simple ones among
//! them; `list` reads lists of one such type, `pair` objects of two members, and `text` a whole text. `unread` says why a text is not read.
#![tactic(auto)]

mod elements;
mod forms;
mod list;
mod number;
mod object;
mod pair;
mod skip;
mod text;
mod tops;
mod unread;

pub use elements::{Elements, read_elements};
pub use forms::FromTokens;
pub use list::trimmed;
pub use object::{Slots, read_object};
pub use pair::read_pair;
pub use skip::skip_value;
pub use text::read_text;
pub use tops::{Top, take_top};
pub use unread::Unread;
