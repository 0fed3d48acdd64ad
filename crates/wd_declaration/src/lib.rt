//! Declarations of tables, and the text of the profile that spells them.
//!
//! `declaration` and `identifier` have the types, whose invariants say that names and lists are not empty; `write` prints a declaration
//! token by token, and `text` prints all of them where the text is not too long. The contract of `schema_text` says that the profile
//! reads the text as just these tables, by the grammar of wd_read_statements.
#![tactic(auto)]

mod declaration;
mod identifier;
mod text;
mod write;

pub use declaration::{Declaration, DeclaredColumn, DeclaredElement, DeclaredKey};
pub use identifier::Identifier;
pub use text::{TextError, schema_text};
