//! Certificates, which say why a query has one answer, and their text in JSON.
//!
//! `certificate` has the types. `forms` has the JSON form of each part, by which `write` writes a certificate's text; `read` reads one from
//! its tokens, with `parts` for the parts and `node` for a node (over wd_json_tokens). `error` numbers the refusals. Numbers in a
//! certificate are not checked against a plan here: that is the work of wd_verify.
#![tactic(auto)]

mod certificate;
mod error;
mod forms;
pub mod laws;
mod node;
mod parts;
mod read;
mod write;

pub use certificate::{Certificate, Kept, Node, PackedTarget, Rule, Target, Trace, Version};
pub use error::CertError;
pub use read::from_json;
