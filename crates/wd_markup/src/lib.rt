//! Pages of HTML in which texts from outside are escaped.
//!
//! A page is a sequence of pieces: tags made of the fixed words of `vocabulary`, and texts. A tag takes nothing but numbers from an
//! input; a text, whatever its bytes, comes between tags, and `escape` writes it so that it neither begins nor ends a tag, and hides
//! nothing from a reader. `page` holds a page while it is written, and `style` has the beginning and the end of the file.
#![tactic(auto)]

mod escape;
pub mod laws;
mod page;
mod style;
mod vocabulary;

pub use page::Page;
pub use vocabulary::{Class, Tag};
