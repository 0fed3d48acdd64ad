//! What the libraries of cases share. A program reads cases from standard input, a line each, and prints each
//! line with what its case gives; the file `stdout` beside `src` holds what must be printed. A line
//! is a word for what is asked, a blank and a text; the lines `#` of the file `stdin` say what the
//! words are. A further case is a line more in both files.
#![tactic(auto)]

mod cell;
mod escape;
mod failure;
mod line;
mod named;
mod refused;
mod schema;

pub use cell::{is_nothing, row_of, rows_of, value_of};
pub use escape::{in_one_line, text_of, tokens_of, unescape};
pub use failure::Failure;
pub use line::{Cases, answer_lines, or_nothing};
pub use named::NamedTexts;
pub use schema::SchemaText;
