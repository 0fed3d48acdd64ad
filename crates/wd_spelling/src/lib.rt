//! The expressions of a plan as a person reads them: in SQL, over the names of columns.
//!
//! `spell` goes over an expression of any depth by a loop, and stops where a line is full; `operator` and `literal` have the words.
//! `names` names the columns of a plan's rows, with the words of `function` for calls.
#![tactic(auto)]

mod function;
mod literal;
mod names;
mod operator;
mod spell;

pub use function::call_text;
pub use names::{group_names, output_names, scan_names, table_names, window_names};
pub use spell::spell_expression;
