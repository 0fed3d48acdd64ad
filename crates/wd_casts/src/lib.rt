//! Casts: PostgreSQL's `x::type` and the standard's `CAST ( x AS type )`, where the cast keeps the value or an equation in whole
//! numbers gives it.
//!
//! `mask` gives a query in the characters of the profile's lexer: `::` appears as `%%`, and the point in a number as a blank. `decimal`
//! makes literals of numbers with a point. `term` reads an operand with its casts, `known` says what is known of the operand by what
//! the uses of its names (`names`) agree on (`agreed`), and `equation` gives what a cast of the operand is. `walk` goes over the tokens
//! from left to right and writes the equations.
#![tactic(auto)]

mod agreed;
mod decimal;
mod equation;
mod kind;
mod known;
mod mask;
mod names;
mod term;
mod token;
mod type_name;
mod walk;

pub use decimal::with_literals;
pub use mask::mask_query;
pub use term::has_casts;
pub use walk::without_casts;
