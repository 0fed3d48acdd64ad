//! WITH by derived tables: `WITH a AS ( q ) ..` is what follows, with `( q ) AS a` in place of each table `a`. `member` reads the
//! members, `place` finds the tables of a query, `derived` writes the derived tables, and `expand` takes the members out, from the last
//! to the first.
#![tactic(auto)]

mod derived;
mod expand;
mod member;
mod place;

pub use expand::{Expanded, without_with};
pub use place::{Place, is_table, pass};
