//! JOIN .. USING by ON: `FROM a JOIN b USING ( k )` is `FROM a JOIN b ON a.k = b.k`, and `k` is `a.k` in each clause of the select.
//! `select` reads the pieces of a select; `join` reads its tables, whose columns `source` finds in a schema or in a derived table;
//! `merge` finds the table of each merged column; `write` writes the select with them; and `respell` goes through the selects of a query
//! from the last to the first. `level` finds the ends of parts of a select, `kind` classifies single tokens; `laws` has worked queries.
#![tactic(auto)]

mod join;
mod kind;
pub mod laws;
mod level;
mod merge;
mod respell;
mod select;
mod source;
mod write;

pub use kind::{begins_columns, begins_distinct, ends_value, is_star, opens};
pub use level::{Extent, split_at};
pub use respell::without_using;
pub use select::{Select, pieces_at, select_at};
pub use source::{Alias, Source, after_as, alias_at, source_at};
