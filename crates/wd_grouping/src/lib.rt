//! GROUP BY with numbers of items and expressions, respelled by columns: `SELECT x.c AS n, SUM( y ) .. GROUP BY 1` groups by `x.c`, and
//! `SELECT a + b AS s .. FROM t GROUP BY 1` by a column of `( SELECT *, a + b AS "group 1" FROM t ) AS t`. `select` finds the pieces of
//! such a select and `source` its table, `key` reads its keys, `replace` finds the keys' expressions in its items and later clauses,
//! `write` writes the select with them, and `respell` goes through a query from its end. `kind` says what single tokens are; `laws` has
//! worked queries.
#![tactic(auto)]

mod key;
mod kind;
pub mod laws;
mod replace;
mod respell;
mod select;
mod source;
mod write;

pub use key::is_column;
pub use kind::{is_group, is_over};
pub use replace::{add_its_table, add_qualified, begins_dot};
pub use respell::without_expression_keys;
pub use source::{OneTable, one_table, tables_called};
pub use write::add_closing;
