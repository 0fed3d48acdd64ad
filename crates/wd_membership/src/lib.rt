//! Memberships by joins: `FROM t WHERE x IN ( SELECT y FROM u )` is `FROM t, ( SELECT DISTINCT y AS "in 1" FROM u ) AS "in 1" WHERE x =
//! "in 1"."in 1"`, and EXISTS with columns that equal those of the select is rewritten in the same way. `query` finds the pieces of a
//! select and of a query in brackets, `conjunct` the conjuncts of a WHERE clause; `membership` reads IN, and `exists` EXISTS. `name`
//! makes the added names, `write` writes the select with the tables, and `respell` goes through the selects of a query from the last to
//! the first. `kind` classifies single tokens; `laws` has worked queries.
#![tactic(auto)]

mod conjunct;
mod exists;
mod kind;
pub mod laws;
mod membership;
mod name;
mod query;
mod respell;
mod write;

pub use respell::without_membership;
