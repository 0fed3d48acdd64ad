//! NATURAL JOIN by USING: `a NATURAL JOIN b` is `a JOIN b USING ( c1, c2, .. )` with the columns of b that a table to its left has, and
//! `a JOIN b ON TRUE` where there are none. `join` reads the tables of a FROM clause, `write` writes the clause with USING, and
//! `respell` goes through the FROM clauses of a query from the last to the first. `kind` classifies single tokens; `laws` has worked
//! queries.
#![tactic(auto)]

mod join;
mod kind;
pub mod laws;
mod respell;
mod write;

pub use respell::without_natural;
