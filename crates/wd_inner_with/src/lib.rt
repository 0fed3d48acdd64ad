//! WITH within brackets: `( WITH a AS ( q ) .. )` is `( .. )` with `( q ) AS a` in place of each table `a`, just as wd_with takes out
//! the WITH clause at the start of a query. `opened` takes out one clause, `walk` all of them, the last one first.
#![tactic(auto)]

mod opened;
mod walk;

pub use walk::without_inner_with;
