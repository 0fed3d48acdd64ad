//! Names of tables without their schemas: where a table is named, `public.orders` is `orders`, as in a schema's text. This holds only
//! after the members of WITH are taken out: `public.orders` is not one of them, but `orders` may be.
#![tactic(auto)]

mod unqualified;

pub use unqualified::unqualified_query;
