//! What the names of a query count. The uses of names are gone through once, the columns' first and then those in further and further
//! brackets before those around them.

ghost use Rattle.std.specs.Prelude.{◌≡◌, IfOk};
ghost use Rattle.wd_units.specs.Units as units;
ghost use Rattle.wd_amounts.specs.Names.{known_in, uses_in};
ghost use Rattle.wd_amounts.specs.Seen.{known_seen};
ghost use Rattle.wd_amounts.specs.Uses.{known_by};

use crate::known::KnownNames;
use crate::names::has_lists;
use crate::scan::level_uses;
use crate::uses::{NameValue, columns};
use std::alloc::Global;
use wd_dialect_read::{ColumnKind, Statement};
use wd_lex::Token;
use wd_units::{Unit, either, unit_of_kind};
use wd_value::OutOfMemory;

/// How many levels of brackets are told apart, and what stands outside of brackets.
const LEVELS: usize = 65;

impl NameValue for Unit {
    ghost of_column = { units.unit_of_kind };

    ghost either = { units.either };

    fn of_column(kind: ColumnKind) -> Option<Unit>
        ensures { result ≡ units.unit_of_kind kind }
    {
        unit_of_kind(kind)
    }

    fn either(first: Option<Unit>, second: Option<Unit>) -> Option<Unit>
        ensures { result ≡ units.either first second }
    {
        either(first, second)
    }
}

/// What the columns count, and then the names that the query gives in so many levels of brackets, from the innermost on.
fn units_by_level(
    alloc: Global,
    statements: &[Statement],
    tokens: &[Token],
) -> Result<KnownNames<Unit>, OutOfMemory>
    ensures { IfOk result (λ known. known_seen known ≡ known_by units.either (uses_in statements.now tokens.now 65)) }
{
    let mut known = KnownNames::new(alloc);
    known.add_all(alloc, &columns(alloc, statements)?)?;
    for levels in 0..LEVELS {
        let uses = level_uses(alloc, &known, 64 - levels, tokens)?;
        known.add_all(alloc, &uses)?;
    }
    Ok(known)
}

/// What the names of a query over the tables of a schema count.
#[tactic(auto, unfolding(crate::specs::Names::uses))]
pub fn known_names(
    alloc: Global,
    statements: &[Statement],
    tokens: &[Token],
) -> Result<KnownNames<Unit>, OutOfMemory>
    ensures { IfOk result (λ known. known_seen known ≡ known_in statements.now tokens.now) }
{
    if has_lists(tokens) {
        KnownNames::from_uses(alloc, &[])
    } else {
        units_by_level(alloc, statements, tokens)
    }
}
