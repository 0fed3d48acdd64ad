//! The uses of names in a query: as columns of a schema, and as names that the query gives.

ghost use Rattle.std.specs.Prelude.{◌≡◌, ◌++◌, map, IfOk};
ghost use Rattle.wd_casts.specs.Names as spec;
ghost use Rattle.wd_casts.specs.Names.{unknown_uses};
ghost use Rattle.wd_amounts.specs.Seen.{use_seen};

use crate::kind::Kind;
use std::alloc::Global;
use wd_amounts::{NameUse, columns, given_names, has_lists};
use wd_dialect_read::Statement;
use wd_lex::Token;
use wd_value::OutOfMemory;

/// Adds names whose kinds are not known.
#[tactic(auto, unfolding(crate::specs::Names::unknown_uses))]
fn push_unknown<'t>(uses: &mut Vec<NameUse<'t, Kind>>, given: &[&'t str]) -> Result<(), OutOfMemory>
    ensures { IfOk result (λ _. map use_seen uses.new.items ≡ map use_seen uses.old.items ++ unknown_uses (map (λ n. n.now) given.now)) }
{
    let mut rest = given;
    while let [first, after @ ..] = rest {
        uses.push(NameUse {
            name: *first,
            value: None,
        })?;
        rest = after;
    }
    Ok(())
}

/// The uses of names in a query over the tables of a schema.
#[tactic(auto, unfolding(crate::specs::Names::uses))]
pub fn uses<'t>(
    alloc: Global,
    statements: &'t [Statement],
    tokens: &'t [Token],
) -> Result<Vec<NameUse<'t, Kind>>, OutOfMemory>
    ensures { IfOk result (λ found. map use_seen found.items ≡ spec.uses statements.now tokens.now) }
{
    if has_lists(tokens) {
        return Ok(Vec::new(alloc));
    }
    let mut found = columns(alloc, statements)?;
    let given = given_names(alloc, tokens)?;
    push_unknown(&mut found, &given)?;
    Ok(found)
}
