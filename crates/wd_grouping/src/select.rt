//! The pieces of a select with GROUP BY.

ghost use Rattle.std.specs.Prelude.{◌≡◌};
ghost use Rattle.wd_clauses.specs.Given.{Finds};
ghost use Rattle.wd_grouping.specs.Named.{grouped_pieces};
ghost use Rattle.wd_grouping.specs.Pieces as spec;
ghost use Rattle.wd_using.specs.Named.{pieces};

use crate::kind::is_group;
use wd_clauses::{Stop, split};
use wd_distinct_on::is_by;
use wd_lex::Token;
use wd_using::Select;

/// A select, its WHERE clause, its keys after GROUP BY, and the clauses after them.
#[derive(Drop)]
pub struct Grouped<'t> {
    pub select: Select<'t>,
    pub condition: &'t [Token],
    pub group: &'t Token,
    pub by: &'t Token,
    pub keys: &'t [Token],
    pub later: &'t [Token],
}

/// A select with GROUP BY.
pub fn grouping_of(select: Select<'_>) -> Option<Grouped<'_>>
    ensures { Finds grouped_pieces result (spec.grouping_of (pieces select.entry)) }
{
    let (condition, after) = split(Stop::Later, select.clauses);
    match after {
        [group, by, rest @ ..] if is_group(&group.kind) && is_by(&by.kind) => {
            let (keys, later) = split(Stop::Later, rest);
            Some(Grouped {
                select,
                condition,
                group,
                by,
                keys,
                later,
            })
        }
        _ => None,
    }
}
