//! The clauses of a select after its FROM clause.

ghost use Rattle.std.specs.Prelude.{◌≡◌};
ghost use Rattle.wd_distinct_counts.specs.Named.{grouping_pieces};
ghost use Rattle.wd_distinct_counts.specs.Pieces as spec;

use wd_clauses::{Stop, split};
use wd_distinct_on::is_by;
use wd_grouping::is_group;
use wd_lex::Token;

/// GROUP BY or nothing, its keys, and the clauses after them.
#[derive(Clone, Copy)]
pub struct Grouping<'t> {
    pub words: &'t [Token],
    pub keys: &'t [Token],
    pub later: &'t [Token],
}

/// `[GROUP BY keys]`
fn grouping_at(tokens: &[Token]) -> Grouping<'_>
    ensures { grouping_pieces result ≡ spec.grouping_at tokens.now }
{
    match tokens {
        [group, by, rest @ ..] if is_group(&group.kind) && is_by(&by.kind) => {
            let (keys, later) = split(Stop::Later, rest);
            Grouping {
                words: &tokens[..2],
                keys,
                later,
            }
        }
        _ => Grouping {
            words: &tokens[..0],
            keys: &tokens[..0],
            later: tokens,
        },
    }
}

/// The WHERE clause.
pub fn condition_of(clauses: &[Token]) -> &[Token]
    ensures { result.now ≡ spec.condition_of clauses.now }
{
    let (condition, _after) = split(Stop::Later, clauses);
    condition
}

/// GROUP BY and the clauses after it.
pub fn grouping_of(clauses: &[Token]) -> Grouping<'_>
    ensures { grouping_pieces result ≡ spec.grouping_of clauses.now }
{
    let (_condition, following) = split(Stop::Later, clauses);
    grouping_at(following)
}
