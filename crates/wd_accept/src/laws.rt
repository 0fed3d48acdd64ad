//! Laws over the definitions alone.

ghost use Rattle.wd_accept.specs.Laws.{AcceptedHasOne, AcceptedIsTaken, NotBoth};
ghost use Rattle.wd_accept.specs.Lists.{ListedHasOneList, ListedIsTaken, OrderedHaveLimit};

use wd_certificate::laws::is_read_back;
use wd_query::laws::{meaning_or_cause, one_plan};
use wd_resolve::laws::{ordered_end_in_limit, plans_fit};
use wd_rules::laws::{listed_has_one, valid_has_one};
use wd_schema::laws::one_meaning;

/// A query with an accepted certificate has one answer.
pub fn accepted_has_one()
    ensures { AcceptedHasOne }
{
    one_meaning();
    one_plan();
    plans_fit();
    valid_has_one();
}

/// For an accepted certificate no cause of a refusal of the certificate holds.
pub fn not_both()
    ensures { NotBoth }
{
    one_meaning();
    one_plan();
    is_read_back();
}

/// A certificate that is accepted is refused only where memory runs out, if the texts have a meaning.
pub fn accepted_is_taken()
    ensures { AcceptedIsTaken }
{
    meaning_or_cause();
    not_both();
}

/// A query with a certificate by which the answer's Limit goes by `keys` has one list.
pub fn listed_has_one_list()
    ensures { ListedHasOneList }
{
    one_meaning();
    one_plan();
    plans_fit();
    listed_has_one();
}

/// A certificate that is accepted for a list is refused only where memory runs out, if the texts have a meaning.
pub fn listed_is_taken()
    ensures { ListedIsTaken }
{
    one_meaning();
    one_plan();
    is_read_back();
    listed_has_one_list();
    accepted_is_taken();
}

/// There is an answer's Limit exactly where the outermost select has ORDER BY.
pub fn ordered_have_limit()
    ensures { OrderedHaveLimit }
{
    ordered_end_in_limit();
}
