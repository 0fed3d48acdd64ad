//! Laws over the definitions alone.

ghost use Rattle.wd_decide.specs.Laws.{PlainAreDecided, ReportedAreSound, ReportedAreTrue, WitnessesAreTaken};
ghost use Rattle.wd_decide.specs.Lists.{ListedAreSound, OthersAreVerdicts};

use wd_complete::laws::{open_is_found, queries_are_plain};
use wd_query::laws::{meaning_or_cause, one_plan};
use wd_refute::laws::shown_is_not_refused;
use wd_resolve::laws::plans_fit;
use wd_schema::laws::one_meaning;

/// A certificate that is reported is valid for the plan, and its text is accepted.
pub fn reported_are_sound()
    ensures { ReportedAreSound }
{}

/// A witness that is reported is true, and nothing refuses its text.
pub fn reported_are_true()
    ensures { ReportedAreTrue }
{
    one_meaning();
    one_plan();
    shown_is_not_refused();
}

/// A certificate that is reported for a list is a verdict's, and its text is accepted for the list.
pub fn listed_are_sound()
    ensures { ListedAreSound }
{}

/// A witness or reasons that a verdict on a list reports are those of the verdict on the query; where the order is open the verdict is
/// a certificate.
pub fn others_are_verdicts()
    ensures { OthersAreVerdicts }
{}

/// The verdict on a query of the plain class is never UNKNOWN.
pub fn plain_are_decided()
    ensures { PlainAreDecided }
{
    one_meaning();
    one_plan();
    plans_fit();
    open_is_found();
    queries_are_plain();
}

/// `refute` accepts the text of each witness that is reported, unless memory runs out.
pub fn witnesses_are_taken()
    ensures { WitnessesAreTaken }
{
    meaning_or_cause();
    reported_are_true();
}
