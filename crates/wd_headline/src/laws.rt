//! Laws over the definitions that the public calls promise.

ghost use Rattle.wd_headline.specs.Headline.{AcceptedIsNotRefuted, Headline, IsNotEmpty, ListHeadline, RunsGiveIt, RunsGiveTheList};

use wd_accept::laws::{accepted_has_one, listed_has_one_list};
use wd_laws::laws::has_valid_choice;
use wd_refute::laws::refuted_has_no_certificate;
use wd_run::laws::data_meets;

/// Where `verify` accepts a certificate, the query has one answer over every instance that meets the schema, in any order of its
/// rows and under all lawful orderings.
pub fn headline()
    ensures { Headline }
{
    accepted_has_one();
}

/// Where `verify` accepts a certificate, every answer of `run` is the query's one answer.
pub fn runs_give_it()
    ensures { RunsGiveIt }
{
    accepted_has_one();
    data_meets();
}

/// Where `verify_list` accepts a certificate, the query has one list of rows, or one fault, over every instance that meets the schema,
/// in any order of its rows and under all lawful orderings.
pub fn list_headline()
    ensures { ListHeadline }
{
    listed_has_one_list();
}

/// Where `verify_list` accepts a certificate, every answer of `run` is the query's one list or fault.
pub fn runs_give_the_list()
    ensures { RunsGiveTheList }
{
    listed_has_one_list();
    data_meets();
}

/// Where `refute` accepts a witness, `verify` accepts no certificate.
pub fn accepted_is_not_refuted()
    ensures { AcceptedIsNotRefuted }
{
    refuted_has_no_certificate();
}

/// There is an answer over every instance.
pub fn is_not_empty()
    ensures { IsNotEmpty }
{
    has_valid_choice();
}
