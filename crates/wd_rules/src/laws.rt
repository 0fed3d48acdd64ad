//! Laws over the definitions alone.

ghost use Rattle.wd_rules.specs.Examples.{CertificatesComeOut};
ghost use Rattle.wd_rules.specs.GroupExamples.{GroupsAreCertified};
ghost use Rattle.wd_rules.specs.Laws.{NeverBoth, ValidHasOne, ValidIsNotRefused, ValidShows};
ghost use Rattle.wd_rules.specs.Lists.{ListedHasOne, PlanHasOneList};

/// A certificate is valid exactly where it is not refused.
pub fn valid_is_not_refused()
    ensures { ValidIsNotRefused }
{}

/// Where a plan fits a schema and a certificate is valid for them, each given and each kept fact holds in the rows of its node, and each
/// call and limit is settled.
pub fn valid_shows()
    ensures { ValidShows }
{}

/// A plan with a valid certificate has one answer.
pub fn valid_has_one()
    ensures { ValidHasOne }
{}

/// No plan has both a valid certificate and a true witness.
pub fn never_both()
    ensures { NeverBoth }
{}

/// The refusals of worked certificates, and that others are valid.
pub fn certificates_come_out()
    ensures { CertificatesComeOut }
{}

/// The refusals of worked certificates of grouped queries, that others are valid, and the facts of their groups.
pub fn groups_are_certified()
    ensures { GroupsAreCertified }
{}

/// A settled plan whose last Limit has sort keys that determine every column has outcomes that agree as lists, under any valid choices,
/// over the same tables in any row order.
pub fn plan_has_one_list()
    ensures { PlanHasOneList }
{}

/// A plan with a valid certificate that justifies its last Limit by `keys` has one list.
pub fn listed_has_one()
    ensures { ListedHasOne }
{}
