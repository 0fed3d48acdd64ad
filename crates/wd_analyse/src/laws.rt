//! Laws over the definitions alone.

ghost use Rattle.wd_analyse.specs.Alike.{AnswersAreAlike};
ghost use Rattle.wd_analyse.specs.Lists.{KeysComeFirst};
ghost use Rattle.wd_analyse.specs.Peers.{PeersAreCertified};

/// Two answers for one plan differ at most in the uses of facts that the certificate's traces name.
pub fn answers_are_alike()
    ensures { AnswersAreAlike }
{}

/// By the certificate of an analysis a plan's last Limit goes by `keys` exactly where its sort keys
/// lack no column.
pub fn keys_come_first()
    ensures { KeysComeFirst }
{}

/// A plan whose calls go by `peers`, and whose limits go by `whole` or `ties`, is certified.
pub fn peers_are_certified()
    ensures { PeersAreCertified }
{}
