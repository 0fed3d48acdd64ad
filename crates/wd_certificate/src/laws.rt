//! Laws over the definitions, and a round trip: a certificate that is written is read back.

ghost use Rattle.std.specs.Prelude.{◌≡◌, IfOk, IfErr};
ghost use Rattle.wd_certificate.specs.Certificates.{certificate_of};
ghost use Rattle.wd_certificate.specs.Examples.{HaveExampleTexts};
ghost use Rattle.wd_certificate.specs.Laws.{SpellsOne, IsReadBack};
ghost use Rattle.wd_certificate.specs.declared.error.CertError.TheVariants as error;

use crate::certificate::Certificate;
use crate::error::CertError;
use crate::read::from_json;
use std::alloc::Global;

/// Bytes spell at most one certificate, of one version.
pub fn spells_one()
    ensures { SpellsOne }
{}

/// Bytes that spell a certificate of version 1 or 2 spell no other, and are refused only where memory runs out.
pub fn is_read_back()
    ensures { IsReadBack }
{}

/// The texts of a certificate of each version, byte for byte.
pub fn example_texts()
    ensures { HaveExampleTexts }
{}

/// A certificate that is written and read again is unchanged, unless memory runs out.
pub fn read_back(alloc: Global, certificate: &Certificate) -> Result<Certificate, CertError>
    ensures same { IfOk result (λ c. certificate_of c ≡ certificate_of certificate.now) }
    ensures memory { IfErr result (λ e. e ≡ error.OutOfMemory) }
{
    let bytes = certificate.to_json(alloc)?;
    from_json(alloc, &bytes)
}
