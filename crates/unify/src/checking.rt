//! From a site whose files were counted, and a certificate, to the cost of its mappings.

ghost use Rattle.std.specs.Prelude.{◌≡◌, List};
ghost use Rattle.idtext.specs.First.{Gives};
ghost use Rattle.ownership.specs.Counts.{IsMadeFor, StandsFor};
ghost use Rattle.ownership.specs.Files.{Added};
ghost use Rattle.certcheck.specs.Check.{answer as check_answer};
ghost use Rattle.certcheck.specs.Reading.{certificate_in};
ghost use Rattle.unify_texts.specs.Told.{told};
ghost use Rattle.unify.specs.Told.{check_told, in_certificate, in_check};
ghost use Rattle.unify.specs.Checking.{checked};
ghost use Rattle.unify.specs.Reading.{WholeSite, files_of_site};

use certcheck::{Certificate, CertificateFault, CheckFault, check, read_certificate};
use hosts_join::Site;
use ownership::Counts;
use std::alloc::Global;
use unify_texts::Fault;

// A fault of the check, as the program tells it.
fn check_fault(fault: CheckFault<'_>) -> Fault<'_>
    ensures { result ≡ check_told fault.entry }
{
    match fault {
        CheckFault::NameMissing { kind, name } => Fault::NameMissing { kind, name },
        CheckFault::NumberTwice { kind, number } => Fault::NumberTwice { kind, number },
        CheckFault::OutsidePool { kind, name } => Fault::OutsidePool { kind, name },
        CheckFault::PinBroken { kind, name } => Fault::PinBroken { kind, name },
        CheckFault::NotCovered { kind, name, number } => Fault::NotCovered { kind, name, number },
        CheckFault::SumsDiffer { kind, sum, weight } => Fault::SumsDiffer { kind, sum, weight },
        CheckFault::Memory => Fault::Memory,
    }
}

// The certificate of a text.
fn certificate_at<'a>(alloc: Global, text: &'a [u8]) -> Result<Certificate<'a>, Fault<'a>>
    ensures { Gives (λ certificate. certificate) told result
        (in_certificate (certificate_in text.now)) }
{
    match read_certificate(alloc, text) {
        Ok(certificate) => Ok(certificate),
        Err(CertificateFault::BadCertificate(line)) => Err(Fault::BadCertificate(line)),
        Err(CertificateFault::Memory) => Err(Fault::Memory),
    }
}

// The check of a certificate of a site whose files were counted.
fn check_site<'a>(
    alloc: Global,
    site: &Site<'a>,
    counts: &Counts,
    certificate: &Certificate<'a>,
) -> Result<u64, Fault<'a>>
    requires made { IsMadeFor site.now counts.now }
    requires stands { (files : List Added) × StandsFor site.now counts.now files }
    ensures { (files : List Added) → StandsFor site.now counts.now files
        → Gives (λ cost. cost) told result
        (in_check (check_answer site.now files certificate.now)) }
{
    match check(alloc, site, counts, certificate) {
        Ok(cost) => Ok(cost),
        Err(fault) => Err(check_fault(fault)),
    }
}

/// What a certificate's text says of a site whose files were counted. Requires that the counters
/// are of its files.
///
/// It refuses with the first fault in this order: the certificate's text, by line; the check, users
/// before groups. `Fault::Memory` is a growth that was refused. Near linear in the account rows,
/// the counters and the certificate's lines.
pub fn check_counted<'a>(
    alloc: Global,
    site: &Site<'a>,
    counts: &Counts,
    certificate: &'a [u8],
) -> Result<u64, Fault<'a>>
    requires made { IsMadeFor site.now counts.now }
    requires stands { (files : List Added) × StandsFor site.now counts.now files }
    ensures { (whole : WholeSite) → site.now ≡ whole.joined
        → StandsFor site.now counts.now (files_of_site whole)
        → Gives (λ cost. cost) told result
        (checked whole (in_certificate (certificate_in certificate.now))) }
{
    match certificate_at(alloc, certificate) {
        Ok(certificate) => check_site(alloc, site, counts, &certificate),
        Err(fault) => Err(fault),
    }
}
