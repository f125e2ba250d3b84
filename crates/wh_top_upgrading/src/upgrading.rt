//! Writing the certificate in a file in the second version of the format.

ghost use Rattle.std.specs.Prelude.{◌≡◌, ◌≤◌, ℕ, List, IfOk, length};
ghost use Rattle.wh_types.specs.Limits.{certificate_limit};
ghost use Rattle.wh_types.specs.Outcome.{MatchOr};
ghost use Rattle.wh_system.specs.SystemView.{system_data};
ghost use Rattle.wh_pairs.specs.SystemPairs.{HasPairs};
ghost use Rattle.wh_pairs.specs.Views.{pairs_data};
ghost use Rattle.wh_cert.specs.CertText.{CertText};
ghost use Rattle.wh_cert.specs.Limits.{IsCert};
ghost use Rattle.wh_cert.specs.Said.{said};
ghost use Rattle.wh_cert.specs.Written.{Cert};
ghost use Rattle.wh_cert_upgrade.specs.Upgraded.{upgraded};
ghost use Rattle.wh_top_judging.specs.Outcomes.{Weighed, outside};
ghost use Rattle.wh_top_upgrading.specs.Output.{IsTextOf};
ghost use Rattle.wh_top_upgrading.specs.Upgrading.{IsNotUpgraded, IsNotUpgradedFor, IsUpgradedIn, IsUpgradedText, StandsForUpgrade};

use crate::output::certificate_text;
use std::alloc::Global;
use wh_answer::{NamedRejection, Report};
use wh_cert::Certificate;
use wh_cert_text::read_certificate;
use wh_cert_upgrade::{upgrade, upgraded_has_text};
use wh_io::Shelf;
use wh_top_judging::{Problem, certificate_in, problem_in, weigh};
use wh_types::{Bytes, Or};

/// The text of the certificate in the second file, upgraded to the second version of the format, where a check accepts
/// it for the system in the first file. Else the report says why there is none: that of the check, or that the text is
/// too long. Both files are read.
pub fn upgrade_files<S: Shelf>(
    alloc: Global,
    shelf: &mut S,
    file: &str,
    cert: &str,
) -> Result<Bytes, Or<Report>>
    ensures upgraded { MatchOr result (IsUpgradedIn (outside (S.held shelf.old) (S.faults shelf.old) (S.faults shelf.new))
        file.now cert.now)
        (StandsForUpgrade (outside (S.held shelf.old) (S.faults shelf.old) (S.faults shelf.new)) file.now cert.now) }
    ensures within { IfOk result (λ text. length text ≤ certificate_limit) }
    ensures kept { (other : List ℕ) → S.held shelf.new other ≡ S.held shelf.old other }
{
    let problem = problem_in(alloc, shelf, file)?;
    let certificate = certificate_in(alloc, shelf, cert)?;
    upgraded_text(alloc, &problem, certificate.as_slice())
}

// The upgraded text, or the report, for a system and the bytes of a certificate.
fn upgraded_text(alloc: Global, problem: &Problem, bytes: &[u8]) -> Result<Bytes, Or<Report>>
    requires length { length bytes.now ≤ certificate_limit }
    requires pairs { HasPairs (system_data problem.now.system) (pairs_data problem.now.pairs) }
    ensures upgraded { MatchOr result
        (λ text. (c : Cert) × CertText bytes.now c × IsUpgradedText (system_data problem.now.system) (pairs_data problem.now.pairs) c text)
        (IsNotUpgraded (system_data problem.now.system) (pairs_data problem.now.pairs) bytes.now) }
    ensures within { IfOk result (λ text. length text ≤ certificate_limit) }
{
    match read_certificate(alloc, bytes) {
        Ok(certificate) => upgraded_for(alloc, problem, &certificate),
        Err(Or::NoMemory) => Err(Or::NoMemory),
        Err(Or::Because(fault)) => {
            Err(Or::Because(Report::Rejected(NamedRejection::Syntax { at: fault.at })))
        }
    }
}

// The upgraded text, or the report, for a system and a certificate that was read.
fn upgraded_for(
    alloc: Global,
    problem: &Problem,
    certificate: &Certificate,
) -> Result<Bytes, Or<Report>>
    requires certificate { IsCert (said certificate.now) }
    requires pairs { HasPairs (system_data problem.now.system) (pairs_data problem.now.pairs) }
    ensures upgraded { MatchOr result (IsUpgradedText (system_data problem.now.system) (pairs_data problem.now.pairs)
        (said certificate.now))
        (IsNotUpgradedFor (system_data problem.now.system) (pairs_data problem.now.pairs) (said certificate.now)) }
    ensures within { IfOk result (λ text. length text ≤ certificate_limit) }
{
    match weigh(alloc, problem, certificate)? {
        Report::Yes => print_upgraded(alloc, problem, certificate),
        Report::No => print_upgraded(alloc, problem, certificate),
        report => Err(Or::Because(report)),
    }
}

// The text of the upgraded certificate.
fn print_upgraded(
    alloc: Global,
    problem: &Problem,
    certificate: &Certificate,
) -> Result<Bytes, Or<Report>>
    requires { IsCert (said certificate.now) }
    ensures text { IsTextOf (upgraded (length (system_data problem.now.system).rules) (said certificate.now)) result }
    ensures within { IfOk result (λ text. length text ≤ certificate_limit) }
{
    problem.system.is_well_made();
    upgraded_has_text();
    let rules = problem.system.rules().len() as u32;
    let written = upgrade(alloc, certificate, rules)?;
    certificate_text(alloc, &written)
}
