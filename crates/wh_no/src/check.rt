//! The check of a NO certificate. `check_no` is the main function.

ghost use Rattle.std.specs.Prelude.{IfOk, OnOk};
ghost use Rattle.wh_types.specs.Outcome.{MatchOr, IfBecause};
ghost use Rattle.wh_terms.specs.Erase.{tm};
ghost use Rattle.wh_terms.specs.Tree.{Tm};
ghost use Rattle.wh_text.specs.Erase.{rtm};
ghost use Rattle.wh_step.specs.Reduction.{Unbounded};
ghost use Rattle.wh_cert.specs.Limits.{IsCert};
ghost use Rattle.wh_cert.specs.Said.{said_no};
ghost use Rattle.wh_system_making.specs.Resolve.{Means};
ghost use Rattle.wh_system_making.specs.TablesOf.{AreTablesOf};
ghost use Rattle.wh_system.specs.SystemView.{system_data};
ghost use Rattle.wh_no.specs.Faults.{IsTermFor, IsTermFault, Arrive, IsFirstFault, IsValidNo, IsAccepted};

use crate::fault::NoFault;
use crate::instance::check_instance;
use crate::puts::check_puts;
use crate::steps::check_steps;
use std::alloc::Global;
use wh_cert::NoCertificate;
use wh_system::System;
use wh_system_making::NameTables;
use wh_terms::{Term, fits};
use wh_text::RawTerm;
use wh_types::Or;

/// An accepted NO certificate.
#[derive(Clone, Copy)]
pub struct AcceptedNo {
    /// The number of the certificate's steps.
    pub steps: u32,
}

/// The term that a raw term stands for, if it fits; the fault says that there is no such term.
pub fn check_term(
    alloc: Global,
    system: &System,
    names: &NameTables,
    raw: &RawTerm,
) -> Result<Term, Or<NoFault>>
    requires { AreTablesOf (system_data system.now) names.now }
    ensures { MatchOr result (λ term. IsTermFor (system_data system.now) (rtm raw.now) (tm term))
        (IsTermFault (system_data system.now) (rtm raw.now)) }
{
    match names.resolve(alloc, system, raw)? {
        Some(term) if fits(&term) => Ok(term),
        _ => Err(Or::Because(NoFault::NotATerm)),
    }
}

// The end of the check, from the last term on: what is put for variables, then the place.
fn check_end(
    alloc: Global,
    system: &System,
    names: &NameTables,
    certificate: &NoCertificate,
    term: &Term,
    last: &Term,
) -> Result<(), Or<NoFault>>
    requires cert { IsCert (said_no certificate.now) }
    requires names { AreTablesOf (system_data system.now) names.now }
    requires means { IsTermFor (system_data system.now) (rtm certificate.now.term) (tm term.now) }
    requires arrives { Arrive (system_data system.now).rules certificate.now.steps (tm term.now) (tm last.now) }
    ensures { MatchOr result (λ _. IsValidNo (system_data system.now) (said_no certificate.now))
        (IsFirstFault (system_data system.now) (said_no certificate.now)) }
{
    let entries = check_puts(alloc, system, names, certificate.puts.as_slice())?;
    system.is_well_made();
    check_instance(alloc, term, &entries, &certificate.at, last)
}

// The check from the term on: the steps, then the end.
fn check_rest(
    alloc: Global,
    system: &System,
    names: &NameTables,
    certificate: &NoCertificate,
    term: &Term,
) -> Result<(), Or<NoFault>>
    requires cert { IsCert (said_no certificate.now) }
    requires names { AreTablesOf (system_data system.now) names.now }
    requires means { IsTermFor (system_data system.now) (rtm certificate.now.term) (tm term.now) }
    ensures { MatchOr result (λ _. IsValidNo (system_data system.now) (said_no certificate.now))
        (IsFirstFault (system_data system.now) (said_no certificate.now)) }
{
    system.is_well_made();
    let last = check_steps(alloc, system.rules(), term, certificate.steps.as_slice())?;
    check_end(alloc, system, names, certificate, term, &last)
}

// The check of all parts: the term, then the rest.
fn check_parts(
    alloc: Global,
    system: &System,
    names: &NameTables,
    certificate: &NoCertificate,
) -> Result<(), Or<NoFault>>
    requires cert { IsCert (said_no certificate.now) }
    requires names { AreTablesOf (system_data system.now) names.now }
    ensures { MatchOr result (λ _. IsValidNo (system_data system.now) (said_no certificate.now))
        (IsFirstFault (system_data system.now) (said_no certificate.now)) }
{
    let term = check_term(alloc, system, names, &certificate.term)?;
    check_rest(alloc, system, names, certificate, &term)
}

// Whether the certificate is valid; else its first fault. Each part of the check has a function of its own, since what
// a function holds is dropped at each of its returns, and a proof walks through every one of these drops.
fn check_claim(
    alloc: Global,
    system: &System,
    certificate: &NoCertificate,
) -> Result<(), Or<NoFault>>
    requires { IsCert (said_no certificate.now) }
    ensures { MatchOr result (λ _. IsValidNo (system_data system.now) (said_no certificate.now))
        (IsFirstFault (system_data system.now) (said_no certificate.now)) }
{
    let names = NameTables::of(alloc, system)?;
    check_parts(alloc, system, &names, certificate)
}

/// Checks a NO certificate over the system. It is accepted exactly where it is valid: its steps, one at least, lead
/// from its term to one that holds, at the place that it names, the instance that it names. Then its term has
/// reductions of every length (loops: Kop 2012). The fault is the first condition of a valid certificate that is false:
/// of the term, then of the steps, of what is put for variables, and of the place. The certificate is one that
/// `read_certificate` gives.
pub fn check_no(
    alloc: Global,
    system: &System,
    certificate: &NoCertificate,
) -> Result<AcceptedNo, Or<NoFault>>
    requires { IsCert (said_no certificate.now) }
    ensures accepted { IfOk result (IsAccepted (system_data system.now) (said_no certificate.now)) }
    ensures refused { IfBecause result (IsFirstFault (system_data system.now) (said_no certificate.now)) }
    ensures unbounded { OnOk result ((t : Tm) → Means (system_data system.now) (rtm certificate.now.term) t
        → Unbounded (system_data system.now).rules t) }
{
    check_claim(alloc, system, certificate)?;
    system.is_well_made();
    let steps = certificate.steps.as_slice();
    Ok(AcceptedNo {
        steps: steps.len() as u32,
    })
}
