//! Calls on the term of a certificate in a system. Each value is made in a function of its own, which hands it on by
//! reference: a function that holds several takes the prover long.

ghost use Rattle.wh_terms.specs.Erase.{tm};
ghost use Rattle.wh_terms.specs.Measures.{Fits, Manageable};
ghost use Rattle.wh_terms.specs.Sight.{IsTerm, LooseBelow};

use crate::reading::term_in;
use crate::step_rows::{add_end, add_reducts, add_step};
use crate::term_rows::{add_body_opened, add_closed, add_opened_at, add_substituted};
use std::alloc::{AllocError, Global};
use wh_cert::{CertSyntax, Certificate, NoCertificate};
use wh_cert_text::read_certificate;
use wh_system::System;
use wh_terms::Term;
use wh_types::{Bytes, Or};

/// A call on the term of a certificate.
#[derive(Clone, Copy)]
pub enum Call {
    /// The reducts of the term in their order, each behind a blank.
    Reducts,
    /// The result of the certificate's one step.
    Step,
    /// Where the certificate's steps lead, or which step fails.
    Replay,
    /// What stands at the place that the certificate names, opened from the number 5 on.
    OpenAt,
    /// The body of the inner abstraction with the symbol 2 for its variable.
    Open,
    /// The term with its variable 2 of the sort 0 closed.
    Close,
    /// The term with the nearest loose variable for its variable 3.
    Substitute,
}

/// The answer to a call, by the text of the certificate; want of memory stands for all that does not read.
pub fn add_called(
    alloc: Global,
    out: &mut Bytes,
    call: Call,
    system: &System,
    text: &[u8],
) -> Result<(), AllocError> {
    if text.len() > 8_388_608 {
        return Err(AllocError);
    }
    let outcome = read_certificate(alloc, text);
    add_called_from(alloc, out, call, system, &outcome)
}

/// Appends what the calls give for the certificate that was read, which is one of non-termination.
fn add_called_from(
    alloc: Global,
    out: &mut Bytes,
    call: Call,
    system: &System,
    outcome: &Result<Certificate, Or<CertSyntax>>,
) -> Result<(), AllocError> {
    match outcome {
        Ok(Certificate::No(no)) => add_called_by(alloc, out, call, system, no),
        _ => Err(AllocError),
    }
}

/// Appends what the calls give for the term, the steps and the rest of the certificate.
fn add_called_by(
    alloc: Global,
    out: &mut Bytes,
    call: Call,
    system: &System,
    no: &NoCertificate,
) -> Result<(), AllocError> {
    let term = term_in(alloc, system, &no.term)?;
    add_called_on(alloc, out, call, system, no, &term)
}

/// Appends what the calls give for the term of the certificate.
fn add_called_on(
    alloc: Global,
    out: &mut Bytes,
    call: Call,
    system: &System,
    no: &NoCertificate,
    term: &Term,
) -> Result<(), AllocError>
    requires fits { Fits (tm term.now) }
    requires shut { LooseBelow 0 (tm term.now) }
    requires plain { IsTerm (tm term.now) }
    requires in_range { Manageable (tm term.now) }
{
    match call {
        Call::Reducts => add_reducts(alloc, out, system, term),
        Call::Step => add_step(alloc, out, system, term, no.steps.as_slice()),
        Call::Replay => add_end(alloc, out, system, term, no.steps.as_slice()),
        Call::OpenAt => add_opened_at(alloc, out, term, &no.at),
        Call::Open => add_body_opened(alloc, out, term),
        Call::Close => add_closed(alloc, out, term),
        Call::Substitute => add_substituted(alloc, out, term),
    }
}
