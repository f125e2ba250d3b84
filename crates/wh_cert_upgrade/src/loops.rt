//! Copies of NO certificates, which no upgrade changes.

ghost use Rattle.std.specs.Prelude.{◌≡◌, map, IfOk};
ghost use Rattle.wh_cert.specs.Said.{said_no, said_put};

use crate::lists::copy_path;
use crate::terms::{copy_term, copy_type};
use std::alloc::{AllocError, Global};
use wh_cert::{NoCertificate, Put, Puts, Steps};
use wh_terms::Step;

/// Copies the certificate of a loop.
pub fn copy_loop(alloc: Global, certificate: &NoCertificate) -> Result<NoCertificate, AllocError>
    ensures { IfOk result (λ copy. said_no copy ≡ said_no certificate.now) }
{
    let term = copy_term(alloc, &certificate.term)?;
    let steps = copy_steps(alloc, certificate.steps.as_slice())?;
    let at = copy_path(alloc, certificate.at.as_slice())?;
    let puts = copy_puts(alloc, certificate.puts.as_slice())?;
    Ok(NoCertificate {
        term,
        steps,
        at,
        puts,
    })
}

/// Copies the steps.
fn copy_steps(alloc: Global, steps: &[Step]) -> Result<Steps, AllocError>
    ensures { IfOk result (λ copies. copies ≡ steps.now) }
{
    let mut copies = Steps::new(alloc);
    for step in steps {
        copies.push(Step {
            rule: step.rule,
            path: copy_path(alloc, step.path.as_slice())?,
        })?;
    }
    Ok(copies)
}

/// Equal terms for the same variables.
#[tactic(auto, using(crate::proofs::Copies::puts_join, crate::proofs::Copies::puts_end))]
fn copy_puts(alloc: Global, puts: &[Put]) -> Result<Puts, AllocError>
    ensures { IfOk result (λ copies. map said_put copies ≡ map said_put puts.now) }
{
    let mut copies = Puts::new(alloc);
    for put in puts {
        copies.push(copy_put(alloc, put)?)?;
    }
    Ok(copies)
}

/// An equal term for the same variable.
fn copy_put(alloc: Global, put: &Put) -> Result<Put, AllocError>
    ensures { IfOk result (λ copy. said_put copy ≡ said_put put.now) }
{
    Ok(Put {
        number: put.number,
        kind: copy_type(alloc, &put.kind)?,
        term: copy_term(alloc, &put.term)?,
    })
}
