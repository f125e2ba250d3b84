//! Steps by rules, and the beta steps behind them until no redex is left.

use std::alloc::{AllocError, Global};
use wh_hunt_terms::{Way, reduct_by_step, step_of};
use wh_system::System;
use wh_terms::Term;

// A result that needs more beta steps is left out.
const MOST_BETAS: u32 = 400;

/// What a step leads to once no beta redex is left.
#[derive(Drop)]
pub struct Reduct {
    /// The term without a beta redex.
    pub term: Term,
    /// The places of the beta steps behind the step, in order.
    pub betas: Vec<Way>,
}

// Whether the term is an abstraction.
fn is_abstraction(term: &Term) -> bool {
    match term {
        Term::Lam(..) => true,
        _ => false,
    }
}

// Whether there is a beta redex in the term. If so the way leads on to the first one: the outermost, and of these the
// leftmost.
fn finds_redex(term: &Term, way: &mut Way) -> Result<bool, AllocError> {
    match term {
        Term::App(function, argument) => {
            if is_abstraction(function) {
                return Ok(true);
            }
            way.push(false)?;
            if finds_redex(function, way)? {
                return Ok(true);
            }
            let _ = way.pop();
            way.push(true)?;
            if finds_redex(argument, way)? {
                return Ok(true);
            }
            let _ = way.pop();
            Ok(false)
        }
        Term::Lam(_, body) => {
            way.push(false)?;
            if finds_redex(body, way)? {
                return Ok(true);
            }
            let _ = way.pop();
            Ok(false)
        }
        Term::Bound(_) | Term::Free(..) | Term::Fun(_) | Term::Meta(..) => Ok(false),
    }
}

// The way to the first beta redex of the term.
fn first_redex(alloc: Global, term: &Term) -> Result<Option<Way>, AllocError> {
    let mut way = Vec::new(alloc);
    if finds_redex(term, &mut way)? {
        Ok(Some(way))
    } else {
        Ok(None)
    }
}

// What the step at the end of the way leads to.
fn stepped(
    alloc: Global,
    system: &System,
    term: &Term,
    rule: Option<u32>,
    way: &[bool],
) -> Result<Option<Term>, AllocError> {
    let step = step_of(alloc, rule, way)?;
    reduct_by_step(alloc, system, term, &step)
}

// Takes beta steps in the term, at most as many as may be taken, and notes their places: whether no redex is left.
fn is_normalized(
    alloc: Global,
    system: &System,
    term: &mut Term,
    betas: &mut Vec<Way>,
) -> Result<bool, AllocError> {
    for _ in 0..MOST_BETAS {
        let Some(way) = first_redex(alloc, term)? else {
            return Ok(true);
        };
        let Some(next) = stepped(alloc, system, term, None, &way)? else {
            return Ok(false);
        };
        *term = next;
        betas.push(way)?;
    }
    Ok(false)
}

/// What the step by the rule at the end of the way leads to once no beta redex is left; `None` where the step does not
/// apply, or a term on the way to the result is too large.
pub fn reduct_of(
    alloc: Global,
    system: &System,
    term: &Term,
    rule: u32,
    way: &[bool],
) -> Result<Option<Reduct>, AllocError> {
    let Some(mut term) = stepped(alloc, system, term, Some(rule), way)? else {
        return Ok(None);
    };
    let mut betas = Vec::new(alloc);
    if is_normalized(alloc, system, &mut term, &mut betas)? {
        Ok(Some(Reduct { term, betas }))
    } else {
        Ok(None)
    }
}
